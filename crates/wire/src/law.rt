ghost use Rattle.std.specs.Prelude.{◌≡◌, ◌++◌, ℕ, List, [], Ok};
ghost use Rattle.wire_values.specs.declared.packet.Packet.{Packet as PacketValue};
ghost use Rattle.wire.specs.Packets.{Spells, packet_of};

/// The law of the grammar: no two packets have one spelling, a packet has one spelling only, and no spelling
/// begins another.
pub fn one_spelling()
    ensures packet { (p q : PacketValue) (bytes : List ℕ) → Spells p bytes → Spells q bytes → p ≡ q }
    ensures spelling { (p : PacketValue) (bytes others : List ℕ) → Spells p bytes → Spells p others → bytes ≡ others }
    ensures begins { (p q : PacketValue) (bytes more : List ℕ) → Spells p bytes → Spells q (bytes ++ more) → more ≡ [] }
    // What is spelled is what the bytes are read as.
    ensures read { (p : PacketValue) (bytes : List ℕ) → Spells p bytes → packet_of bytes ≡ Ok p }
{}
