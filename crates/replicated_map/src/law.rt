ghost use Rattle.std.specs.Prelude.{◌≡◌, ◌↔◌, ◌≤◌, ℕ, List, Some, length};
ghost use Rattle.replicated_map.specs.declared.command.Command.{Command as CommandValue};
ghost use Rattle.replicated_map.specs.Entries.{MapState, IsMap};
ghost use Rattle.replicated_map.specs.Encoding.{map_encode, map_decode};
ghost use Rattle.replicated_map.specs.Commands.{IsCommand, command_bytes, command_of};
ghost use Rattle.replicated_map.specs.Changes.{ReplacedIfExpected, KeptIfNotExpected, ReplacedOnce, ReplacedAtItsVersion, KeptAtAnotherVersion, RemovedAtItsVersion, NotRemovedAtAnother, PutIfItFits, PutIsKeptOut, ReplaceIsKeptOut, VersionIsKeptOut, NewKeyTakes, NewValueTakes, RemovalGives};
ghost use Rattle.replicated_map.specs.Outcomes.{StoredStands, ReplaceStands, VersionStands, RemovalStands, VersionRemovalStands, FullIsKeptOut, DifferentIsKept, OtherVersionIsKept, OtherVersionIsNotRemoved, MissingIsKept, ClearedStands, NoCommandIsKept};
ghost use Rattle.replicated_map.specs.Versions.{AboveAllBefore, AboveLowerViews, VersionsRise, NamesOneValue, GoneIsGone};
ghost use Rattle.replicated_map.specs.Stamps.{StampedSpells, SaidSpells};
ghost use Rattle.address.specs.declared.limits.TheConstants.{STATE};

/// The law of the encoding: a state is decoded from its encoding and from no other bytes, and only a map's states
/// are. No encoding is longer than `STATE` bytes.
pub fn one_encoding()
    ensures exact { (bytes : List ℕ) (s : MapState) → (map_decode bytes ≡ Some s) ↔ (IsMap s × (map_encode s ≡ bytes)) }
    ensures short { (s : MapState) → IsMap s → length (map_encode s) ≤ STATE }
{}

/// The law of the commands' spelling: a command is read from its spelling and from no other bytes.
pub fn one_spelling()
    ensures { (bytes : List ℕ) (c : CommandValue) → (command_of bytes ≡ Some c) ↔ (IsCommand c × (command_bytes c ≡ bytes)) }
{}

/// The law of replacements (docs/RECEIVERS.md, "The map's commands"). If the key has the expected value, and the state then is within its limits, a replacement gives its value.
/// If the key has another value, or none, it changes nothing. If it gave another value than the expected one, a second one right after it that expects the same value changes nothing.
/// A replacement and a removal of a version change the map exactly where the key has a value of that version.
pub fn replaces()
    ensures puts { ReplacedIfExpected }
    ensures otherwise { KeptIfNotExpected }
    ensures once { ReplacedOnce }
    ensures at_version { ReplacedAtItsVersion }
    ensures at_another { KeptAtAnotherVersion }
    ensures removes { RemovedAtItsVersion }
    ensures keeps { NotRemovedAtAnother }
{}

/// The law of sizes (docs/RECEIVERS.md, "The map's state"). A put is carried out if the state then is within its limits. Otherwise it changes nothing, and neither does a replacement.
/// A new key takes 25 bytes, its own and those of its value. A new value takes its bytes in place of the old one's. A removal gives back what its key and value took.
pub fn sizes()
    ensures fits { PutIfItFits }
    ensures put_kept_out { PutIsKeptOut }
    ensures replace_kept_out { ReplaceIsKeptOut }
    ensures version_kept_out { VersionIsKeptOut }
    ensures new_key { NewKeyTakes }
    ensures new_value { NewValueTakes }
    ensures removal { RemovalGives }
{}

/// The law of outcomes (docs/RECEIVERS.md, "What becomes of a command"). It says what the outcome of a command tells of the map right before it and right after it.
pub fn outcomes()
    ensures stored { StoredStands }
    ensures replaced { ReplaceStands }
    ensures replaced_version { VersionStands }
    ensures removed { RemovalStands }
    ensures removed_version { VersionRemovalStands }
    ensures kept_out { FullIsKeptOut }
    ensures different { DifferentIsKept }
    ensures other_version { OtherVersionIsKept }
    ensures not_removed { OtherVersionIsNotRemoved }
    ensures missing { MissingIsKept }
    ensures cleared { ClearedStands }
    ensures no_command { NoCommandIsKept }
{}

/// The law of versions (docs/RECEIVERS.md, "The map's state"). What a message gives has a version above all that the map had before, and above all of lower views than the message's.
/// So versions rise along the messages of a copy. A version names one value of its key, and once that value is gone it never comes back.
pub fn versions()
    ensures above { AboveAllBefore }
    ensures above_views { AboveLowerViews }
    ensures rise { VersionsRise }
    ensures one { NamesOneValue }
    ensures gone { GoneIsGone }
{}

/// The law of stamps: each command that gives a value, and that a member says in words, spells the view in which it is said. So does a command that `Command::in_view` stamps
/// anew. It does nothing.
pub fn stamps_spell()
    ensures stamped { StampedSpells }
    ensures said { SaidSpells }
{}
