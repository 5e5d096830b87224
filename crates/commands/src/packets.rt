ghost use Rattle.std.specs.Prelude.{true};
ghost use Rattle.vsync_text.specs.PacketText.{packet_lines};
ghost use Rattle.vsync_text.specs.Outcomes.{Written, IsLinesText};
ghost use Rattle.commands.specs.Packets.{IsPacketText, RunsPackets};

use crate::scripts::script_from;
use state_transfer::Receiver;
use std::alloc::Global;
use std::io::{Read, Write};
use vsync_text::{AsWritten, Script, Status, append_packets, end_in_memory, end_with_lines};
use world::World;

/// Writes the packets of a world.
fn print_packets<R: Receiver, W: Write>(alloc: Global, world: &World<R>, writer: &mut W) -> Status
    ensures { Written (IsLinesText (packet_lines world.now.history.pool) true) (W.contents writer.old) (W.contents writer.new) result }
{
    let mut text = Vec::new(alloc);
    let appended = append_packets(&mut text, world.packets());
    end_with_lines(writer, text.as_slice(), appended)
}

/// Runs a script's events in a world, and writes the packets that were put out.
fn play_packets<R: Receiver, W: Write>(alloc: Global, script: &Script, writer: &mut W) -> Status
    ensures { Written (IsPacketText R.meaning script.now) (W.contents writer.old) (W.contents writer.new) result }
{
    let mut world = World::<R>::new(alloc);
    match world.run(script.events()) {
        Ok(()) => print_packets(alloc, &world, writer),
        Err(_) => end_in_memory(writer),
    }
}

/// Runs a script from a reader in a world whose receivers are `R`, and writes to a writer the line of each packet that was put out, in
/// order (docs/FORMATS.md, "The packets' lines"); or the script's first fault. Answers the exit status.
///
/// Where memory is refused outside a member's step, it writes the lines so far and `# memory`; none, if the script was not run
/// to its end.
pub fn run_packets<R: Receiver, I: Read, W: Write>(
    alloc: Global,
    reader: &mut I,
    writer: &mut W,
) -> Status
    ensures { RunsPackets R.meaning (I.remaining reader.old) (W.contents writer.old) (W.contents writer.new) result }
{
    match script_from::<AsWritten, I, W>(alloc, reader, writer) {
        Ok(script) => play_packets::<R, W>(alloc, &script, writer),
        Err(status) => status,
    }
}
