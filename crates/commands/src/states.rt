//! The states of the members that run when a script has ended.

ghost use Rattle.std.specs.Prelude.{◌≡◌, ◌≤◌, ◌++◌, ℕ, take, true, OnOk, OnErr, option_to_list};
ghost use Rattle.std.specs.List.{concat};
ghost use Rattle.vsync_text.specs.Outcomes.{Written, IsLinesText};
ghost use Rattle.commands.specs.States.{state_line_at, state_lines_of, IsStatesText, RunsStates};

use crate::scripts::script_from;
use address::Node;
use application::{Application, append_line};
use std::alloc::{AllocError, Global};
use std::io::{Read, Write};
use vsync_text::{Script, Status, end_in_memory, end_with_lines};
use world::World;

/// Appends the line of the member that runs at the node of a number, if one does.
fn append_state_at<A: Application>(
    out: &mut Vec<u8>,
    world: &World<A>,
    number: u16,
) -> Result<(), AllocError>
    requires { 1 ≤ number }
    ensures ok { OnOk result (out.new.items ≡ out.old.items ++ concat (option_to_list (state_line_at A.meaning A.line_of world.now.history.trace number))) }
    ensures err { OnErr result (out.new.items ≡ out.old.items) }
{
    let Some(node) = Node::new(number) else {
        return Ok(());
    };
    let Some(member) = world.running(node) else {
        return Ok(());
    };
    match world.receiver(node) {
        Some(state) => append_line(out, &member, state),
        None => Ok(()),
    }
}

/// Appends the lines of all members that run, by node; the first few of them where memory is refused.
fn append_states<A: Application>(out: &mut Vec<u8>, world: &World<A>) -> Result<(), AllocError>
    ensures ok { OnOk result (out.new.items ≡ out.old.items ++ concat (state_lines_of A.meaning A.line_of world.now.history.trace)) }
    ensures err { OnErr result ((count : ℕ) × (out.new.items ≡ out.old.items ++ concat (take count (state_lines_of A.meaning A.line_of world.now.history.trace)))) }
{
    for before in 0..u16::MAX {
        append_state_at(out, world, before + 1)?;
    }
    Ok(())
}

/// Writes the states of a world.
fn print_states<A: Application, W: Write>(alloc: Global, world: &World<A>, writer: &mut W) -> Status
    ensures { Written (IsLinesText (state_lines_of A.meaning A.line_of world.now.history.trace) true) (W.contents writer.old) (W.contents writer.new) result }
{
    let mut text = Vec::new(alloc);
    let appended = append_states(&mut text, world);
    end_with_lines(writer, text.as_slice(), appended)
}

/// Runs a script's events in a world, and writes the states of its members.
fn play_states<A: Application, W: Write>(alloc: Global, script: &Script, writer: &mut W) -> Status
    ensures { Written (IsStatesText A.meaning A.line_of script.now) (W.contents writer.old) (W.contents writer.new) result }
{
    let mut world = World::<A>::new(alloc);
    match world.run(script.events()) {
        Ok(()) => print_states(alloc, &world, writer),
        Err(_) => end_in_memory(writer),
    }
}

/// Runs a script from a reader in a world whose receivers are `A`, and writes to a writer the line of each member that runs then, by node: the
/// chat's, the map's or the locks' (docs/RECEIVERS.md, "The chat's lines", "The map's lines", "The locks' lines"); or the script's first fault. What is
/// printed are states of the trace, which agree wherever members have delivered as much of a view. Answers the exit status.
///
/// Where memory is refused outside a member's step, it writes the lines so far and `# memory`; none, if the script was not run
/// to its end.
pub fn run_states<A: Application, I: Read, W: Write>(
    alloc: Global,
    reader: &mut I,
    writer: &mut W,
) -> Status
    ensures { RunsStates A.meaning A.payload_of A.line_of (I.remaining reader.old) (W.contents writer.old) (W.contents writer.new) result }
{
    match script_from::<A, I, W>(alloc, reader, writer) {
        Ok(script) => play_states::<A, W>(alloc, &script, writer),
        Err(status) => status,
    }
}
