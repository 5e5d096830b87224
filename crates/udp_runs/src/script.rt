//! Nodes over datagrams in one process, by a script.

ghost use Rattle.std.specs.Prelude.{◌≡◌, ℕ, List, [], ◌++◌, map, take, IfOk, IfErr, OnOk, OnErr};
ghost use Rattle.std.specs.List.{concat};
ghost use Rattle.std.specs.Io.KnownBytes.{Appends};
ghost use Rattle.vsync_text.specs.Outcomes.{IsAnswer};
ghost use Rattle.law_runners.specs.Systems.{Gone};
ghost use Rattle.udp_runs.specs.declared.ends.Cut.TheVariants as cut;
ghost use Rattle.udp_net.specs.Logs.{NetEvent};
ghost use Rattle.udp_runs.specs.Carrying.{AreListed};
ghost use Rattle.udp_runs.specs.Nodes.{AreUnused, Plays, processes_in};
ghost use Rattle.udp_runs.specs.Playing.{GoesOnBy, RunsLines, WritesStates};
ghost use Rattle.udp_runs.specs.Scripts.{IsUnreadText, ReadsLines, RunsUdp, StopsAt};
ghost use Rattle.udp_runs.specs.Processes.{state_text};
ghost use Rattle.udp_runs.specs.Texts.{Line};

use crate::NodeMachine;
use crate::ends::{Cut, Stop, end, end_without_net, settle};
use crate::nodes::Nodes;
use application::Application;
use law_runners::runners_are_synchronous;
use std::alloc::Global;
use std::io::{Read, Write};
use udp_net::{Net, Settings};
use vsync_text::{
    Status, UdpLine, Unread, Unreadable, end_in_fault, end_in_memory, read_all, read_udp_script,
};

// The lines of a script; or the status with which the command ended, where it is none or is not read.
fn lines_from<I: Read, W: Write>(
    alloc: Global,
    reader: &mut I,
    writer: &mut W,
) -> Result<Vec<UdpLine>, Status>
    ensures ok { IfOk result (λ lines. ReadsLines (I.remaining reader.old) (W.contents writer.old) (W.contents writer.new) lines.items) }
    ensures err { IfErr result (λ status. IsAnswer IsUnreadText (I.remaining reader.old) (W.contents writer.old) (W.contents writer.new) status) }
{
    let bytes = match read_all(alloc, reader) {
        Ok(bytes) => bytes,
        Err(Unreadable::Memory) => return Err(end_in_memory(writer)),
        Err(Unreadable::Failed) => return Err(Status::Outside),
    };
    match read_udp_script(alloc, bytes.as_slice()) {
        Ok(lines) => Ok(lines),
        Err(Unread::Fault { line, fault }) => Err(end_in_fault(alloc, writer, line, fault)),
        Err(Unread::Memory) => Err(end_in_memory(writer)),
    }
}

// Does what a line says, and writes what happened.
fn play_line<N: Net, C: Application, M: NodeMachine<Net = N>, W: Write>(
    nodes: &mut Nodes<N, C>,
    settings: &Settings,
    machine: &mut M,
    line: &UdpLine,
    text: &mut Vec<u8>,
    writer: &mut W,
) -> Result<(), Stop>
    ensures goes { (gone : List (Gone N)) (lines : List Line) (nets : List NetEvent) → Plays N.log N.failed C.meaning settings.now.group nodes.old.node_states.items gone lines nets
        → text.old.items ≡ [] → GoesOnBy N.log N.failed C.meaning settings.now.group line.now nodes.old.node_states.items nodes.new.node_states.items (M.gone machine.old) (M.gone machine.new)
        text.new.items (W.contents writer.old) (W.contents writer.new) gone lines nets result }
    ensures stops { IfErr result (StopsAt line.now) }
{
    let done = nodes.carry_out(settings, machine, line, text);
    match settle(writer, text) {
        Ok(()) => done,
        Err(why) => Err(Stop::Cut(why)),
    }
}

// Writes the states.
fn write_states<N: Net, C: Application, W: Write>(
    nodes: &mut Nodes<N, C>,
    text: &mut Vec<u8>,
    writer: &mut W,
) -> Result<(), Cut>
    ensures writes { text.old.items ≡ []
        → WritesStates (map (state_text C.line_of) (processes_in nodes.old.node_states.items)) (W.contents writer.old) (W.contents writer.new) result }
    ensures same { nodes.new.node_states.items ≡ nodes.old.node_states.items }
{
    let appended = nodes.append_states(text);
    if let Err(why) = settle(writer, text) {
        return Err(why);
    }
    match appended {
        Ok(()) => Ok(()),
        Err(_) => Err(Cut::Memory),
    }
}

// Does what lines say, and writes what happened.
fn play_lines<N: Net, C: Application, M: NodeMachine<Net = N>, W: Write>(
    nodes: &mut Nodes<N, C>,
    settings: &Settings,
    machine: &mut M,
    lines: &[UdpLine],
    text: &mut Vec<u8>,
    writer: &mut W,
) -> Result<(), Stop>
    ensures { AreUnused nodes.old.node_states.items → AreListed settings.now.nodes nodes.old.node_states.items → text.old.items ≡ []
        → RunsLines N.log N.failed C.meaning C.line_of settings.now.group settings.now.nodes (M.gone machine.old) (M.gone machine.new) lines.now (W.contents writer.old) (W.contents writer.new) result }
{
    runners_are_synchronous::<N, C>();
    for line in lines {
        if let Err(stop) = play_line(nodes, settings, machine, line, text, writer) {
            nodes.close(machine);
            return Err(stop);
        }
    }
    let written = write_states(nodes, text, writer);
    nodes.close(machine);
    match written {
        Ok(()) => Ok(()),
        Err(why) => Err(Stop::Cut(why)),
    }
}

// Does what lines say at nodes where no member runs yet.
fn play<C: Application, M: NodeMachine, W: Write>(
    alloc: Global,
    settings: &Settings,
    machine: &mut M,
    lines: &[UdpLine],
    writer: &mut W,
) -> Result<(), Stop>
    ensures { RunsLines M.Net.log M.Net.failed C.meaning C.line_of settings.now.group settings.now.nodes (M.gone machine.old) (M.gone machine.new) lines.now (W.contents writer.old) (W.contents writer.new) result }
{
    runners_are_synchronous::<M::Net, C>();
    let Ok(mut nodes) = Nodes::<M::Net, C>::new(alloc, settings) else {
        return Err(Stop::Cut(Cut::Memory));
    };
    let mut text = Vec::new(alloc);
    play_lines(&mut nodes, settings, machine, lines, &mut text, writer)
}

/// Runs the nodes of the settings in this process by a script from a reader, each over a net of its own, with the chats `C` as their receivers. Writes what
/// happened to a writer, with each refused event in its place, and then the chat line of each member that runs, by node; or the script's first fault
/// (docs/CLI.md, "Nodes over UDP"). Answers the exit status.
///
/// Where a node that starts can have no socket, it writes the text so far and `fault LINE 51`, status 5. A member that is refused memory has crashed; where memory
/// is refused elsewhere, it writes the text so far and `# memory`. The nets are given back to the machine at every status.
///
/// With status 0 the lines of the script were carried out, one after the other, each at the node that it names; what is written of a line is what happened by it there, and the answer of its
/// call. What happened is a history of processes; where their nets list what happens at them, it is virtually synchronous if they gave only what was offered before, in the order of the lines.
pub fn run_udp<C: Application, M: NodeMachine, I: Read, W: Write>(
    alloc: Global,
    settings: &Settings,
    machine: &mut M,
    reader: &mut I,
    writer: &mut W,
) -> Status
    ensures { RunsUdp M.Net.log M.Net.failed C.meaning C.line_of settings.now.group settings.now.nodes (M.gone machine.old) (M.gone machine.new) (I.remaining reader.old) (W.contents writer.old) (W.contents writer.new) result }
{
    let lines = match lines_from(alloc, reader, writer) {
        Ok(lines) => lines,
        Err(status) => return status,
    };
    match play::<C, M, W>(alloc, settings, machine, lines.as_slice(), writer) {
        Ok(()) => end(writer, Ok(())),
        Err(Stop::Cut(why)) => end(writer, Err(why)),
        Err(Stop::NoNet(line, error)) => end_without_net(alloc, writer, line, error),
    }
}
