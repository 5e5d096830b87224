//! One node that runs by itself.

ghost use Rattle.std.specs.Prelude.{◌≡◌, [], false};
ghost use Rattle.std.specs.Option.{ForSome, option_copied};
ghost use Rattle.address.specs.Ids.{IsAddress};
ghost use Rattle.udp_net.specs.Settings.{port_of};
ghost use Rattle.udp_runs.specs.Members.{RunsMember, StartsUp, WritesFirst, WritesStart, way_of};
ghost use Rattle.udp_runs.specs.Said.{MaySay};

use crate::ends::{Cut, end, end_without_net, settle};
use crate::lone::LoneNode;
use crate::outbox::Outbox;
use crate::process::member_at;
use crate::unsaid::Unsaid;
use crate::{Lines, NodeMachine, NodeManner};
use address::Address;
use application::Application;
use law_runners::runners_are_synchronous;
use std::alloc::Global;
use std::io::Write;
use trace_props::Event;
use udp_member::Runner;
use udp_net::{BindError, Settings};
use vsync_text::{MemberPlan, Status, append_event};

// It does nothing: its clause is what the type of an address says of it.
fn is_real(address: Address)
    ensures { IsAddress address }
{
    let _node = address.node().number();
    let _incarnation = address.incarnation();
}

// Writes that a member was started.
fn write_start<W: Write>(alloc: Global, member: Address, writer: &mut W) -> Result<(), Cut>
    ensures { WritesStart member (W.contents writer.old) (W.contents writer.new) result }
{
    let mut text = Vec::new(alloc);
    if append_event(&mut text, &Event::Started(member)).is_err() {
        return Err(Cut::Memory);
    }
    settle(writer, &mut text)
}

// Gives back the lines that were not sent, or were not delivered, where a node finds its group: those first that were sent first.
fn give_back<L: Lines>(finds: bool, unsaid: &Unsaid, outbox: &Outbox, lines: &mut L)
    ensures { L.came lines.new ≡ L.came lines.old }
{
    if finds {
        unsaid.give_back(lines);
        lines.back(outbox.waiting());
    }
}

// Starts the member of the plan over a net, and does what the plan says.
fn start<C: Application, L: Lines, M: NodeMachine, W: Write>(
    alloc: Global,
    settings: &Settings,
    plan: &MemberPlan<'_>,
    manner: NodeManner,
    lines: &mut L,
    machine: &mut M,
    net: M::Net,
    writer: &mut W,
) -> Result<(), Cut>
    ensures { ForSome (M.Net.log net) (λ l. l ≡ [])
        → StartsUp M.Net.log M.Net.failed (MaySay (option_copied plan.now.send) (L.came lines.old) (L.came lines.new) C.payload_within C.first_said) C.meaning C.line_of settings.now.group (M.gone machine.old) (M.gone machine.new) manner.speaks (way_of manner plan.now.contact) plan.now.address
        (W.contents writer.old) (W.contents writer.new) result }
{
    runners_are_synchronous::<M::Net, C>();
    is_real(plan.address);
    match write_start(alloc, plan.address, writer) {
        Ok(()) => (),
        Err(why) => return Err(why),
    }
    let member: Runner<M::Net, C> = match member_at(alloc, plan.address, net, settings) {
        Ok(member) => member,
        Err(_) => return Err(Cut::Memory),
    };
    let mut lone = LoneNode::new(alloc, member, manner, plan.send);
    let played = lone.play(settings, plan, lines, machine, writer);
    give_back(manner.finds, &lone.teller.unsaid, &lone.outbox, lines);
    machine.tell(&lone.tally());
    machine.close(plan.address, lone.member.into_net());
    played
}

/// Runs one node of the settings by itself, over its net, with `C` as its receiver: it makes a group or joins its contact's, and has its rounds, between
/// which it handles datagrams as they come. It sends what the lines say that come, each as soon as it may, and as the coordinator of a view what that sends first in it. It ends early where one is the byte 4 alone. Writes what happened to it
/// to a writer as it happens, and the line of its state at the end, or what is said as text (docs/CLI.md, "Nodes over UDP"). At its end the machine is told what
/// happened in numbers, and has its net back. Answers the exit status.
///
/// What it writes with status 0, unless it speaks, is the line of its start, a line for each thing that its channel told, in order, the line of its state, and a line for each
/// thing that it told then: with a crash, which it cannot tell, a history of one process, for every receiver and every net. In every other case it is a beginning of such a text.
/// Where the manner says so, lines stand between them that say how many messages of its view are stable, each as its channel knew it there.
///
/// It begins by the call of its plan: it makes a group, or asks the contact to be let into one; without a contact, where it finds its group, it begins with its rounds. With
/// status 0, where it is to leave it has left behind the line of its state, and else it did nothing there, unless it gave up its address.
///
/// It tells first: before its net is offered what its channel put out, all that had happened until then is written. Where that cannot be written, nothing more is offered; so
/// however it ends, unless it speaks, its text has the line of each thing that had happened when its net was offered something last.
///
/// Where the lines can be read no more it ends at once with status 5, and the machine is told why; a line that is too long, or says no payload, is left out. Where the settings do not list the node it writes `fault 0 50` alone, status 3; where the node can have no socket `fault 0 51` alone, status 5. Where memory is
/// refused, it writes the text so far and `# memory`.
pub fn run_member<C: Application, L: Lines, M: NodeMachine, W: Write>(
    alloc: Global,
    settings: &Settings,
    plan: &MemberPlan<'_>,
    manner: NodeManner,
    lines: &mut L,
    machine: &mut M,
    writer: &mut W,
) -> Status
    ensures runs { RunsMember M.Net.log M.Net.failed (MaySay (option_copied plan.now.send) (L.came lines.old) (L.came lines.new) C.payload_within C.first_said) C.meaning C.line_of settings.now.group (M.gone machine.old) (M.gone machine.new) manner.speaks (way_of manner plan.now.contact) plan.now.address
        (port_of plan.now.address.node settings.now.nodes) (W.contents writer.old) (W.contents writer.new) result }
    ensures first { manner.speaks ≡ false → WritesFirst M.Net.log M.Net.failed (MaySay (option_copied plan.now.send) (L.came lines.old) (L.came lines.new) C.payload_within C.first_said) C.meaning C.line_of settings.now.group (M.gone machine.old) (M.gone machine.new) (way_of manner plan.now.contact)
        plan.now.address (W.contents writer.old) (W.contents writer.new) }
{
    let Some(_) = settings.port(plan.address.node()) else {
        return end_without_net(alloc, writer, 0, BindError::Config);
    };
    match machine.net(plan.address.node()) {
        Ok(net) => {
            let written = start::<C, L, M, W>(
                alloc, settings, plan, manner, lines, machine, net, writer,
            );
            end(writer, written)
        }
        Err(error) => end_without_net(alloc, writer, 0, error),
    }
}
