//! What stands between the events of a script's run, for its picture: what was refused, and the packets.

ghost use Rattle.std.specs.Prelude.{◌≡◌, ◌++◌, [], true, false, length, drop, option_and_then, slice_get, OnOk};
ghost use Rattle.std.specs.Option.{option_copied};
ghost use Rattle.std.specs.List.{cons_option};
ghost use Rattle.trace_props.specs.Places.{EachPlace};
ghost use Rattle.trace_props.specs.Synchrony.{IsWellOrdered, IsVirtuallySynchronous};
ghost use Rattle.law_processes.specs.Replicas.{ReplicasAgree};
ghost use Rattle.world_model.specs.Faithful.{IsFaithful};
ghost use Rattle.world_model.specs.Packets.{destination_of};
ghost use Rattle.world.specs.Worlds.{shown, no_world, WorldStep};
ghost use Rattle.commands.specs.Asides.{aside_at, refused_by, refused_at, refused_of, destination_in, site_of, handed_over, put_out, put_out_behind, put_out_at, refused_between, put_out_between, asides_between, line_at, HasAsides};

use address::limits::Refusal;
use address::{Address, Bytes, Node};
use state_transfer::Receiver;
use std::alloc::{AllocError, Global};
use std::slice;
use trace_drawing::{Aside, AsideKind};
use wire::decode;
use world::World;
use world_model::{Answer, Reply, Target, WorldEvent};

// What was at a node, and goes nowhere.
fn aside_at(place: usize, node: Node, kind: AsideKind) -> Aside
    ensures { result ≡ aside_at place node kind }
{
    Aside {
        place,
        node,
        towards: node,
        kind,
    }
}

// A refusal by whom an event concerns.
fn refused_by(line: u64, place: usize, refusal: Refusal, target: Target) -> Option<Aside>
    ensures { result ≡ refused_by line place refusal target }
{
    match target {
        Target::Packet(_) => None,
        Target::Member(node) => Some(aside_at(place, node, AsideKind::Refused { line, refusal })),
    }
}

// What was refused, unless it is that memory was.
fn refused_at(line: u64, place: usize, target: Target, answer: Answer) -> Option<Aside>
    ensures { result ≡ refused_at line place target answer }
{
    match answer {
        Answer::Done => None,
        Answer::Sent(_) => None,
        Answer::Refused(refusal) => {
            if refusal.number() == Refusal::Memory.number() {
                None
            } else {
                refused_by(line, place, refusal, target)
            }
        }
    }
}

// What was refused of the event of a line, whose reply stands behind so many.
fn refused_of(line: u64, event: &WorldEvent, replies: &[Reply], past: usize) -> Option<Aside>
    ensures { result ≡ option_and_then (refused_of line event.now) (slice_get replies.now past) }
{
    match replies.get(past) {
        None => None,
        Some(reply) => refused_at(line, reply.place, event.target(), reply.answer),
    }
}

// The node to whose member the packet goes that some bytes spell.
fn destination_of(bytes: &[u8]) -> Option<Address>
    ensures { result ≡ destination_of bytes.now }
{
    match decode(bytes) {
        Ok(packet) => Some(packet.destination),
        Err(_) => None,
    }
}

// The node to which the packet of a number goes.
fn destination_in<R: Receiver>(world: &World<R>, number: u64) -> Option<Node>
    ensures { result ≡ destination_in number world.now.history.pool }
{
    match world.packet(number) {
        None => None,
        Some(bytes) => match destination_of(bytes) {
            None => None,
            Some(member) => Some(member.node()),
        },
    }
}

// The node at which an event is carried out.
fn site_of<R: Receiver>(world: &World<R>, target: Target) -> Option<Node>
    ensures { result ≡ site_of target world.now.history.pool }
{
    match target {
        Target::Member(node) => Some(node),
        Target::Packet(number) => destination_in(world, number),
    }
}

// The packet of a number that goes to a node, where a member runs there.
fn handed_at<R: Receiver>(world: &World<R>, number: u64, node: Option<&Node>) -> Option<Aside>
    ensures { option_copied node.entry ≡ destination_in number world.now.history.pool → result ≡ handed_over (Target.Packet number) world.now.history }
{
    match node {
        None => None,
        Some(node) => match world.running(*node) {
            None => None,
            Some(member) => Some(aside_at(
                world.trace().events().len(),
                member.node(),
                AsideKind::HandedOver(number),
            )),
        },
    }
}

// The packet that an event hands over that is carried out at a node, where a member runs there.
fn handed_over<R: Receiver>(world: &World<R>, target: Target, site: Option<&Node>) -> Option<Aside>
    ensures { option_copied site.entry ≡ site_of target world.now.history.pool → result ≡ handed_over target world.now.history }
{
    match target {
        Target::Member(_) => None,
        Target::Packet(number) => handed_at(world, number, site),
    }
}

// Adds an aside, if there is one.
fn add(asides: &mut Vec<Aside>, aside: Option<Aside>) -> Result<(), AllocError>
    ensures { OnOk result (asides.new.items ≡ asides.old.items ++ cons_option aside []) }
{
    if let Some(aside) = aside {
        asides.push(aside)?;
    }
    Ok(())
}

// A packet that is put out at a node.
fn put_out(place: usize, node: Node, number: u64, bytes: &[u8]) -> Aside
    ensures { result ≡ put_out place node number bytes.now }
{
    let towards = match destination_of(bytes) {
        None => node,
        Some(member) => member.node(),
    };
    Aside {
        place,
        node,
        towards,
        kind: AsideKind::PutOut(number),
    }
}

// Adds the packets behind so many that are put out at a node.
fn add_put_out(
    asides: &mut Vec<Aside>,
    place: usize,
    node: Node,
    past: usize,
    packets: &[Bytes],
) -> Result<(), AllocError>
    ensures { OnOk result (asides.new.items ≡ asides.old.items ++ put_out_behind place node past (drop past packets.now)) }
{
    for index in past..packets.len() {
        let number = index as u64 + 1;
        asides.push(put_out(place, node, number, packets[index].as_slice()))?;
    }
    Ok(())
}

// Adds the packets behind so many that are put out, where it is known at which node.
fn add_put_out_at(
    asides: &mut Vec<Aside>,
    place: usize,
    site: Option<Node>,
    past: usize,
    packets: &[Bytes],
) -> Result<(), AllocError>
    ensures { OnOk result (asides.new.items ≡ asides.old.items ++ put_out_at place site past (drop past packets.now)) }
{
    match site {
        None => Ok(()),
        Some(node) => add_put_out(asides, place, node, past, packets),
    }
}

// The line of the event of an index.
fn line_at(lines: &[u64], index: usize) -> u64
    ensures { result ≡ line_at lines.now index }
{
    match lines.get(index) {
        None => 0,
        Some(line) => *line,
    }
}

// Carries out the event of a line, and adds what was refused.
fn play_alone<R: Receiver>(
    world: &mut World<R>,
    asides: &mut Vec<Aside>,
    line: u64,
    event: &WorldEvent,
) -> Result<(), AllocError>
    ensures step { OnOk result (WorldStep R.meaning (shown world.old) event.now (shown world.new)) }
    ensures sound { OnOk result (IsFaithful world.new.history × EachPlace IsWellOrdered world.new.history.trace
        × IsVirtuallySynchronous R.meaning world.new.history.trace × EachPlace (ReplicasAgree R.meaning) world.new.history.trace) }
    ensures asides { OnOk result (asides.new.items ≡ asides.old.items ++ asides_between false line event.now world.old.history world.new.history) }
{
    let replied = world.replies().len();
    world.run(slice::from_ref(event))?;
    add(asides, refused_of(line, event, world.replies(), replied))
}

// Carries out the event of a line, and adds what was refused, and, where they are asked for, which packets were handed over and put out.
fn play_event<R: Receiver>(
    world: &mut World<R>,
    asides: &mut Vec<Aside>,
    packets: bool,
    line: u64,
    event: &WorldEvent,
) -> Result<(), AllocError>
    ensures step { OnOk result (WorldStep R.meaning (shown world.old) event.now (shown world.new)) }
    ensures sound { OnOk result (IsFaithful world.new.history × EachPlace IsWellOrdered world.new.history.trace
        × IsVirtuallySynchronous R.meaning world.new.history.trace × EachPlace (ReplicasAgree R.meaning) world.new.history.trace) }
    ensures asides { OnOk result (asides.new.items ≡ asides.old.items ++ asides_between packets line event.now world.old.history world.new.history) }
{
    if !packets {
        return play_alone(world, asides, line, event);
    }
    let past = world.packets().len();
    let site = site_of(world, event.target());
    add(asides, handed_over(world, event.target(), site.as_ref()))?;
    play_alone(world, asides, line, event)?;
    add_put_out_at(
        asides,
        world.trace().events().len(),
        site,
        past,
        world.packets(),
    )
}

/// Carries out events in a new world, and adds what stands beside what happens: what is refused of the events of these lines, and, where they
/// are asked for, which packets are handed over and put out. On an error some events are carried out, and what stands beside them is added in part.
pub fn play_events<R: Receiver>(
    world: &mut World<R>,
    asides: &mut Vec<Aside>,
    packets: bool,
    lines: &[u64],
    events: &[WorldEvent],
) -> Result<(), AllocError>
    requires new { shown world.old ≡ no_world }
    requires none { asides.old.items ≡ [] }
    ensures asides { OnOk result (HasAsides R.meaning packets lines.now events.now (shown world.new) asides.new.items) }
    ensures faithful { OnOk result (IsFaithful world.new.history) }
    ensures ordered { OnOk result (EachPlace IsWellOrdered world.new.history.trace) }
    ensures synchronous { OnOk result (IsVirtuallySynchronous R.meaning world.new.history.trace) }
    ensures agreeing { OnOk result (EachPlace (ReplicasAgree R.meaning) world.new.history.trace) }
{
    world.run(&[])?;
    for (index, event) in events.iter().enumerate() {
        play_event(world, asides, packets, line_at(lines, index), event)?;
    }
    Ok(())
}
