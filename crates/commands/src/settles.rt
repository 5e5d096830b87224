//! A script's run after which the changes of view complete that can, and calm views deliver everything.

ghost use Rattle.std.specs.Prelude.{◌≡◌, ◌≤◌, length, IfOk, OnOk, OnErr, MatchBool};
ghost use Rattle.world.specs.Worlds.{shown, IsLonger};
ghost use Rattle.vsync_text.specs.Outcomes.{Written};
ghost use Rattle.world.specs.Settled.{SettlesAt, DeliversAt};
ghost use Rattle.address.specs.declared.limits.TheConstants.{GREATEST_NODE};
ghost use Rattle.commands.specs.Settled.{AtEachNode, KeepsRules, RunsAndSettles, RunsInPart, padded, IsSettledText, SettlesScript};

use crate::scripts::{print_run, script_from};
use address::Node;
use state_transfer::Receiver;
use std::alloc::{AllocError, Global};
use std::io::{Read, Write};
use vsync_text::{AsWritten, Script, Status, end_in_memory};
use world::World;
use world_model::WorldEvent;

/// Completes the change of view of the member at the node of a number, if it can.
fn settle_at<R: Receiver>(world: &mut World<R>, number: u16) -> Result<(), AllocError>
    requires { 1 ≤ number }
    ensures ok { OnOk result (SettlesAt R.meaning number (shown world.old) (shown world.new)) }
    ensures longer { IsLonger world.old.history world.new.history }
    ensures rules { KeepsRules R.meaning (shown world.old) → KeepsRules R.meaning (shown world.new) }
{
    match Node::new(number) {
        None => Ok(()),
        Some(node) => {
            world.settle(node)?;
            Ok(())
        }
    }
}

/// Completes the changes of view that can complete, by the node whose member has begun them.
fn settle_everywhere<R: Receiver>(world: &mut World<R>) -> Result<(), AllocError>
    ensures ok { OnOk result (AtEachNode (SettlesAt R.meaning) (shown world.old) GREATEST_NODE (shown world.new)) }
    ensures longer { IsLonger world.old.history world.new.history }
    ensures rules { KeepsRules R.meaning (shown world.old) → KeepsRules R.meaning (shown world.new) }
{
    for before in 0..u16::MAX {
        settle_at(world, before + 1)?;
    }
    Ok(())
}

/// Delivers everything that was sent in the view that the member at a node coordinates, if that view is calm.
fn deliver_led<R: Receiver>(world: &mut World<R>, node: Node) -> Result<(), AllocError>
    ensures ok { OnOk result (DeliversAt R.meaning node (shown world.old) (shown world.new)) }
    ensures longer { IsLonger world.old.history world.new.history }
    ensures rules { KeepsRules R.meaning (shown world.old) → KeepsRules R.meaning (shown world.new) }
{
    if !world.coordinates(node) {
        return Ok(());
    }
    world.deliver_all(node)?;
    Ok(())
}

/// Does so at the node of a number.
fn deliver_at<R: Receiver>(world: &mut World<R>, number: u16) -> Result<(), AllocError>
    requires { 1 ≤ number }
    ensures ok { OnOk result (DeliversAt R.meaning number (shown world.old) (shown world.new)) }
    ensures longer { IsLonger world.old.history world.new.history }
    ensures rules { KeepsRules R.meaning (shown world.old) → KeepsRules R.meaning (shown world.new) }
{
    match Node::new(number) {
        None => Ok(()),
        Some(node) => deliver_led(world, node),
    }
}

/// Delivers everything that was sent in each calm view, in the order of the nodes of their coordinators.
fn deliver_everywhere<R: Receiver>(world: &mut World<R>) -> Result<(), AllocError>
    ensures ok { OnOk result (AtEachNode (DeliversAt R.meaning) (shown world.old) GREATEST_NODE (shown world.new)) }
    ensures longer { IsLonger world.old.history world.new.history }
    ensures rules { KeepsRules R.meaning (shown world.old) → KeepsRules R.meaning (shown world.new) }
{
    for before in 0..u16::MAX {
        deliver_at(world, before + 1)?;
    }
    Ok(())
}

/// Does so if it is asked for.
fn deliver_if<R: Receiver>(world: &mut World<R>, delivers: bool) -> Result<(), AllocError>
    ensures ok { OnOk result (MatchBool delivers (AtEachNode (DeliversAt R.meaning) (shown world.old) GREATEST_NODE (shown world.new)) (shown world.new ≡ shown world.old)) }
    ensures longer { IsLonger world.old.history world.new.history }
    ensures rules { KeepsRules R.meaning (shown world.old) → KeepsRules R.meaning (shown world.new) }
{
    if delivers {
        deliver_everywhere(world)
    } else {
        Ok(())
    }
}

/// Carries out events, completes the changes of view that can complete, and then, if that is asked for, delivers everything that was sent in each calm view.
fn run_and_settle<R: Receiver>(
    world: &mut World<R>,
    events: &[WorldEvent],
    delivers: bool,
) -> Result<(), AllocError>
    ensures ok { OnOk result (RunsAndSettles R.meaning delivers (shown world.old) events.now (shown world.new)) }
    ensures some { RunsInPart R.meaning (shown world.old) events.now (shown world.new) }
    ensures rules { KeepsRules R.meaning (shown world.new) }
{
    world.run(events)?;
    settle_everywhere(world)?;
    deliver_if(world, delivers)
}

/// The lines of so many events, the last of which have none.
fn padded(alloc: Global, lines: &[u64], count: usize) -> Result<Vec<u64>, AllocError>
    ensures { IfOk result (λ all. all.items ≡ padded lines.now count) }
{
    let mut all = Vec::from_slice(alloc, lines)?;
    for _ in lines.len()..count {
        all.push(0)?;
    }
    Ok(all)
}

/// Runs a script's events in a world, completes the changes of view that can complete, delivers everything in calm views if that is asked for, and writes what
/// happened.
fn play_settled<R: Receiver, W: Write>(
    alloc: Global,
    script: &Script,
    delivers: bool,
    writer: &mut W,
) -> Status
    ensures { Written (IsSettledText R.meaning delivers script.now) (W.contents writer.old) (W.contents writer.new) result }
{
    let mut world = World::<R>::new(alloc);
    let ran = run_and_settle(&mut world, script.events(), delivers).is_ok();
    match padded(alloc, script.lines(), world.events().len()) {
        Ok(lines) => print_run(alloc, &world, ran, lines.as_slice(), writer),
        Err(_) => end_in_memory(writer),
    }
}

/// Runs a script from a reader in a world whose receivers are `R`; then the change of view completes of each member that has begun one, or whose view others are
/// not in yet, by node, if it can (docs/GUARANTEES.md, "Views settle"). With `delivers`, everything that was sent in each calm view is delivered then, by the
/// node of its coordinator (docs/GUARANTEES.md, "A calm view delivers"). It writes what happened to a writer, as `run_script` does (docs/CLI.md, "Settling a
/// script"). Answers the exit status. Where memory is refused outside a member's step, and anywhere in a settling, it writes the lines so far and `# memory`.
pub fn settle_script<R: Receiver, I: Read, W: Write>(
    alloc: Global,
    delivers: bool,
    reader: &mut I,
    writer: &mut W,
) -> Status
    ensures { SettlesScript R.meaning delivers (I.remaining reader.old) (W.contents writer.old) (W.contents writer.new) result }
{
    match script_from::<AsWritten, I, W>(alloc, reader, writer) {
        Ok(script) => play_settled::<R, W>(alloc, &script, delivers, writer),
        Err(status) => status,
    }
}
