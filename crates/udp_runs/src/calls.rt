//! The calls of a channel that a script asks for.

ghost use Rattle.std.specs.Prelude.{◌≡◌, ℕ, List, [], true, IfOk, IfErr, IsOk};
ghost use Rattle.std.specs.Result.{result_err};
ghost use Rattle.member.specs.declared.input.Input.TheVariants as input;
ghost use Rattle.channel.specs.Calls.{CallsLent};
ghost use Rattle.law_runners.specs.Runs.{MakesNoOffer};
ghost use Rattle.udp_runs.specs.Calls.{IsAsked, IsCall, MakesCall};
ghost use Rattle.udp_runs.specs.Said.{IsThat, SaidBy, says_nothing};

use address::{Address, Bytes, Node};
use application::Application;
use channel::Error;
use std::alloc::{AllocError, Global};
use udp_member::Runner;
use udp_net::Net;
use world_model::WorldEvent;

/// A call of a channel.
#[derive(Clone, Copy)]
pub(crate) enum Call<'a> {
    /// Makes a group.
    Create,
    /// Asks a contact to be let into the group.
    Join(Address),
    /// Sends a payload.
    Send(&'a Bytes),
    /// Tells it that time passes.
    Tick,
    /// Tells it that the member of an address has failed.
    Suspect(Address),
    /// Tells it that a member of another view may be reached at an address.
    MergeHint(Address),
    /// Leaves the group.
    Leave,
}

/// What an event of a script asks for.
pub(crate) enum Asked<'a> {
    /// That the next member of a node starts.
    Start(Node),
    /// That the member of a node crashes.
    Crash(Node),
    /// A call of the member of a node.
    Call(Node, Call<'a>),
    /// Nothing: a delivery is left to the nets.
    Nothing,
}

/// What an event asks for.
pub(crate) fn asked_by(event: &WorldEvent) -> Asked<'_>
    ensures { IsAsked event.now result }
{
    match event {
        WorldEvent::Start(node) => Asked::Start(*node),
        WorldEvent::Crash(node) => Asked::Crash(*node),
        WorldEvent::Create(node) => Asked::Call(*node, Call::Create),
        WorldEvent::Join(node, contact) => Asked::Call(*node, Call::Join(*contact)),
        WorldEvent::Send(node, payload) => Asked::Call(*node, Call::Send(payload)),
        WorldEvent::Tick(node) => Asked::Call(*node, Call::Tick),
        WorldEvent::Suspect(node, address) => Asked::Call(*node, Call::Suspect(*address)),
        WorldEvent::MergeHint(node, address) => Asked::Call(*node, Call::MergeHint(*address)),
        WorldEvent::Leave(node) => Asked::Call(*node, Call::Leave),
        WorldEvent::Deliver(_) => Asked::Nothing,
    }
}

/// Sends a payload by a channel; answers the number of its message in the view. The outer error says that it ran out of memory before that.
pub(crate) fn send_numbered<N: Net, C: Application>(
    alloc: Global,
    runner: &mut Runner<N, C>,
    payload: &Bytes,
) -> Result<Result<u64, Error>, AllocError>
    ensures makes { IfOk result (λ answer. IsCall (CallsLent C.meaning input.Send payload.now) runner.old (result_err answer) runner.new) }
    ensures called { (group : List ℕ) → IfOk result (λ answer. MakesNoOffer N.log N.failed (IsThat runner.old.channel.stage payload.now) C.meaning group runner.old [] (result_err answer) runner.new) }
    ensures uncalled { IfErr result (λ _. runner.new ≡ runner.old) }
{
    let payload = Vec::from_slice(alloc, payload.as_slice())?;
    match runner.channel().send(payload) {
        Ok(number) => Ok(Ok(number)),
        Err((_, error)) => Ok(Err(error)),
    }
}

// The same, without the number.
fn send<N: Net, C: Application>(
    alloc: Global,
    runner: &mut Runner<N, C>,
    payload: &Bytes,
) -> Result<Result<(), Error>, AllocError>
    ensures makes { IfOk result (λ answer. IsCall (CallsLent C.meaning input.Send payload.now) runner.old (result_err answer) runner.new) }
    ensures called { (group : List ℕ) → IfOk result (λ answer. MakesNoOffer N.log N.failed (IsThat runner.old.channel.stage payload.now) C.meaning group runner.old [] (result_err answer) runner.new) }
    ensures uncalled { IfErr result (λ _. runner.new ≡ runner.old) }
{
    match send_numbered(alloc, runner, payload)? {
        Ok(_) => Ok(Ok(())),
        Err(error) => Ok(Err(error)),
    }
}

/// Does a call of the channel of a runner, in the group of this name. The outer error says that memory was refused before that.
pub(crate) fn do_call<N: Net, C: Application>(
    alloc: Global,
    runner: &mut Runner<N, C>,
    group: &[u8],
    call: &Call<'_>,
) -> Result<Result<(), Error>, AllocError>
    ensures makes { IfOk result (λ answer. MakesCall C.meaning group.now call.now runner.old (result_err answer) runner.new) }
    ensures called { IfOk result (λ answer. MakesNoOffer N.log N.failed (SaidBy runner.old.channel.stage call.now) C.meaning group.now runner.old [] (result_err answer) runner.new) }
    ensures uncalled { IfErr result (λ _. runner.new ≡ runner.old) }
    ensures plain { says_nothing call.now ≡ true → IsOk result }
{
    match call {
        Call::Create => Ok(runner.channel().connect_new(group)),
        Call::Join(contact) => Ok(runner.channel().connect_to(group, *contact)),
        Call::Send(payload) => send(alloc, runner, payload),
        Call::Tick => Ok(runner.channel().tick()),
        Call::Suspect(address) => Ok(runner.channel().suspect(*address)),
        Call::MergeHint(address) => Ok(runner.channel().merge_hint(*address)),
        Call::Leave => Ok(runner.channel().disconnect()),
    }
}
