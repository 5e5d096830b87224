//! A process: a member that was started, and its runner.

ghost use Rattle.std.specs.Prelude.{◌≡◌, ◌++◌, ◌∷◌, [], ℕ, List, false, map, take, is_some, IfOk, OnOk, OnErr};
ghost use Rattle.std.specs.List.{concat};
ghost use Rattle.std.specs.Option.{option_map_or};
ghost use Rattle.std.specs.Result.{result_err};
ghost use Rattle.channel.specs.Errors.{is_end};
ghost use Rattle.channel.specs.Channels.{receiver_in};
ghost use Rattle.udp_net.specs.Logs.{Log};
ghost use Rattle.udp_member.specs.Rounds.{Rounds};
ghost use Rattle.law_runners.specs.Runs.{new_channel};
ghost use Rattle.law_runners.specs.Systems.{has_ended};
ghost use Rattle.udp_runs.specs.Answers.{IsOffered, TakesTurn, answer_lines, quiet, turn_lines};
ghost use Rattle.udp_runs.specs.Calls.{MakesCall};
ghost use Rattle.udp_runs.specs.Machines.{GivesBack};
ghost use Rattle.udp_runs.specs.Texts.{Happens, texts_of};
ghost use Rattle.udp_runs.specs.Processes.{all_told, net_of, state_text};

use crate::NodeMachine;
use crate::calls::{Call, do_call};
use address::limits::Refusal;
use address::{Address, Node};
use application::{Application, append_line};
use channel::{Channel, Error};
use std::alloc::{AllocError, Global};
use trace_props::Event;
use udp_member::Runner;
use udp_net::{Net, Settings};
use vsync_text::{append_event, append_refusal};

/// A process: the address of a member, and the runner of its channel. Each call appends to a text what happened by it.
#[derive(Drop)]
pub(crate) struct Process<N: Net, C: Application> {
    /// The address of the member.
    pub address: Address,
    /// The runner of its channel.
    pub runner: Runner<N, C>,
}

// The nodes of the settings.
fn nodes_of(alloc: Global, settings: &Settings) -> Result<Vec<Node>, AllocError> {
    let mut nodes = Vec::with_capacity(alloc, settings.nodes().len())?;
    for place in settings.nodes() {
        nodes.push(place.node)?;
    }
    Ok(nodes)
}

/// The member of an address over a net, not connected yet, which may seek others at the nodes of the settings.
pub(crate) fn member_at<N: Net, C: Application>(
    alloc: Global,
    address: Address,
    net: N,
    settings: &Settings,
) -> Result<Runner<N, C>, AllocError>
    ensures channel { IfOk result (λ runner. runner.channel ≡ new_channel C.meaning address) }
    ensures net { IfOk result (λ runner. runner.net ≡ net) }
{
    let channel = Channel::new(alloc, address, C::opening(alloc)?);
    let nodes = nodes_of(alloc, settings)?;
    let silent = u32::from(settings.silent());
    Runner::new(alloc, net, channel, nodes.as_slice(), silent)
}

/// Appends the lines of the events of a channel that were not taken yet.
pub(crate) fn append_events<C: Application>(
    text: &mut Vec<u8>,
    channel: &mut Channel<C>,
) -> Result<(), AllocError>
    ensures text { OnOk result (text.new.items ≡ text.old.items ++ concat (texts_of (map Happens channel.old.happened))) }
    ensures told { OnOk result (channel.new ≡ all_told channel.old) }
    ensures err { OnErr result ((count : ℕ) × (text.new.items ≡ text.old.items ++ concat (take count (texts_of (map Happens channel.old.happened))))) }
{
    while let Some(event) = channel.happened() {
        append_event(text, &event)?;
    }
    Ok(())
}

/// Appends the line of the member of a channel, which shows its state, unless it has ended.
pub(crate) fn append_state_of<C: Application>(
    text: &mut Vec<u8>,
    member: &Address,
    channel: &Channel<C>,
) -> Result<(), AllocError>
    ensures text { OnOk result (text.new.items ≡ text.old.items ++ option_map_or (C.line_of member.now) (receiver_in channel.now.stage) []) }
    ensures err { OnErr result (text.new.items ≡ text.old.items) }
{
    match channel.receiver() {
        Some(state) => append_line(text, member, state),
        None => Ok(()),
    }
}

// Whether a channel has ended that is answered so.
fn is_end(error: &Error) -> bool
    ensures { result ≡ is_end error.now }
{
    matches!(error, Error::Refused(Refusal::Memory | Refusal::Closed))
}

// Appends the answer of a call, unless it was taken: that the event of the line is refused, or that its member has crashed, where its channel has ended by it.
fn append_answer(
    text: &mut Vec<u8>,
    line: u64,
    member: Address,
    answer: Result<(), Error>,
) -> Result<(), AllocError>
    ensures text { OnOk result (text.new.items ≡ text.old.items ++ concat (texts_of (answer_lines member line (result_err answer)))) }
    ensures err { OnErr result (text.new.items ≡ text.old.items) }
{
    match answer {
        Ok(()) => Ok(()),
        Err(error) => {
            if is_end(&error) {
                append_event(text, &Event::Crashed(member))
            } else {
                append_refusal(text, line, error.number())
            }
        }
    }
}

impl<N: Net, C: Application> Process<N, C> {
    /// Does the call of a line, in the group of this name. Answers whether it runs on: not where it has left, and not where it was refused memory, by which it has crashed.
    pub(crate) fn call(
        &mut self,
        alloc: Global,
        group: &[u8],
        line: u64,
        call: &Call<'_>,
        text: &mut Vec<u8>,
    ) -> Result<bool, AllocError>
        ensures turn { has_ended self.old.runner.channel.stage ≡ false
            → TakesTurn N.log N.failed C.meaning group.now (MakesCall C.meaning group.now call.now) line self.old self.new text.old.items text.new.items result }
        ensures address { self.new.address ≡ self.old.address }
        ensures runs { IfOk result (λ runs_on. runs_on ≡ is_some (receiver_in self.new.runner.channel.stage)) }
    {
        let answer = do_call(alloc, &mut self.runner, group, call)?;
        self.end_turn(line, answer, text)
    }

    /// A round. Answers whether it runs on: not where it was refused memory, or given a state that it cannot read, by which it has crashed.
    pub(crate) fn round(&mut self, text: &mut Vec<u8>) -> Result<bool, AllocError>
        ensures turn { (group : List ℕ) → has_ended self.old.runner.channel.stage ≡ false
            → TakesTurn N.log N.failed C.meaning group (Rounds N.log N.failed C.meaning) 0 self.old self.new text.old.items text.new.items result }
        ensures address { self.new.address ≡ self.old.address }
        ensures runs { IfOk result (λ runs_on. runs_on ≡ is_some (receiver_in self.new.runner.channel.stage)) }
    {
        let answer = self.runner.round();
        self.end_turn(0, answer, text)
    }

    /// Appends the line of its state.
    pub(crate) fn append_state(&mut self, text: &mut Vec<u8>) -> Result<(), AllocError>
        ensures text { OnOk result (text.new.items ≡ text.old.items ++ state_text C.line_of self.old) }
        ensures err { OnErr result (text.new.items ≡ text.old.items) }
        ensures same { self.new ≡ self.old }
    {
        append_state_of(text, &self.address, self.runner.channel())
    }

    /// Lets it go, and gives its net back.
    pub(crate) fn close<M: NodeMachine<Net = N>>(self, machine: &mut M)
        ensures { GivesBack (M.gone machine.old) (net_of self ∷ []) (M.gone machine.new) }
    {
        machine.close(self.address, self.runner.into_net());
    }

    // Ends a turn: appends what is told and the answer of the call, and then offers what the channel put out. Answers whether its channel has not ended.
    fn end_turn(
        &mut self,
        line: u64,
        answer: Result<(), Error>,
        text: &mut Vec<u8>,
    ) -> Result<bool, AllocError>
        ensures says { OnOk result (text.new.items ≡ text.old.items ++ concat (texts_of (turn_lines self.old.address line (result_err answer) self.old.runner))) }
        ensures err { OnErr result ((count : ℕ) × (text.new.items ≡ text.old.items ++ concat (take count (texts_of (turn_lines self.old.address line (result_err answer) self.old.runner))))) }
        ensures offers { OnOk result (IsOffered N.log N.failed (quiet self.old.runner) self.new.runner) }
        ensures address { self.new.address ≡ self.old.address }
        ensures runs { IfOk result (λ runs_on. runs_on ≡ is_some (receiver_in self.new.runner.channel.stage)) }
    {
        append_events(text, self.runner.channel())?;
        append_answer(text, line, self.address, answer)?;
        self.runner.offer();
        Ok(self.runner.channel().receiver().is_some())
    }
}
