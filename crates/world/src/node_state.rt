//! What runs at a node: nothing yet, nothing any more, or a member.

ghost use Rattle.std.specs.Prelude.{◌≡◌, ◌≤◌, ◌++◌, ◌∷◌, [], ℕ, List, Some, length, IfOk};
ghost use Rattle.trace_props.specs.declared.event.Event.TheVariants.{Crashed};
ghost use Rattle.trace_props.specs.Recorded.{IsRecordable};
ghost use Rattle.address.specs.declared.limits.TheConstants.{STEP_EVENTS};
ghost use Rattle.member.specs.Handling.{Handled};
ghost use Rattle.member.specs.declared.input.Input.{Input};
ghost use Rattle.member.specs.Members.{MemberModel, leaves};
ghost use Rattle.world_model.specs.declared.Answer.TheVariants.{Refused};
ghost use Rattle.address.specs.declared.refusal.Refusal.TheVariants.{Memory};
ghost use Rattle.world_model.specs.Packets.{packet_numbered};
ghost use Rattle.world.specs.declared.node_state.NodeState.TheVariants.{Ended, Running};
ghost use Rattle.world.specs.NodeStates.{answer_for, answer_to};
ghost use Rattle.world.specs.Outputs.{Fits};
ghost use Rattle.world.specs.Turns.{about, Hands, CallGives, Begins, StartGives, CrashGives, Acts, HandsPacket};

use crate::pool::Pool;
use address::limits::Refusal;
use address::{Address, Node};
use member::{Error, Input, Member};
use state_transfer::Receiver;
use std::alloc::Global;
use step_output::Output;
use trace_props::{Event, Trace};
use wire_values::GroupName;
use world_model::{Answer, WorldEvent};

/// What runs at a node.
pub enum NodeState<R: Receiver> {
    Vacant,
    Ended(Address),
    Running(Member<R>),
}

impl<R: Receiver> Drop for NodeState<R> {
    fn drop(self) {
        match self {
            NodeState::Vacant => {}
            NodeState::Ended(_) => {}
            NodeState::Running(_) => {}
        }
    }
}

/// What an event is answered whose input the member refused. The bytes of a pool spell packets, so none is refused for them.
fn refused(error: Error) -> Answer
    ensures { result ≡ answer_for error }
{
    match error {
        Error::Refused(refusal) => Answer::Refused(refusal),
        Error::Wire(_) => Answer::Done,
    }
}

/// What an event is answered by which this happened: a message that was sent comes first, and has its number.
fn answered(events: &[Event]) -> Answer
    ensures { result ≡ answer_to events.now }
{
    match events.first() {
        Some(Event::Sent(sending)) => Answer::Sent(sending.message.number),
        _ => Answer::Done,
    }
}

/// Adds to a trace what happened in a step.
fn record_all(trace: &mut Trace, events: Vec<Event>)
    requires short { IsRecordable events.items }
    requires room { length events.items ≤ trace.old.room }
    ensures { trace.new.events ≡ trace.old.events ++ events.items }
{
    for event in events {
        trace.record(event);
    }
}

/// Hands an input to a member.
fn handled<R: Receiver>(member: &mut Member<R>, input: &Input<'_>) -> Result<Output, Error>
    ensures { Handled R.meaning member.old input.now result member.new }
{
    // Taken apart and put together again: an enum that lends bytes is not passed on whole.
    match input {
        Input::Create => member.handle(Input::Create),
        Input::Join(contact) => member.handle(Input::Join(*contact)),
        Input::Send(payload) => member.handle(Input::Send(payload)),
        Input::Datagram(bytes) => member.handle(Input::Datagram(bytes)),
        Input::Tick => member.handle(Input::Tick),
        Input::Suspect(address) => member.handle(Input::Suspect(*address)),
        Input::MergeHint(address) => member.handle(Input::MergeHint(*address)),
        Input::Leave => member.handle(Input::Leave),
    }
}

/// Whether a member ends by an input that it takes.
fn leaves(input: &Input<'_>) -> bool
    ensures { result ≡ leaves input.now }
{
    matches!(input, Input::Leave)
}

/// Nothing runs at a node any more.
fn end<R: Receiver>(node_state: &mut NodeState<R>, last: Address)
    ensures { node_state.new ≡ Ended last }
{
    *node_state = NodeState::Ended(last);
}

/// Its member has crashed, since memory was refused.
fn lose<R: Receiver>(node_state: &mut NodeState<R>, trace: &mut Trace, address: Address) -> Answer
    requires room { 1 ≤ trace.old.room }
    ensures answer { result ≡ Refused Memory }
    ensures node_state { node_state.new ≡ Ended address }
    ensures trace { trace.new.events ≡ trace.old.events ++ Crashed address ∷ [] }
{
    end(node_state, address);
    trace.record(Event::Crashed(address));
    Answer::Refused(Refusal::Memory)
}

/// What a call of the member at a node answered: what it puts out joins the pool, what happened joins the trace, and the member runs on or has left. Where memory
/// was refused it has crashed, and with 6 it has ended.
fn settle<R: Receiver>(
    node_state: &mut NodeState<R>,
    trace: &mut Trace,
    pool: &mut Pool,
    address: Address,
    leaving: bool,
    called: Result<Output, Error>,
) -> Answer
    requires room { STEP_EVENTS ≤ trace.old.room }
    requires fits { IfOk called Fits }
    ensures { (input : Input) (m left : MemberModel R) → leaves input ≡ leaving → node_state.old ≡ Running left → CallGives address input called left result (about (Running m) trace.old.events pool.old) (about node_state.new trace.new.events pool.new) }
{
    match called {
        Ok(Output { packets, events }) => {
            if pool.put_all(packets).is_err() {
                return lose(node_state, trace, address);
            }
            let answer = answered(&events);
            record_all(trace, events);
            if leaving {
                end(node_state, address);
            }
            answer
        }
        Err(Error::Refused(Refusal::Memory)) => lose(node_state, trace, address),
        // It was to enter a view with a state that cannot be read, which no packet of a world says.
        Err(Error::Refused(Refusal::Closed)) => {
            end(node_state, address);
            Answer::Refused(Refusal::Closed)
        }
        Err(error) => refused(error),
    }
}

/// Hands an input to the member at a node: refused with 1 where none ever ran there, with 6 where it has ended, and else as the member
/// refuses; with 6 it has ended. Where memory is refused the member has crashed.
fn hand<R: Receiver>(
    node_state: &mut NodeState<R>,
    trace: &mut Trace,
    pool: &mut Pool,
    input: &Input<'_>,
) -> Answer
    requires room { STEP_EVENTS ≤ trace.old.room }
    ensures { Hands R.meaning input.now result (about node_state.old trace.old.events pool.old) (about node_state.new trace.new.events pool.new) }
{
    match node_state {
        NodeState::Vacant => Answer::Refused(Refusal::NotConnected),
        NodeState::Ended(_) => Answer::Refused(Refusal::Closed),
        NodeState::Running(member) => {
            let address = member.address();
            let called = handled(member, input);
            settle(node_state, trace, pool, address, leaves(input), called)
        }
    }
}

/// Starts the node's next incarnation. Refused with 5 where a member runs, and with 8 after the last incarnation; with 7 where
/// memory is refused: then the member has started and crashed.
fn start<R: Receiver>(
    alloc: Global,
    node_state: &mut NodeState<R>,
    trace: &mut Trace,
    node: Node,
) -> Answer
    requires room { 2 ≤ trace.old.room }
    ensures { StartGives R.meaning node result node_state.old trace.old.events node_state.new trace.new.events }
{
    let next = match node_state {
        NodeState::Running(_) => return Answer::Refused(Refusal::AlreadyConnected),
        NodeState::Vacant => Address::first_at(node),
        NodeState::Ended(last) => {
            let Some(next) = last.next_incarnation() else {
                return Answer::Refused(Refusal::Exhausted);
            };
            next
        }
    };
    started(alloc, node_state, trace, next)
}

fn started<R: Receiver>(
    alloc: Global,
    node_state: &mut NodeState<R>,
    trace: &mut Trace,
    address: Address,
) -> Answer
    requires room { 2 ≤ trace.old.room }
    ensures { Begins R.meaning address result trace.old.events node_state.new trace.new.events }
{
    trace.record(Event::Started(address));
    match R::opening(alloc) {
        Ok(receiver) => {
            let group = GroupName::new(b"world").unwrap();
            *node_state = NodeState::Running(Member::new(alloc, address, group, receiver));
            Answer::Done
        }
        Err(_) => lose(node_state, trace, address),
    }
}

/// The member of the node crashes: refused with 1 and 6.
fn crash<R: Receiver>(node_state: &mut NodeState<R>, trace: &mut Trace) -> Answer
    requires room { 1 ≤ trace.old.room }
    ensures { CrashGives result node_state.old trace.old.events node_state.new trace.new.events }
{
    match node_state {
        NodeState::Vacant => Answer::Refused(Refusal::NotConnected),
        NodeState::Ended(_) => Answer::Refused(Refusal::Closed),
        NodeState::Running(member) => {
            let address = member.address();
            end(node_state, address);
            trace.record(Event::Crashed(address));
            Answer::Done
        }
    }
}

/// Hands the packet of a number to the member that runs here, if one does: the bytes as they lie in the pool, to which what the member puts out is
/// added afterwards. Where memory is refused the member has crashed.
pub fn hear<R: Receiver>(
    node_state: &mut NodeState<R>,
    trace: &mut Trace,
    pool: &mut Pool,
    number: u64,
) -> Answer
    requires room { STEP_EVENTS ≤ trace.old.room }
    ensures { (bytes : List ℕ) → packet_numbered number pool.old ≡ Some bytes → HandsPacket R.meaning bytes result (about node_state.old trace.old.events pool.old) (about node_state.new trace.new.events pool.new) }
{
    match node_state {
        NodeState::Vacant | NodeState::Ended(_) => Answer::Done,
        NodeState::Running(member) => {
            let address = member.address();
            let Some(bytes) = pool.packet(number) else {
                return Answer::Done;
            };
            let called = handled(member, &Input::Datagram(bytes));
            settle(node_state, trace, pool, address, false, called)
        }
    }
}

/// Carries out an event at its node. A delivery has none, and does nothing here.
pub fn act<R: Receiver>(
    alloc: Global,
    node_state: &mut NodeState<R>,
    trace: &mut Trace,
    pool: &mut Pool,
    event: &WorldEvent,
) -> Answer
    requires room { STEP_EVENTS ≤ trace.old.room }
    ensures { Acts R.meaning event.now result (about node_state.old trace.old.events pool.old) (about node_state.new trace.new.events pool.new) }
{
    match event {
        WorldEvent::Start(node) => start(alloc, node_state, trace, *node),
        WorldEvent::Create(_) => hand(node_state, trace, pool, &Input::Create),
        WorldEvent::Join(_, contact) => hand(node_state, trace, pool, &Input::Join(*contact)),
        WorldEvent::Send(_, payload) => hand(
            node_state,
            trace,
            pool,
            &Input::Send(payload.as_slice()),
        ),
        WorldEvent::Deliver(_) => Answer::Done,
        WorldEvent::Tick(_) => hand(node_state, trace, pool, &Input::Tick),
        WorldEvent::Suspect(_, address) => hand(node_state, trace, pool, &Input::Suspect(*address)),
        WorldEvent::MergeHint(_, address) => hand(
            node_state,
            trace,
            pool,
            &Input::MergeHint(*address),
        ),
        WorldEvent::Leave(_) => hand(node_state, trace, pool, &Input::Leave),
        WorldEvent::Crash(_) => crash(node_state, trace),
    }
}
