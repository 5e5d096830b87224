ghost use Rattle.std.specs.Prelude.{◌≡◌, ◌≤◌, ◌++◌, ◌∷◌, [], List, true, Some, length, unwrap_or, option_and_then, OnOk, IfOk, if◌then◌else◌, is_some, IsSome, MatchBool};
ghost use Rattle.std.specs.HashMap.{get};
ghost use Rattle.address.specs.Ids.{Address, IsAddress, same_address, same_view_id};
ghost use Rattle.address.specs.declared.limits.TheConstants.{PAYLOAD};
ghost use Rattle.std.specs.Bool.{Decides};
ghost use Rattle.std.specs.Option.{ForSome};
ghost use Rattle.trace_props.specs.declared.event.Event.{Event};
ghost use Rattle.trace_props.specs.declared.event.Event.TheVariants.{Installed};
ghost use Rattle.trace_props.specs.Recorded.{IsShort};
ghost use Rattle.trace_props.specs.Agreeing.{MayEnter};
ghost use Rattle.trace_rules.specs.Copies.{EntersWith, KnowsStates};

use address::{Address, Bytes, ViewId};
use state_transfer::Receiver;
use std::alloc::{AllocError, Global};
use std::collections::HashMap;
use trace_props::{Event, Install};

/// An address that a program holds is one.
pub fn known_address(address: Address)
    ensures { IsAddress address }
{
    let _ = address;
}

// Puts a receiver for a member.
fn put<R: Receiver>(
    states: &mut HashMap<Address, R>,
    member: Address,
    state: R,
) -> Result<(), AllocError>
    ensures { OnOk result ((other : Address) → get same_address states.new other ≡ (if same_address member other then Some state else get same_address states.old other)) }
{
    states.insert(member, state)?;
    Ok(())
}

// Puts a receiver in the opening state for a member that has none.
fn begin<R: Receiver>(
    alloc: Global,
    states: &mut HashMap<Address, R>,
    member: Address,
) -> Result<(), AllocError>
    ensures has { OnOk result (is_some (get same_address states.new member) ≡ true) }
    ensures same { OnOk result ((other : Address) → unwrap_or (get same_address states.new other) R.meaning.opening ≡ unwrap_or (get same_address states.old other) R.meaning.opening) }
{
    if states.contains_key(&member) {
        return Ok(());
    }
    put(states, member, R::opening(alloc)?)
}

// Applies a message at a member.
fn receive<R: Receiver>(
    alloc: Global,
    states: &mut HashMap<Address, R>,
    member: Address,
    sender: Address,
    payload: &[u8],
) -> Result<(), AllocError>
    requires short { length payload.now ≤ PAYLOAD }
    ensures { OnOk result ((other : Address) → unwrap_or (get same_address states.new other) R.meaning.opening
        ≡ (if same_address member other then R.meaning.apply (unwrap_or (get same_address states.old member) R.meaning.opening) sender payload.now else unwrap_or (get same_address states.old other) R.meaning.opening)) }
{
    begin(alloc, states, member)?;
    match states.get_mut(&member) {
        Some(state) => state.receive(sender, payload),
        None => Ok(()),
    }
}

// Writes a member's state in place of other bytes.
fn write_state<R: Receiver>(
    alloc: Global,
    states: &HashMap<Address, R>,
    member: Address,
    bytes: &mut Vec<u8>,
) -> Result<(), AllocError>
    ensures { OnOk result (bytes.new.items ≡ R.meaning.encode (unwrap_or (get same_address states.now member) R.meaning.opening)) }
{
    bytes.clear();
    match states.get(&member) {
        Some(state) => state.get_state(bytes),
        None => R::opening(alloc)?.get_state(bytes),
    }
}

// Whether a view is entered with the bytes of its entry, which the coordinator writes.
fn enter_with(
    alloc: Global,
    entering: &mut HashMap<ViewId, Bytes>,
    view: ViewId,
    first: bool,
    bytes: &[u8],
) -> Result<bool, AllocError>
    ensures { IfOk result (λ ok. EntersWith (get same_view_id entering.old) (get same_view_id entering.new) view first bytes.now ok) }
{
    match entering.get(&view) {
        Some(entry) => Ok(entry.as_slice() == bytes),
        None => {
            if first {
                entering.insert(view, Bytes::from_slice(alloc, bytes)?)?;
                Ok(true)
            } else {
                Ok(false)
            }
        }
    }
}

// Takes a given state at a member, if there is one and it can be read.
fn take<R: Receiver>(
    alloc: Global,
    states: &mut HashMap<Address, R>,
    member: Address,
    given: &Option<Bytes>,
) -> Result<bool, AllocError>
    ensures read { IfOk result (λ taken. Decides taken (ForSome given.now (λ g. IsSome (R.meaning.decode g)))) }
    ensures takes { OnOk result ((other : Address) → unwrap_or (get same_address states.new other) R.meaning.opening
        ≡ (if same_address member other then unwrap_or (option_and_then R.meaning.decode given.now) (unwrap_or (get same_address states.old member) R.meaning.opening) else unwrap_or (get same_address states.old other) R.meaning.opening)) }
{
    match given {
        None => Ok(true),
        Some(bytes) => {
            begin(alloc, states, member)?;
            match states.get_mut(&member) {
                Some(state) => state.set_state(bytes.as_slice()),
                None => Ok(false),
            }
        }
    }
}

/// A receiver for each member, and the bytes with which each view was entered; beside them room to write a state in.
#[derive(Drop)]
pub struct States<R> {
    /// The receiver of each member that took a message or a state.
    pub states: HashMap<Address, R>,
    /// With which state, in bytes, each view was entered.
    pub entering: HashMap<ViewId, Bytes>,
    bytes: Vec<u8>,
}

/// Whether an install enters its view alike; takes its state.
fn enter<R: Receiver>(
    alloc: Global,
    states: &mut States<R>,
    install: &Install,
) -> Result<bool, AllocError>
    ensures { IfOk result (λ ok. (t : List Event) → KnowsStates R.meaning (get same_address states.old.states) (get same_view_id states.old.entering) t
        → MatchBool ok
        (MayEnter R.meaning t (Installed install.now)
        × KnowsStates R.meaning (get same_address states.new.states) (get same_view_id states.new.entering) (t ++ Installed install.now ∷ []))
        (MayEnter R.meaning t (Installed install.now) → ⊥)) }
{
    if !take(alloc, &mut states.states, install.member, &install.given)? {
        return Ok(false);
    }
    write_state(alloc, &states.states, install.member, &mut states.bytes)?;
    let view = install.view.id();
    let first = install.member == install.view.first();
    let alike = enter_with(
        alloc,
        &mut states.entering,
        view,
        first,
        states.bytes.as_slice(),
    )?;
    Ok(alike)
}

impl<R: Receiver> States<R> {
    /// Of nothing. Takes no memory.
    pub fn new(alloc: Global) -> States<R>
        ensures { KnowsStates R.meaning (get same_address result.states) (get same_view_id result.entering) [] }
    {
        States {
            states: HashMap::new(alloc),
            entering: HashMap::new(alloc),
            bytes: Vec::new(alloc),
        }
    }

    /// Goes one event further, and whether it keeps the rule on states.
    pub fn advance(&mut self, alloc: Global, event: &Event) -> Result<bool, AllocError>
        requires short { IsShort event.now }
        ensures { IfOk result (λ ok. (t : List Event) → KnowsStates R.meaning (get same_address self.old.states) (get same_view_id self.old.entering) t
            → MatchBool ok
            (MayEnter R.meaning t event.now
            × KnowsStates R.meaning (get same_address self.new.states) (get same_view_id self.new.entering) (t ++ event.now ∷ []))
            (MayEnter R.meaning t event.now → ⊥)) }
    {
        match event {
            Event::Delivered(delivery) => {
                let message = &delivery.message;
                known_address(message.sender);
                receive(
                    alloc,
                    &mut self.states,
                    delivery.member,
                    message.sender,
                    message.payload.as_slice(),
                )?;
                Ok(true)
            }
            Event::Installed(install) => enter(alloc, self, install.get()),
            _ => Ok(true),
        }
    }
}
