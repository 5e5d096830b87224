ghost use Rattle.std.specs.Prelude.{◌≡◌, ◌++◌, true, drop, length, Some, IfOk, OnOk};
ghost use Rattle.std.specs.List.{flat_map, AllByRecursion};
ghost use Rattle.address.specs.declared.limits.TheConstants.{WINDOW};
ghost use Rattle.wire_values.specs.Fields.{IsNumber, IsPlaced, placed_bytes};
ghost use Rattle.wire_values.specs.Lists.{is_report};
ghost use Rattle.law_acts.specs.Cores.{report_with};
ghost use Rattle.sequencer.specs.Forwards.{AreShort};
ghost use Rattle.traffic.specs.ViewStates.{fresh_in, view_core_of, view_of};

use crate::{Coordinator, Follower};
use address::Address;
use nak_stream::{Entry, Window};
use sequencer::Forwards;
use std::alloc::{AllocError, Global};
use trace_props::HandedBack;
use view::View;
use wire::put_entry;
use wire_values::{Count, Number};

/// What a member keeps of its view: as its coordinator, or as another of its members.
pub enum ViewState {
    Coordinator(Coordinator),
    Follower(Follower),
}

impl Drop for ViewState {
    fn drop(self) {
        match self {
            ViewState::Coordinator(_) => {}
            ViewState::Follower(_) => {}
        }
    }
}

fn put_placed(number: u64, entry: &Entry, out: &mut Vec<u8>) -> Result<(), AllocError>
    requires { IsNumber number }
    ensures bytes { OnOk result (out.new.items ≡ out.old.items ++ placed_bytes (number, entry.now)) }
    ensures placed { OnOk result (IsPlaced (number, entry.now)) }
{
    let Some(place) = Number::new(number) else {
        unreachable!();
    };
    put_entry(Some(place), &entry.lent(), out)
}

fn put_window(window: &Window, out: &mut Vec<u8>) -> Result<(), AllocError>
    ensures bytes { OnOk result (out.new.items ≡ out.old.items ++ flat_map placed_bytes window.now.held) }
    ensures placed { OnOk result (AllByRecursion IsPlaced window.now.held) }
{
    window.kept();
    let mut number = window.stable();
    for slot in window.slots() {
        number += 1;
        if let Some(entry) = slot {
            put_placed(number, entry, out)?;
        }
    }
    Ok(())
}

impl ViewState {
    /// What a member keeps of a new view: as its coordinator where it made the view. An error comes for want of memory.
    pub fn fresh(alloc: Global, me: &Address, view: View) -> Result<ViewState, AllocError>
        ensures { IfOk result (λ t. t ≡ fresh_in me.now view) }
    {
        if *me == view.id().creator() {
            Ok(ViewState::Coordinator(Coordinator::fresh(alloc, view)?))
        } else {
            Ok(ViewState::Follower(Follower::fresh(alloc, view)?))
        }
    }

    /// The view.
    pub fn view(&self) -> &View
        ensures { result.now ≡ view_of self.now }
    {
        match self {
            ViewState::Coordinator(coordinator) => &coordinator.view,
            ViewState::Follower(follower) => &follower.view,
        }
    }

    fn window(&self) -> &Window
        ensures stable { result.now.stable ≡ (view_core_of self.now).stable }
        ensures delivered { result.now.delivered ≡ (view_core_of self.now).delivered }
        ensures held { result.now.held ≡ (view_core_of self.now).held }
    {
        match self {
            ViewState::Coordinator(coordinator) => &coordinator.window,
            ViewState::Follower(follower) => &follower.window,
        }
    }

    fn forwards(&self) -> &Forwards
        ensures { result.now.rest ≡ (view_core_of self.now).outstanding }
    {
        match self {
            ViewState::Coordinator(coordinator) => &coordinator.forwards,
            ViewState::Follower(follower) => &follower.forwards,
        }
    }

    /// How many messages of the view are known to be stable.
    pub fn stable(&self) -> Count
        ensures { result ≡ (view_core_of self.now).stable }
    {
        let window = self.window();
        window.kept();
        let Some(stable) = Count::new(window.stable()) else {
            unreachable!();
        };
        stable
    }

    /// How many messages of the view were delivered here.
    pub fn delivered(&self) -> Count
        ensures { result ≡ (view_core_of self.now).delivered }
    {
        let window = self.window();
        window.kept();
        let Some(delivered) = Count::new(window.delivered()) else {
            unreachable!();
        };
        delivered
    }

    /// What holds of what a member keeps of its view: a report of it can be read back. For proofs; it reads nothing.
    pub fn kept(&self)
        ensures { is_report (report_with (Some (view_of self.now)) (view_core_of self.now)) ≡ true }
    {
        self.window().kept();
    }

    /// How many entries are held, at most `WINDOW`.
    pub fn held_count(&self) -> u8
        ensures { result ≡ length (view_core_of self.now).held }
    {
        self.window().held_count()
    }

    /// Appends each entry that is held, with its number before it, to a vector, as REPORT and INSTALL carry them. After an error for want of memory
    /// nothing is said of the vector.
    pub fn put_held(&self, out: &mut Vec<u8>) -> Result<(), AllocError>
        ensures bytes { OnOk result (out.new.items ≡ out.old.items ++ flat_map placed_bytes (view_core_of self.now).held) }
        ensures placed { OnOk result (AllByRecursion IsPlaced (view_core_of self.now).held) }
    {
        put_window(self.window(), out)
    }

    /// Its own messages that are handed back, where the oldest `past` of those that are outstanding are delivered first. They are copied. An error
    /// comes for want of memory.
    pub fn handed_back(&self, past: usize) -> Result<HandedBack, AllocError>
        ensures value { IfOk result (λ h. h ≡ drop past (view_core_of self.now).outstanding) }
        ensures short { IfOk result AreShort }
    {
        self.forwards().handed_back(past)
    }
}
