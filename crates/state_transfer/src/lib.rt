//! The application above a channel: what it is given, and the laws that make its copies agree.
#![tactic(auto)]

ghost use Rattle.std.specs.Prelude.{◌≡◌, ◌≤◌, ◌++◌, length, List, ℕ, Some, true, false, IfOk, OnOk, MatchOption};
ghost use Rattle.address.specs.Ids.{Address, IsAddress};
ghost use Rattle.state_transfer.specs.Meanings.{Meaning};
ghost use Rattle.address.specs.declared.limits.TheConstants.{PAYLOAD, STATE};

use address::Address;
use std::alloc::{AllocError, Global};
use view::View;

/// What an application does with the messages, views and states that its member gives it
/// (docs/GUARANTEES.md, "The receiver's laws"). Its meaning is a state: two copies that were given the same are equal.
///
/// After an `Err`, which means that memory was refused, nothing is said of the receiver: its member has ended.
pub trait Receiver: Drop + Sized {
    /// What it means: its state at the beginning, what a message makes of a state, states as bytes and back, and the states that it can
    /// be in.
    ghost meaning: { Meaning Self };

    /// A receiver in the opening state.
    fn opening(alloc: Global) -> Result<Self, AllocError>
        ensures { IfOk result (λ r. r ≡ meaning.opening) };

    /// Applies a message of at most `PAYLOAD` bytes.
    fn receive(&mut self, from: Address, payload: &[u8]) -> Result<(), AllocError>
        ensures { OnOk result (length payload.now ≤ PAYLOAD → self.new ≡ meaning.apply self.old from payload.now) };

    /// Its member installed this view, after a given state was taken. Leaves the state.
    fn view_accepted(&mut self, view: &View)
        ensures { self.new ≡ self.old };

    /// Its member is blocked until the next view. Leaves the state.
    fn blocked(&mut self)
        ensures { self.new ≡ self.old };

    /// Appends its state as bytes, at most `STATE` of them.
    fn get_state(&self, state: &mut Vec<u8>) -> Result<(), AllocError>
        ensures appends { OnOk result (state.new.items ≡ state.old.items ++ meaning.encode self.now) }
        ensures short { OnOk result (length (meaning.encode self.now) ≤ STATE) };

    /// Takes the state that bytes stand for, and says whether they stand for one. On false its state is as before.
    fn set_state(&mut self, state: &[u8]) -> Result<bool, AllocError>
        ensures { IfOk result (λ taken. MatchOption (meaning.decode state.now)
            ((taken ≡ false) × (self.new ≡ self.old))
            (λ s. (taken ≡ true) × (self.new ≡ s))) };

    /// What holds of every receiver, for proofs: its state is one that a receiver can be in. It does nothing: its body is empty, or
    /// names a field of a type with an invariant.
    fn kept(&self)
        ensures { meaning.is_state self.now };

    ghost opens: { meaning.is_state meaning.opening };

    ghost applies: { (s : Self) (from : Address) (payload : List ℕ) → meaning.is_state s → IsAddress from → length payload ≤ PAYLOAD → meaning.is_state (meaning.apply s from payload) };

    ghost decodes: { (bytes : List ℕ) (s : Self) → meaning.decode bytes ≡ Some s → meaning.is_state s };

    ghost reads_back: { (s : Self) → meaning.is_state s → meaning.decode (meaning.encode s) ≡ Some s };

    ghost is_short: { (s : Self) → meaning.is_state s → length (meaning.encode s) ≤ STATE };
}
