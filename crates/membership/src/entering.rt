//! A member goes into the promised view of another, by its INSTALL.

ghost use Rattle.std.specs.Prelude.{◌≡◌, ◌∷◌, [], true, false, Err, OnOk, IfOk, Some, None, unwrap_or};
ghost use Rattle.std.specs.Option.{option_and_then};
ghost use Rattle.law_acts.specs.Acts.{deliveries};
ghost use Rattle.law_acts.specs.Cores.{applied};
ghost use Rattle.law_acts.specs.Decisions.{is_readable, is_fitting};
ghost use Rattle.membership.specs.HeldChunks.{given_in};
ghost use Rattle.sequencer.specs.Forwards.{AreShort};
ghost use Rattle.trace_props.specs.declared.event.Event.TheVariants as event;
ghost use Rattle.step_output.specs.Outputs.{Grows};
ghost use Rattle.membership.specs.declared.stop.Stop.TheVariants as stop;
ghost use Rattle.membership.specs.MemberStates.{view_in, view_core_in};
ghost use Rattle.membership.specs.Installs.{own_of, lacking, left_in, arriving};
ghost use Rattle.membership.specs.Changes.{Arrives, Enters};
ghost use Rattle.step_output.specs.Steps.{who_of};
ghost use Rattle.membership.specs.InSteps.{in_step};

use crate::finishing::deliver_behind;
use crate::{MemberState, Stop};
use address::Bytes;
use state_transfer::Receiver;
use std::alloc::{AllocError, Global};
use step_output::{Identity, Output};
use trace_props::{BoxedInstall, Event, HandedBack, Install as Installed};
use traffic::ViewState;
use view::{Addresses, View};
use wire_values::{Entry, GivenState, Install, Items, Roster};

// The entries of an INSTALL.
fn all_of<'a>(alloc: Global, items: Items<'a>) -> Result<Vec<Entry<'a>>, AllocError>
    ensures { IfOk result (λ v. v.items ≡ items.entry) }
{
    let mut left = items;
    let mut entries = Vec::new(alloc);
    while let Some(entry) = left.take_first() {
        entries.push(entry)?;
    }
    Ok(entries)
}

// Whether an INSTALL begins at most where the member is; for one without a view, whether it delivers nothing and gives a state.
pub(crate) fn is_fitting(view_state: &Option<ViewState>, install: &Install<'_>) -> bool
    ensures { result ≡ is_fitting (view_in view_state.now) (view_core_in view_state.now).delivered install.now }
{
    match view_state {
        None => {
            let gives_some = !matches!(install.state(), GivenState::Nothing);
            (install.base().get() == 0) & (install.items().len() == 0) & gives_some
        }
        Some(view_state) => install.base() <= view_state.delivered(),
    }
}

// Takes a given state, if there is one.
fn take_state<R: Receiver>(receiver: &mut R, given: &Option<Bytes>) -> Result<(), Stop>
    ensures state { OnOk result (receiver.new ≡ unwrap_or (option_and_then R.meaning.decode given.now) receiver.old) }
    ensures readable { OnOk result (is_readable R.meaning given.now ≡ true) }
    ensures unreadable { result ≡ Err stop.Unreadable → is_readable R.meaning given.now ≡ false }
{
    match given {
        None => Ok(()),
        Some(state) => {
            if receiver.set_state(state.as_slice())? {
                Ok(())
            } else {
                Err(Stop::Unreadable)
            }
        }
    }
}

// Delivers what a member lacks of its view by an INSTALL, if it has one. The answer is how many of these are its own.
fn deliver_last<R: Receiver>(
    who: &Identity,
    view_state: &Option<ViewState>,
    install: &Install<'_>,
    receiver: &mut R,
    out: &mut Output,
) -> Result<usize, AllocError>
    ensures state { OnOk result (receiver.new ≡ applied R.meaning receiver.old (lacking view_state.now install.now)) }
    ensures out { OnOk result (Grows who.now.group out.old out.new [] (deliveries who.now.address (view_in view_state.now) (lacking view_state.now install.now))) }
    ensures own { IfOk result (λ n. n ≡ own_of who.now.address (lacking view_state.now install.now)) }
{
    match view_state {
        None => Ok(0),
        Some(view_state) => {
            let entries = all_of(who.alloc, install.items())?;
            let (base, entries) = (install.base(), entries.as_slice());
            deliver_behind(who, view_state, base, entries, receiver, out)
        }
    }
}

/// The view that a packet names.
pub fn view_from(alloc: Global, roster: &Roster) -> Result<View, AllocError>
    ensures { IfOk result (λ v. v ≡ roster.now) }
{
    let members = Vec::from_slice(alloc, roster.members().as_slice())?;
    Ok(View::new(roster.id(), Addresses::from_vec(members)).unwrap())
}

// What is left of the own messages when so many more of them were delivered.
fn left_of(
    alloc: Global,
    view_state: &Option<ViewState>,
    own: usize,
) -> Result<HandedBack, AllocError>
    ensures value { IfOk result (λ h. h ≡ left_in view_state.now own) }
    ensures short { IfOk result AreShort }
{
    match view_state {
        None => Ok(HandedBack::nothing(alloc)),
        Some(view_state) => view_state.handed_back(own),
    }
}

/// Installs a view: the event is recorded. After an error for want of memory nothing is said of the output.
pub(crate) fn install_view(
    who: &Identity,
    install: Installed,
    out: &mut Output,
) -> Result<(), AllocError>
    requires short { AreShort install.handed_back }
    ensures { OnOk result (Grows who.now.group out.old out.new [] (event.Installed install ∷ [])) }
{
    let install = BoxedInstall::new(who.alloc, install)?;
    who.record(Event::Installed(install), out)
}

// Installs the view of an INSTALL.
fn install_promised(
    who: &Identity,
    view_state: &Option<ViewState>,
    install: &Install<'_>,
    given: Option<Bytes>,
    own: usize,
    out: &mut Output,
) -> Result<(), AllocError>
    ensures { OnOk result (Grows who.now.group out.old out.new [] (arriving who.now.address view_state.now install.now given own ∷ [])) }
{
    let previous = match view_state {
        None => None,
        Some(view_state) => Some(view_state.view().id()),
    };
    let together = Vec::from_slice(who.alloc, install.together().as_slice())?;
    let install = Installed {
        member: who.address,
        previous,
        view: view_from(who.alloc, install.view())?,
        together: Addresses::from_vec(together),
        handed_back: left_of(who.alloc, view_state, own)?,
        given,
    };
    install_view(who, install, out)
}

impl<R: Receiver> MemberState<R> {
    // Goes into the promised view of another, by its INSTALL.
    pub(crate) fn enter(
        &mut self,
        who: &Identity,
        install: &Install<'_>,
        out: &mut Output,
    ) -> Result<(), Stop>
        ensures enters { OnOk result (Enters R.meaning (who_of who.now) self.old.view_state install.now (given_in install.now.state self.old.chunks) (in_step self.old out.old) (in_step self.new out.new)) }
        ensures readable { OnOk result (is_readable R.meaning (given_in install.now.state self.old.chunks) ≡ true) }
        ensures unreadable { result ≡ Err stop.Unreadable → is_readable R.meaning (given_in install.now.state self.old.chunks) ≡ false }
    {
        let given = self.chunks.given(who.alloc, install.state())?;
        self.chunks.clear();
        let own = deliver_last(who, &self.view_state, install, &mut self.receiver, out)?;
        take_state(&mut self.receiver, &given)?;
        self.arrive(who, install, given, own, out)?;
        Ok(())
    }

    // It installs the view, and begins there anew.
    fn arrive(
        &mut self,
        who: &Identity,
        install: &Install<'_>,
        given: Option<Bytes>,
        own: usize,
        out: &mut Output,
    ) -> Result<(), AllocError>
        ensures { OnOk result (Arrives (who_of who.now) self.old.view_state install.now given own (in_step self.old out.old) (in_step self.new out.new)) }
    {
        install_promised(who, &self.view_state, install, given, own, out)?;
        let view = view_from(who.alloc, install.view())?;
        let _ = self.promise.install(install.view());
        self.notes.clear();
        self.receiver.view_accepted(&view);
        self.view_state = Some(ViewState::fresh(who.alloc, &who.address, view)?);
        self.flush = None;
        self.sent_installs = Vec::new(who.alloc);
        self.sent_state = None;
        self.chunks.clear();
        Ok(())
    }
}
