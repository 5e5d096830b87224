ghost use Rattle.std.specs.Prelude.{◌≡◌, ◌≤◌, ◌&&◌, not, length, false, None, Some, IfOk};
ghost use Rattle.std.specs.List.{list_any};
ghost use Rattle.std.specs.Option.{IsSomeAnd, option_copied, option_and_then, option_map, option_map_or};
ghost use Rattle.trace_props.specs.Recorded.{IsRecordable};
ghost use Rattle.view.specs.View.{view_refusal};
ghost use Rattle.view_install.specs.Promises.{offered, is_accept};
ghost use Rattle.law_acts.specs.Cores.{idle, id_of, is_frozen};
ghost use Rattle.law_acts.specs.Acts.{proposed, others_of};
ghost use Rattle.membership.specs.MemberStates.{idle_member, is_connected, is_complete, is_sent_to, anew_past};
ghost use Rattle.flush.specs.Flushes.{is_awaited};
ghost use Rattle.member.specs.Running.{IsAlive};
ghost use Rattle.member.specs.Members.{core_of, refusal_of, is_unreadable};
ghost use Rattle.member.specs.Doing.{Does};
ghost use Rattle.member.specs.declared.input.Input.TheVariants as input;
ghost use Rattle.member.specs.Sources.{heard_of, output_of};
ghost use Rattle.member.specs.Handling.{Handled, HasActed, RefusesAs, EndsWithout, IsClosed, Replies, IsPrompt, Ignores};
ghost use Rattle.member.specs.Watching.{watched};
ghost use Rattle.member.specs.Proposals.{past_in};
ghost use Rattle.step_output.specs.Steps.{who};

use crate::handling::{
    create_group, join_group, leave_group, merge_hint, send_message, suspect, take_datagram, tick,
};
use crate::watching::watched_in;
use crate::{Error, Input, Taken};
use address::limits::STEP_EVENTS;
use address::{Address, ViewId};
use flush::Flush;
use membership::{MemberState, SentInstall, install_sent_to, is_complete};
use state_transfer::Receiver;
use std::alloc::{AllocError, Global};
use std::marker::Model;
use step_output::{Identity, Output, OwnedName};
use view::View;
use view_install::OfferAnswer;
use wire_values::{GroupName, Roster};

/// A member of a group, with the receiver that it gives messages and views. Contracts see its address, its group and, while it runs, what it keeps
/// (docs/PROTOCOL.md, "What a member keeps") and the core by which it decides (docs/PROOF.md, "Agreement over acts").
pub struct Member<R: Receiver> {
    identity: Identity,
    member_state: Option<MemberState<R>>,
}

impl<R: Receiver> Drop for Member<R> {
    fn drop(self) {
        let Member {
            identity: _,
            member_state: _,
        } = self;
    }
}

impl<R: Receiver> Model for Member<R> {
    ghost use Rattle.step_output.specs.Steps.{who_of};
    ghost use Rattle.member.specs.Running.{IsAlive};
    ghost use Rattle.member.specs.Members.{MemberModel};

    ghost Value = { MemberModel R };

    ghost view = { λ m. record { address = m.identity.address; group = m.identity.group; member_state = m.member_state } };

    ghost invariant = { λ m. IsAlive (who_of m.identity) m.member_state };
}

// What a flush proposes.
fn proposal_of(flush: &Flush) -> Roster
    requires list { view_refusal flush.now.proposal flush.now.members ≡ None }
    ensures { result ≡ proposed flush.now }
{
    Roster::new(flush.proposal(), flush.members().as_slice()).unwrap()
}

// How many of its list are another than this address.
fn others_listed(flush: &Flush, address: Address) -> u64
    ensures { result ≡ length (others_of address flush.now.members) }
{
    let mut others = 0;
    for member in flush.members().as_slice() {
        if *member != address {
            others += 1;
        }
    }
    others
}

// Whether an INSTALL among these was sent to an address.
fn was_sent(sent: &[SentInstall], member: &Address) -> bool
    ensures { result ≡ list_any (is_sent_to member.now) sent.now }
{
    install_sent_to(sent, member).is_some()
}

impl<R: Receiver> Member<R> {
    /// The member of an address in a group: idle, with this receiver, and nothing noted. Takes no memory; what it takes later is from `alloc`.
    pub fn new(alloc: Global, address: Address, group: GroupName<'_>, receiver: R) -> Member<R>
        ensures address { result.address ≡ address }
        ensures group { result.group ≡ group.entry }
        ensures member_state { IsSomeAnd result.member_state (idle_member address receiver) }
        ensures core { core_of result ≡ Some (idle receiver address) }
        ensures alive { IsAlive (who result.address result.group) result.member_state }
    {
        Member {
            identity: Identity {
                alloc,
                address,
                group: OwnedName::of(&group),
            },
            member_state: Some(MemberState::idle(alloc, address, receiver)),
        }
    }

    /// Its address.
    pub fn address(&self) -> Address
        ensures { result ≡ self.now.address }
    {
        self.identity.address
    }

    /// The name of its group.
    pub fn group(&self) -> GroupName<'_>
        ensures { result ≡ self.now.group }
    {
        self.identity.group.lent()
    }

    /// Its view; `None` where it has none yet, and after its end.
    pub fn view(&self) -> Option<&View>
        ensures { option_copied result ≡ option_and_then (λ c. c.view) (core_of self.now) }
    {
        match &self.member_state {
            None => None,
            Some(member_state) => member_state.view(),
        }
    }

    /// Whether it is in a view and has promised a later one: it may send nothing until that is installed.
    pub fn is_blocked(&self) -> bool
        ensures { result ≡ option_map_or (λ c. is_frozen c.view c.installed) (core_of self.now) false }
    {
        match &self.member_state {
            None => false,
            Some(member_state) => member_state.view_state.is_some()
                && !member_state.promise.is_installed(),
        }
    }

    /// The id of the view that it promised last (docs/PROTOCOL.md, "Promise"): that of its own view unless it is blocked. `None` before the first, and after its end.
    pub fn promised(&self) -> Option<ViewId>
        ensures { result ≡ option_and_then (λ c. id_of c.promise) (core_of self.now) }
    {
        match self.member_state.as_ref()?.promise.proposal() {
            None => None,
            Some(view) => Some(view.id()),
        }
    }

    /// How many messages of its view it knows to be stable: each member of the view has delivered them, the first of its order (docs/PROTOCOL.md, "Stability"). 0 when a view
    /// is installed, without a view, and after its end.
    pub fn stable(&self) -> u64
        ensures { result ≡ option_map_or (λ c. c.view_state.stable) (core_of self.now) 0 }
    {
        let Some(member_state) = &self.member_state else {
            return 0;
        };
        match &member_state.view_state {
            None => 0,
            Some(view_state) => view_state.stable().get(),
        }
    }

    /// Its receiver, as the steps left it; `None` after its end.
    pub fn receiver(&self) -> Option<&R>
        ensures { option_copied result ≡ option_map (λ c. c.state) (core_of self.now) }
    {
        match &self.member_state {
            None => None,
            Some(member_state) => Some(&member_state.receiver),
        }
    }

    /// What it proposes by a flush of its own, while that goes on; `None` where none does, and after its end. Takes no memory.
    pub fn proposal(&self) -> Option<Roster>
        ensures { result ≡ option_and_then (λ l. option_map proposed l.flush) self.now.member_state }
    {
        match &self.member_state {
            None => None,
            Some(member_state) => match &member_state.flush {
                None => None,
                Some(flush) => Some(proposal_of(flush)),
            },
        }
    }

    /// Whether a flush of its own goes on and waits for somebody's report.
    pub fn awaits_reports(&self) -> bool
        ensures { result ≡ option_map_or (λ l. option_map_or (λ f. not (is_complete f)) l.flush false) self.now.member_state false }
    {
        match &self.member_state {
            None => false,
            Some(member_state) => match &member_state.flush {
                None => false,
                Some(flush) => !is_complete(flush),
            },
        }
    }

    /// How many others stand on the list of a flush of its own, which it put a FLUSH out to; 0 without one.
    pub fn announced(&self) -> u64
        ensures { result ≡ option_map_or (λ l. option_map_or (λ f. length (others_of self.now.address f.members)) l.flush 0) self.now.member_state 0 }
    {
        match &self.member_state {
            None => 0,
            Some(member_state) => match &member_state.flush {
                None => 0,
                Some(flush) => others_listed(flush, self.identity.address),
            },
        }
    }

    /// Whether it is joining or in a view, and would accept a proposal: it stands in its list, has promised none that is greater, and did not install it.
    pub fn would_follow(&self, proposal: &Roster) -> bool
        ensures { result ≡ option_map_or (λ l. is_connected l && is_accept (offered proposal.now l.promise)) self.now.member_state false }
    {
        match &self.member_state {
            None => false,
            Some(member_state) => {
                member_state.is_connected()
                    && member_state.promise.answer_to(proposal) == OfferAnswer::Accept
            }
        }
    }

    /// Whether a flush of its own goes on and waits for this one's report.
    pub fn awaits_report(&self, member: &Address) -> bool
        ensures { result ≡ option_map_or (λ l. option_map_or (is_awaited member.now) l.flush false) self.now.member_state false }
    {
        match &self.member_state {
            None => false,
            Some(member_state) => match &member_state.flush {
                None => false,
                Some(flush) => { flush.members().contains(member) && !flush.has_reported(member) }
            },
        }
    }

    /// The counter of the greater proposal that it has promised, where it is joining or in a view: with that it answers BEHIND (docs/PROTOCOL.md, "Flush").
    /// `None` where it would follow the proposal or ignore it, and after its end.
    pub fn promised_past(&self, proposal: &Roster) -> Option<u64>
        ensures { result ≡ option_and_then (past_in proposal.now) self.now.member_state }
    {
        let member_state = self.member_state.as_ref()?;
        if !member_state.is_connected() {
            return None;
        }
        match member_state.promise.answer_to(proposal) {
            OfferAnswer::Accept | OfferAnswer::Ignore => None,
            OfferAnswer::Behind(counter) => Some(counter),
        }
    }

    /// What it would propose if it began its own flush anew past a counter, as by a BEHIND: its candidates, by a counter past this one, past what it promised and
    /// what it heard of. `None` without a flush of its own, where the counters are used up, and after its end. On an error for want of memory it is as before,
    /// and runs on.
    pub fn anew_past(&self, counter: u64) -> Result<Option<Roster>, AllocError>
        ensures { IfOk result (λ w. w ≡ option_and_then (λ l. anew_past self.now.address l counter) self.now.member_state) }
    {
        match &self.member_state {
            None => Ok(None),
            Some(member_state) => member_state.anew_past(&self.identity, counter),
        }
    }

    /// Whether it keeps an INSTALL of its view for an address: it made the view, and sends that one the INSTALL again whenever its REPORT comes again
    /// (docs/PROTOCOL.md, "Install"). False without a view that it made, and after its end.
    pub fn keeps_install(&self, member: &Address) -> bool
        ensures { result ≡ option_map_or (λ l. list_any (is_sent_to member.now) l.sent_installs.items) self.now.member_state false }
    {
        match &self.member_state {
            None => false,
            Some(member_state) => was_sent(member_state.sent_installs.as_slice(), member),
        }
    }

    /// Whose silence would hold up its view, so that a failure detector should watch them (docs/PROTOCOL.md, "Watched"). Nobody without a view, and
    /// after its end. On an error for want of memory it is as before, and runs on.
    pub fn watched(&self) -> Result<Vec<Address>, AllocError>
        ensures { IfOk result (λ list. list.items ≡ watched self.now) }
    {
        let Some(member_state) = &self.member_state else {
            return Ok(Vec::new(self.identity.alloc));
        };
        match member_state.view() {
            None => Ok(Vec::new(self.identity.alloc)),
            Some(view) => watched_in(member_state, &self.identity, view),
        }
    }

    /// It makes a group of itself alone: what `handle` does by `Input::Create`.
    pub fn create(&mut self) -> Result<Output, Error>
        ensures { Handled R.meaning self.old input.Create result self.new }
    {
        create_group(&mut self.member_state, &self.identity)
    }

    /// It asks a contact to be let in: what `handle` does by `Input::Join`.
    pub fn join(&mut self, contact: Address) -> Result<Output, Error>
        ensures { Handled R.meaning self.old (input.Join contact) result self.new }
    {
        join_group(&mut self.member_state, &self.identity, contact)
    }

    /// It sends a message: what `handle` does by `Input::Send`.
    pub fn send(&mut self, payload: &[u8]) -> Result<Output, Error>
        ensures { Handled R.meaning self.old (input.Send payload.entry) result self.new }
    {
        send_message(&mut self.member_state, &self.identity, payload)
    }

    /// Time passes: what `handle` does by `Input::Tick`.
    pub fn tick(&mut self) -> Result<Output, Error>
        ensures { Handled R.meaning self.old input.Tick result self.new }
    {
        tick(&mut self.member_state, &self.identity)
    }

    /// Its failure detector suspects an address: what `handle` does by `Input::Suspect`.
    pub fn suspect(&mut self, address: Address) -> Result<Output, Error>
        ensures { Handled R.meaning self.old (input.Suspect address) result self.new }
    {
        suspect(&mut self.member_state, &self.identity, address)
    }

    /// A member of another view may be at an address: what `handle` does by `Input::MergeHint`.
    pub fn merge_hint(&mut self, address: Address) -> Result<Output, Error>
        ensures { Handled R.meaning self.old (input.MergeHint address) result self.new }
    {
        merge_hint(&mut self.member_state, &self.identity, address)
    }

    /// It leaves its group, and ends: what `handle` does by `Input::Leave`.
    pub fn leave(&mut self) -> Result<Output, Error>
        ensures { Handled R.meaning self.old input.Leave result self.new }
    {
        leave_group(&mut self.member_state, &self.identity)
    }

    /// One step by a datagram: what `handle` does by `Input::Datagram` of these bytes, and what packet they spelled, where that is for it. They are read once.
    pub fn take(&mut self, bytes: &[u8]) -> Result<Taken, Error>
        ensures handled { Handled R.meaning self.old (input.Datagram bytes.entry) (output_of result) self.new }
        ensures heard { IfOk result (λ taken. taken.heard ≡ heard_of self.old.address self.old.group bytes.now) }
    {
        take_datagram(&mut self.member_state, &self.identity, bytes)
    }

    /// One step: an input comes in, packets and events come out, in order (docs/PROTOCOL.md, "The atomic step").
    ///
    /// Refused with 6 after its end, and before it with 1 to 5, 8 and 20 to 26 as the inputs say: the member is then as before. Refused with 7
    /// where memory was, and with 6 where it is handed an INSTALL by which it would enter a view and whose state its receiver cannot read: the
    /// member has then ended, and what the step would have put out is dropped.
    pub fn handle(&mut self, input: Input<'_>) -> Result<Output, Error>
        // It goes on by nothing but acts,
        ensures acted { IfOk result (λ out. HasActed R.meaning self.old input.entry out self.new) }
        // and refuses exactly where it must, unchanged;
        ensures refused { RefusesAs (refusal_of self.old input.entry) (is_unreadable R.meaning self.old input.entry) self.old result self.new }
        // want of memory ends it,
        ensures memory { EndsWithout self.old input.entry result self.new }
        // and after its end it is closed, or where it cannot read a state that it would take.
        ensures closed { IsClosed R.meaning self.old input.entry result }
        // What happens by each input, and whether the member is connected then;
        ensures reply { IfOk result (λ out. IsSomeAnd (core_of self.old) (λ c. Replies c input.entry out.events.items (core_of self.new))) }
        // a coordinator delivers its message at once, while the window has room;
        ensures prompt { IfOk result (λ out. IsSomeAnd (core_of self.old) (λ c. IsPrompt c input.entry out.events.items)) }
        // what it must do by each input and each kind of packet: what is put out, what happens, and what it keeps and notes then;
        ensures does { IfOk result (λ out. Does R.meaning self.old input.entry out self.new) }
        // how much happens at most, and that a trace takes it;
        ensures few { IfOk result (λ out. length out.events.items ≤ STEP_EVENTS) }
        ensures short { IfOk result (λ out. IsRecordable out.events.items) }
        // what it ignores leaves it as it was;
        ensures ignored { Ignores self.old input.entry result self.new }
        // and what holds of it between its calls holds: it is the coordinator of its view or another member of it, and its messages are in order.
        ensures alive { IsAlive (who self.new.address self.new.group) self.new.member_state }
        ensures address { self.new.address ≡ self.old.address }
        ensures group { self.new.group ≡ self.old.group }
    {
        // By its parts, since an enum that lends bytes gets no proof where it is passed on whole.
        match input {
            Input::Create => self.create(),
            Input::Join(contact) => self.join(contact),
            Input::Send(payload) => self.send(payload),
            Input::Datagram(bytes) => {
                let taken = self.take(bytes)?;
                Ok(taken.out)
            }
            Input::Tick => self.tick(),
            Input::Suspect(address) => self.suspect(address),
            Input::MergeHint(address) => self.merge_hint(address),
            Input::Leave => self.leave(),
        }
    }
}
