ghost use Rattle.std.specs.Prelude.{◌≡◌, None};
ghost use Rattle.std.specs.Option.{option_copied};
ghost use Rattle.law_acts.specs.Cores.{is_open};
ghost use Rattle.membership.specs.MemberStates.{view_in, is_connected, idle_member};

use crate::{HeldChunks, SentInstall};
use address::{Address, Bytes};
use flush::Flush;
use next_view::ViewNotes;
use state_transfer::Receiver;
use std::alloc::Global;
use traffic::ViewState;
use view::View;
use view_install::Promise;

/// What a member keeps while it runs (docs/PROTOCOL.md, "What a member keeps").
pub struct MemberState<R: Receiver> {
    /// Whom it asked last to be let in.
    pub contact: Option<Address>,
    /// Its view, and what it keeps of the view's messages; `None` before its first view.
    pub view_state: Option<ViewState>,
    /// What it promised.
    pub promise: Promise,
    /// Its own flush, while it goes on.
    pub flush: Option<Flush>,
    /// The INSTALL packets that it put out for the others of its view, if it made that view.
    pub sent_installs: Vec<SentInstall>,
    /// The state that these give, where it goes in chunks.
    pub sent_state: Option<Bytes>,
    /// The chunks that it holds of the state that its promised proposal gives.
    pub chunks: HeldChunks,
    /// The receiver that it delivers to.
    pub receiver: R,
    /// What it notes for its next view.
    pub notes: ViewNotes,
}

impl<R: Receiver> Drop for MemberState<R> {
    fn drop(self) {
        let MemberState {
            contact: _,
            view_state: _,
            promise: _,
            flush: _,
            sent_installs: _,
            sent_state: _,
            chunks: _,
            receiver: _,
            notes: _,
        } = self;
    }
}

impl<R: Receiver> MemberState<R> {
    /// A member that has just started. Takes no memory.
    pub fn idle(alloc: Global, member: Address, receiver: R) -> MemberState<R>
        ensures { idle_member member receiver result }
    {
        MemberState {
            contact: None,
            view_state: None,
            promise: Promise::new(member),
            flush: None,
            sent_installs: Vec::new(alloc),
            sent_state: None,
            chunks: HeldChunks::new(alloc),
            receiver,
            notes: ViewNotes::new(alloc),
        }
    }

    /// Its view.
    pub fn view(&self) -> Option<&View>
        ensures { option_copied result ≡ view_in self.now.view_state }
    {
        match &self.view_state {
            None => None,
            Some(view_state) => Some(view_state.view()),
        }
    }

    /// Whether it has made a group or asked to be let into one.
    pub fn is_connected(&self) -> bool
        ensures { result ≡ is_connected self.now }
    {
        self.view_state.is_some() || self.contact.is_some()
    }

    /// Whether it is in a view that is the promised one.
    pub fn is_open(&self) -> bool
        ensures { result ≡ is_open (view_in self.now.view_state) self.now.promise.is_installed }
    {
        self.view_state.is_some() && self.promise.is_installed()
    }
}
