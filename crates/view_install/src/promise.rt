ghost use Rattle.std.specs.Prelude.{◌≡◌, None, false, if◌then◌else◌};
ghost use Rattle.std.specs.Option.{option_copied};
ghost use Rattle.view_install.specs.Promises.{PromiseModel, offered, after_offer, same_view, is_frozen, may_install, after_install};

use address::Address;
use std::cmp::Ordering;
use std::marker::Model;
use wire_values::Roster;

/// What the offer of a proposal is answered with.
#[derive(Clone, Copy, PartialEq, Eq)]
pub enum OfferAnswer {
    /// The proposal is promised from now on.
    Accept,
    /// A greater proposal was promised, which has this counter.
    Behind(u64),
    /// The member does not stand in the list, or has installed this view.
    Ignore,
}

/// What the install of a view is answered with.
#[derive(Clone, Copy)]
pub enum InstallAnswer {
    /// The view is installed from now on.
    Accept,
    /// The view is not the promised one, or is installed already.
    Ignore,
}

/// What a member promised: the greatest proposal of a view that it took, its id and its list, and whether that view is installed. It lies in
/// the value itself and takes no memory (docs/PROTOCOL.md, "Promise").
#[derive(Drop)]
pub struct Promise {
    member: Address,
    proposal: Option<Roster>,
    is_installed: bool,
}

impl Model for Promise {
    ghost use Rattle.view_install.specs.Promises.{PromiseModel};

    ghost Value = { PromiseModel };

    ghost view = { λ p. record { member = p.member; proposal = p.proposal; is_installed = p.is_installed } };
}

fn same_view(one: &Roster, other: &Roster) -> bool
    ensures { result ≡ same_view one.now other.now }
{
    one.id() == other.id() && one.members().as_slice() == other.members().as_slice()
}

impl Promise {
    /// The promise of a member that promised nothing yet.
    pub fn new(member: Address) -> Promise
        ensures { result ≡ record { member = member; proposal = None; is_installed = false } }
    {
        Promise {
            member,
            proposal: None,
            is_installed: false,
        }
    }

    /// The proposal that was promised last; `None` before the first.
    pub fn proposal(&self) -> Option<&Roster>
        ensures { option_copied result ≡ self.now.proposal }
    {
        self.proposal.as_ref()
    }

    /// Whether the proposal that was promised last is installed; false before the first.
    pub fn is_installed(&self) -> bool
        ensures { result ≡ self.now.is_installed }
    {
        self.is_installed
    }

    /// Whether a proposal was promised that is not installed.
    pub fn is_frozen(&self) -> bool
        ensures { result ≡ is_frozen self.now }
    {
        self.proposal.is_some() && !self.is_installed
    }

    /// Offers a proposal. Where the member does not stand in its list it is ignored. Else it is accepted where it is greater than the promised one
    /// or there is none, and where it is the promised one and not installed; it is ignored where it is the promised one and installed; and one
    /// that is less is answered with the counter of the promised one. A proposal that is accepted is promised, and nothing else changes
    /// the promise. Takes no memory.
    pub fn offer(&mut self, proposal: &Roster) -> OfferAnswer
        ensures answer { result ≡ offered proposal.now self.old }
        ensures promise { self.new ≡ after_offer proposal.now self.old }
    {
        let answer = self.answer_to(proposal);
        if answer == OfferAnswer::Accept {
            self.proposal = Some(proposal.copied());
            self.is_installed = false;
        }
        answer
    }

    /// What the offer of a proposal would be answered with. Takes no memory.
    pub fn answer_to(&self, proposal: &Roster) -> OfferAnswer
        ensures { result ≡ offered proposal.now self.now }
    {
        if !proposal.members().as_slice().contains(&self.member) {
            return OfferAnswer::Ignore;
        }
        let Some(promised) = &self.proposal else {
            return OfferAnswer::Accept;
        };
        match proposal.id().cmp(&promised.id()) {
            Ordering::Greater => OfferAnswer::Accept,
            Ordering::Equal if self.is_installed => OfferAnswer::Ignore,
            Ordering::Equal => OfferAnswer::Accept,
            Ordering::Less => OfferAnswer::Behind(promised.id().counter()),
        }
    }

    /// Installs a view: accepted exactly where its id is the promised one, its list is the promised list, and it was not installed, which it is
    /// from then on. Else nothing changes. Takes no memory.
    pub fn install(&mut self, view: &Roster) -> InstallAnswer
        ensures answer { result ≡ (if may_install view.now self.old then InstallAnswer.Accept else InstallAnswer.Ignore) }
        ensures promise { self.new ≡ after_install view.now self.old }
    {
        if !self.may_install(view) {
            return InstallAnswer::Ignore;
        }
        self.is_installed = true;
        InstallAnswer::Accept
    }

    fn may_install(&self, view: &Roster) -> bool
        ensures { result ≡ may_install view.now self.now }
    {
        match &self.proposal {
            None => false,
            Some(promised) => same_view(view, promised) && !self.is_installed,
        }
    }
}
