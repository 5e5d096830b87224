ghost use Rattle.std.specs.Prelude.{◌≡◌, ◌≤◌, ◌++◌, [], filter, length, IfOk, OnOk, OnErr, IfSome};
ghost use Rattle.view.specs.Members.{stands_in};
ghost use Rattle.suspicion.specs.Suspicion.{leads};
ghost use Rattle.next_view.specs.ViewNotes.{no_notes, settled, having_heard, suspecting, outdates, outdating};
ghost use Rattle.next_view.specs.Candidates.{unsuspected, all_candidates, candidates, has_room, next_counter, first_unsuspected, is_changed, is_broken, is_abandoned};
ghost use Rattle.next_view.specs.Noting.{is_known_here, noting, is_new, new_of, noting_view};

use crate::lists::{add_all, all_current, is_known, is_later, keep_others};
use address::Address;
use address::limits::{GREATEST_NUMBER, MEMBERS};
use std::alloc::{AllocError, Global};
use std::marker::Model;
use suspicion::Suspects;
use view::{Addresses, View};

/// What a member notes beside its view: the addresses that it suspects, those that asked to be let in, those of other views that may come in,
/// and the greatest counter of a proposal that it heard of, at first 0 (docs/PROTOCOL.md, "Candidates").
pub struct ViewNotes {
    suspects: Suspects,
    joiners: Vec<Address>,
    merging: Vec<Address>,
    heard: u64,
}

impl Drop for ViewNotes {
    fn drop(self) {
        let ViewNotes {
            suspects: _,
            joiners: _,
            merging: _,
            heard: _,
        } = self;
    }
}

impl Model for ViewNotes {
    ghost use Rattle.next_view.specs.ViewNotes.{NotesModel};

    ghost Value = { NotesModel };

    ghost view = { λ b. record { suspects = b.suspects; joiners = b.joiners.items; merging = b.merging.items; heard = b.heard } };
}

impl ViewNotes {
    /// Nothing is noted. Takes no memory.
    pub fn new(alloc: Global) -> ViewNotes
        ensures { result ≡ no_notes }
    {
        ViewNotes {
            suspects: Suspects::new(alloc),
            joiners: Vec::new(alloc),
            merging: Vec::new(alloc),
            heard: 0,
        }
    }

    /// Lets go of all notes, as a member does that goes into a view of another's making. Takes no memory.
    pub fn clear(&mut self)
        ensures { self.new ≡ no_notes }
    {
        self.suspects.clear();
        self.joiners.clear();
        self.merging.clear();
        self.heard = 0;
    }

    /// Goes on into a view of the member's own making: nobody is suspected any longer, nothing was heard of, and who is in the view is no longer noted.
    /// Takes no memory.
    pub fn settle(&mut self, view: &View)
        ensures { self.new ≡ settled view.now.members self.old }
    {
        self.suspects.clear();
        keep_others(view.members().as_slice(), &mut self.joiners);
        keep_others(view.members().as_slice(), &mut self.merging);
        self.heard = 0;
    }

    /// Hears of a counter, so that the next proposal's is greater. Takes no memory.
    pub fn hear(&mut self, counter: u64)
        ensures { self.new ≡ having_heard counter self.old }
    {
        self.heard = self.heard.max(counter);
    }

    /// Suspects an address, which is then no longer noted. An error for want of memory leaves the notes as they were.
    pub fn suspect(&mut self, address: Address) -> Result<(), AllocError>
        ensures ok { OnOk result (self.new ≡ suspecting address self.old) }
        ensures err { OnErr result (self.new ≡ self.old) }
    {
        self.suspects.add(address)?;
        keep_others(&[address], &mut self.joiners);
        keep_others(&[address], &mut self.merging);
        Ok(())
    }

    fn outdate_one(
        &mut self,
        me: &Address,
        joiner: &Address,
        member: Address,
    ) -> Result<(), AllocError>
        ensures { OnOk result (self.new ≡ outdates me.now joiner.now self.old member) }
    {
        if is_later(joiner, &member) && member != *me {
            self.suspect(member)?;
        }
        Ok(())
    }

    /// Suspects each member of the view of whose node the joiner is a later incarnation, but never `me`: a node runs one member at a time, so
    /// those have ended. After an error for want of memory some of them may be suspected.
    pub fn outdate(&mut self, me: &Address, view: &View, joiner: &Address) -> Result<(), AllocError>
        ensures { OnOk result (self.new ≡ outdating me.now view.now.members joiner.now self.old) }
    {
        for member in view.members().as_slice() {
            self.outdate_one(me, joiner, *member)?;
        }
        Ok(())
    }

    /// Whether an address is suspected. Takes no memory.
    pub fn is_suspected(&self, address: &Address) -> bool
        ensures { result ≡ stands_in address.now self.now.suspects }
    {
        self.suspects.has(address)
    }

    /// Whether an address is a member of the view that leads it: every member of a lesser rank is suspected. Takes no memory.
    pub fn leads(&self, view: &View, address: &Address) -> bool
        ensures { result ≡ leads self.now.suspects view.now.members address.now }
    {
        self.suspects.leads(view, address)
    }

    /// The member of the view of the lowest rank that is not suspected; `None` where all are. Takes no memory.
    pub fn first_unsuspected(&self, view: &View) -> Option<Address>
        ensures { result ≡ first_unsuspected self.now.suspects view.now.members }
    {
        let members = view.members().as_slice();
        for member in members {
            if !self.suspects.has(member) {
                return Some(*member);
            }
        }
        None
    }

    /// The counter of the member's next proposal: one more than the greater of the promised counter and what it heard of. `None` where that would be above `GREATEST_NUMBER`.
    /// Takes no memory.
    pub fn next_counter(&self, promised: u64) -> Option<u64>
        ensures value { result ≡ next_counter promised self.now }
        ensures in_range { IfSome result (λ n. (1 ≤ n) × (n ≤ GREATEST_NUMBER)) }
    {
        let greatest = promised.max(self.heard);
        if greatest < GREATEST_NUMBER {
            Some(greatest + 1)
        } else {
            None
        }
    }

    // Those of the view and those noted, each once, but who is suspected or of whose node a later incarnation is among them.
    fn all_candidates(
        &self,
        alloc: Global,
        me: &Address,
        view: &View,
    ) -> Result<Vec<Address>, AllocError>
        ensures { IfOk result (λ l. l.items ≡ all_candidates me.now view.now.members self.now) }
    {
        let mut found = Vec::new(alloc);
        add_all(&self.suspects, view.members().as_slice(), &mut found)?;
        add_all(&self.suspects, self.joiners.as_slice(), &mut found)?;
        add_all(&self.suspects, self.merging.as_slice(), &mut found)?;
        all_current(alloc, me, found.as_slice())
    }

    /// Who may be in the member's next view, at most `MEMBERS`: the view's members by rank, then the joiners, then those of other views, in order of arrival.
    /// None who is suspected, none twice, and none but `me` of whose node a later incarnation is among them.
    pub fn candidates(
        &self,
        alloc: Global,
        me: &Address,
        view: &View,
    ) -> Result<Addresses, AllocError>
        ensures { IfOk result (λ l. l ≡ candidates me.now view.now.members self.now) }
    {
        let mut left = self.all_candidates(alloc, me, view)?;
        left.truncate(MEMBERS);
        Ok(Addresses::from_vec(left))
    }

    /// How many could be in the member's next view, were there room: as many as the candidates would be without the bound of `MEMBERS`.
    pub fn candidate_count(
        &self,
        alloc: Global,
        me: &Address,
        view: &View,
    ) -> Result<usize, AllocError>
        ensures { IfOk result (λ n. n ≡ length (all_candidates me.now view.now.members self.now)) }
    {
        let all = self.all_candidates(alloc, me, view)?;
        Ok(all.len())
    }

    // Whether an address, or a later incarnation of its node, is in the view, in a list or noted.
    fn is_known_here(&self, view: &View, listed: &[Address], address: &Address) -> bool
        ensures { result ≡ is_known_here address.now view.now.members listed.now self.now }
    {
        is_known(address, view.members().as_slice())
            || is_known(address, listed)
            || is_known(address, self.joiners.as_slice())
            || is_known(address, self.merging.as_slice())
    }

    /// Notes an address that asks to be let in, last of the joiners. Changes nothing where it, or a later incarnation of its node, is in the view, in the list
    /// of the member's own flush (`listed`, empty without one) or noted, nor where the candidates would be more than `MEMBERS`.
    pub fn note_joiner(
        &mut self,
        alloc: Global,
        me: &Address,
        view: &View,
        listed: &[Address],
        joiner: Address,
    ) -> Result<(), AllocError>
        ensures { OnOk result (self.new ≡ noting me.now view.now.members listed.now joiner self.old) }
    {
        if self.is_known_here(view, listed, &joiner) {
            return Ok(());
        }
        self.joiners.push(joiner)?;
        if self.candidate_count(alloc, me, view)? > MEMBERS {
            let _ = self.joiners.pop();
        }
        Ok(())
    }

    fn is_new(&self, view: &View, address: &Address) -> bool
        ensures { result ≡ is_new view.now.members self.now address.now }
    {
        let is_here = view.contains(address) | self.suspects.has(address);
        let is_noted = self.joiners.contains(address) | self.merging.contains(address);
        !(is_here | is_noted)
    }

    fn new_of(
        &self,
        alloc: Global,
        view: &View,
        list: &[Address],
    ) -> Result<Vec<Address>, AllocError>
        ensures { IfOk result (λ l. l.items ≡ new_of view.now.members list.now self.now) }
    {
        let mut new = Vec::new(alloc);
        for address in list {
            if self.is_new(view, address) {
                new.push(*address)?;
            }
        }
        Ok(new)
    }

    /// Notes those of another view who are neither in the member's own view nor suspected nor noted, in order, and hears of the other view's counter.
    /// Changes nothing where there are none, nor where the candidates would be more than `MEMBERS`: so all of them are noted, or none.
    pub fn note_view(
        &mut self,
        alloc: Global,
        me: &Address,
        view: &View,
        other: &View,
    ) -> Result<(), AllocError>
        ensures { OnOk result (self.new ≡ noting_view me.now view.now.members other.now self.old) }
    {
        let new = self.new_of(alloc, view, other.members().as_slice())?;
        if new.is_empty() {
            return Ok(());
        }
        let before = self.merging.len();
        self.merging.extend_from_slice(new.as_slice())?;
        if self.candidate_count(alloc, me, view)? <= MEMBERS {
            self.hear(other.id().counter());
        } else {
            self.merging.truncate(before);
        }
        Ok(())
    }

    /// Whether the candidates are not the members of the view: then a member that leads it and is not blocked begins a flush.
    pub fn is_changed(&self, alloc: Global, me: &Address, view: &View) -> Result<bool, AllocError>
        ensures { IfOk result (λ b. b ≡ is_changed me.now view.now.members self.now) }
    {
        let candidates = self.candidates(alloc, me, view)?;
        Ok(candidates.as_slice() != view.members().as_slice())
    }

    /// Whether one of a list is suspected: then a member whose own flush has this list begins it anew, since that one will not report.
    /// Takes no memory.
    pub fn is_broken(&self, listed: &[Address]) -> bool
        ensures { result ≡ is_broken listed.now self.now }
    {
        for member in listed {
            if self.suspects.has(member) {
                return true;
            }
        }
        false
    }

    /// Whether the creator of a proposal is suspected: then a member that promised the proposal, and leads its view, begins a flush of its own.
    /// Takes no memory.
    pub fn is_abandoned(&self, creator: &Address) -> bool
        ensures { result ≡ is_abandoned creator.now self.now }
    {
        self.suspects.has(creator)
    }
}
