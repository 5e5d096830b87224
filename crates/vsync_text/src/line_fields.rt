//! The fields of a line, read from the left.

ghost use Rattle.std.specs.Prelude.{◌≡◌, ◌≤◌, length, Some, Ok, Err, IfOk, MatchOption, MatchResult};
ghost use Rattle.std.specs.Option.{option_copied};
ghost use Rattle.address.specs.declared.limits.TheConstants.{PAYLOAD};
ghost use Rattle.vsync_text.specs.declared.fault.Fault.TheVariants.{BadNumber};
ghost use Rattle.vsync_text.specs.declared.fault.Unheard.TheVariants as unheard;
ghost use Rattle.vsync_text.specs.AddressText.{address_of_text};
ghost use Rattle.vsync_text.specs.Spelling.{number_of_text, view_id_of_text, previous_of_text, payload_of_text, view_of_text, together_of_text, handed_back_of_text, given_of_text, AreShort};
ghost use Rattle.vsync_text.specs.Fields.{field_at, spelled_at, end_at};
ghost use Rattle.vsync_text.specs.Texts.{IsReadUnlessRefused};

use crate::fronts::{address_in_front, left_behind, number_in_front, view_id_in_front};
use crate::spelling::{given_in, handed_back_in, payload_in, previous_in, together_in, view_in};
use crate::{Fault, Unheard, first_field};
use address::limits::GREATEST_NUMBER;
use address::{Address, Bytes, ViewId};
use std::alloc::{AllocError, Global};
use std::marker::Model;
use trace_props::HandedBack;
use view::{Addresses, View};

/// What a field was read as: a bad number where it spells nothing.
fn spelled<T>(read: Result<Option<T>, AllocError>) -> Result<T, Unheard>
    ensures { MatchResult read (λ spelled. MatchOption spelled (result ≡ Err (unheard.Fault BadNumber)) (λ x. result ≡ Ok x)) (λ _. result ≡ Err unheard.Memory) }
{
    match read {
        Ok(Some(value)) => Ok(value),
        Ok(None) => Err(Unheard::Fault(Fault::BadNumber)),
        Err(_) => Err(Unheard::Memory),
    }
}

/// What is left of a line. Each call reads the next field, or answers why it cannot.
#[derive(Drop)]
pub(crate) struct Fields<'a> {
    rest: Option<&'a [u8]>,
}

impl<'a> Model for Fields<'a> {
    ghost use Rattle.std.specs.Prelude.{ℕ, List, Option};
    ghost use Rattle.std.specs.Option.{option_copied};

    ghost Value = { Option (List ℕ) };

    ghost view = { λ f. option_copied f.rest };
}

impl<'a> Fields<'a> {
    pub(crate) fn new(rest: Option<&'a [u8]>) -> Fields<'a>
        ensures { result ≡ option_copied rest.entry }
    {
        Fields { rest }
    }

    #[tactic(auto, unfolding(crate::specs::Fields::field_at))]
    fn field(&mut self) -> Result<&'a [u8], Unheard>
        ensures { IsReadUnlessRefused (λ x. (x.now, self.new)) result (field_at self.old) }
    {
        let Some(text) = self.rest else {
            return Err(Unheard::Fault(Fault::MissingField));
        };
        let (field, rest) = first_field(text);
        self.rest = rest;
        Ok(field)
    }

    #[tactic(auto, unfolding(crate::specs::Fields::end_at))]
    pub(crate) fn end(&self) -> Result<(), Unheard>
        ensures { IsReadUnlessRefused (λ x. x) result (end_at self.now) }
    {
        match self.rest {
            None => Ok(()),
            Some(_) => Err(Unheard::Fault(Fault::BadNumber)),
        }
    }

    #[tactic(auto, unfolding(crate::specs::Fields::spelled_at, crate::specs::Fields::field_at))]
    pub(crate) fn address(&mut self) -> Result<Address, Unheard>
        ensures { IsReadUnlessRefused (λ x. (x, self.new)) result (spelled_at address_of_text self.old) }
    {
        let Some(text) = self.rest else {
            return Err(Unheard::Fault(Fault::MissingField));
        };
        let Some((address, behind)) = address_in_front(text) else {
            return Err(Unheard::Fault(Fault::BadNumber));
        };
        let Some(left) = left_behind(behind) else {
            return Err(Unheard::Fault(Fault::BadNumber));
        };
        self.rest = left;
        Ok(address)
    }

    #[tactic(auto, unfolding(crate::specs::Fields::spelled_at, crate::specs::Fields::field_at))]
    pub(crate) fn view_id(&mut self) -> Result<ViewId, Unheard>
        ensures { IsReadUnlessRefused (λ x. (x, self.new)) result (spelled_at view_id_of_text self.old) }
    {
        let Some(text) = self.rest else {
            return Err(Unheard::Fault(Fault::MissingField));
        };
        let Some((view, behind)) = view_id_in_front(text) else {
            return Err(Unheard::Fault(Fault::BadNumber));
        };
        let Some(left) = left_behind(behind) else {
            return Err(Unheard::Fault(Fault::BadNumber));
        };
        self.rest = left;
        Ok(view)
    }

    #[tactic(auto, unfolding(crate::specs::Fields::spelled_at))]
    pub(crate) fn previous(&mut self) -> Result<Option<ViewId>, Unheard>
        ensures { IsReadUnlessRefused (λ x. (x, self.new)) result (spelled_at previous_of_text self.old) }
    {
        let field = self.field()?;
        spelled(Ok(previous_in(field)))
    }

    #[tactic(auto, unfolding(crate::specs::Fields::spelled_at, crate::specs::Fields::field_at))]
    pub(crate) fn number(&mut self) -> Result<u64, Unheard>
        ensures { IsReadUnlessRefused (λ x. (x, self.new)) result (spelled_at number_of_text self.old) }
    {
        let Some(text) = self.rest else {
            return Err(Unheard::Fault(Fault::MissingField));
        };
        let Some((number, behind)) = number_in_front(GREATEST_NUMBER, text) else {
            return Err(Unheard::Fault(Fault::BadNumber));
        };
        let Some(left) = left_behind(behind) else {
            return Err(Unheard::Fault(Fault::BadNumber));
        };
        self.rest = left;
        Ok(number)
    }

    #[tactic(auto, unfolding(crate::specs::Fields::spelled_at))]
    pub(crate) fn payload(&mut self, alloc: Global) -> Result<Bytes, Unheard>
        ensures gives { IsReadUnlessRefused (λ x. (x, self.new)) result (spelled_at payload_of_text self.old) }
        ensures short { IfOk result (λ x. length x ≤ PAYLOAD) }
    {
        let field = self.field()?;
        spelled(payload_in(alloc, field))
    }

    #[tactic(auto, unfolding(crate::specs::Fields::spelled_at))]
    pub(crate) fn view(&mut self, alloc: Global, id: ViewId) -> Result<View, Unheard>
        ensures { IsReadUnlessRefused (λ x. (x, self.new)) result (spelled_at (view_of_text id) self.old) }
    {
        let field = self.field()?;
        spelled(view_in(alloc, id, field))
    }

    #[tactic(auto, unfolding(crate::specs::Fields::spelled_at))]
    pub(crate) fn together(&mut self, alloc: Global) -> Result<Addresses, Unheard>
        ensures { IsReadUnlessRefused (λ x. (x, self.new)) result (spelled_at together_of_text self.old) }
    {
        let field = self.field()?;
        spelled(together_in(alloc, field))
    }

    #[tactic(auto, unfolding(crate::specs::Fields::spelled_at))]
    pub(crate) fn handed_back(&mut self, alloc: Global) -> Result<HandedBack, Unheard>
        ensures gives { IsReadUnlessRefused (λ x. (x, self.new)) result (spelled_at handed_back_of_text self.old) }
        ensures short { IfOk result AreShort }
    {
        let field = self.field()?;
        spelled(handed_back_in(alloc, field))
    }

    #[tactic(auto, unfolding(crate::specs::Fields::spelled_at))]
    pub(crate) fn given(&mut self, alloc: Global) -> Result<Option<Bytes>, Unheard>
        ensures { IsReadUnlessRefused (λ x. (x, self.new)) result (spelled_at given_of_text self.old) }
    {
        let field = self.field()?;
        spelled(given_in(alloc, field))
    }
}
