ghost use Rattle.std.specs.Prelude.{◌≡◌, true};
ghost use Rattle.std.specs.Option.{SomeIff};
ghost use Rattle.wire_values.specs.Reading.{IsRead};
ghost use Rattle.wire_values.specs.Lists.{is_in_order, is_install, install_at};

use crate::entries::{Items, items_at};
use crate::error::WireError;
use crate::fields::Reader;
use crate::members::{Members, Roster, rest_after, together_at, view_at};
use crate::numbers::count_at;
use crate::state::state_at;
use crate::{Count, GivenState};
use address::Address;
use address::limits::{GREATEST_NUMBER, MEMBERS, WINDOW};
use std::marker::Model;

/// A view to be installed: who of its members come from the same view, the messages of that one from the
/// base on, in lent bytes, and the state, if one is given.
#[derive(Drop)]
pub struct Install<'a> {
    view: Roster,
    together: Members,
    base: Count,
    items: Items<'a>,
    state: GivenState<'a>,
}

impl<'a> Model for Install<'a> {
    ghost use Rattle.std.specs.Prelude.{◌≡◌, true};
    ghost use Rattle.wire_values.specs.Values.{Install};
    ghost use Rattle.wire_values.specs.Lists.{is_install};

    ghost Value = { Install };

    ghost view = { λ i. record { view = i.view; together = i.together; base = i.base; items = i.items; state = i.state } };

    ghost invariant = { λ i. is_install (record { view = i.view; together = i.together; base = i.base; items = i.items; state = i.state }) ≡ true };
}

// Whether addresses are some of the members, in their order.
fn is_in_order(together: &[Address], members: &[Address]) -> bool
    ensures { result ≡ is_in_order together.now members.now }
{
    match together.split_first() {
        None => true,
        Some((first, others)) => match rest_after(first, members) {
            None => false,
            Some(rest) => is_in_order(others, rest),
        },
    }
}

impl<'a> Install<'a> {
    /// The install of a view. `None` where it is none: nobody goes together, or they are not some of the
    /// members in their order, or there are more entries than the window has, or they pass the greatest number.
    pub fn new(
        view: Roster,
        together: Members,
        base: Count,
        items: Items<'a>,
        state: GivenState<'a>,
    ) -> Option<Install<'a>>
        ensures { SomeIff result (is_install (record { view = view; together = together; base = base; items = items.entry; state = state.entry }) ≡ true) (record { view = view; together = together; base = base; items = items.entry; state = state.entry }) }
    {
        let count = items.len() as u64;
        let few = (count <= WINDOW) & (base.get() + count <= GREATEST_NUMBER);
        let fits = few & (1 <= together.len());
        if !fits || !is_in_order(together.as_slice(), view.members().as_slice()) {
            return None;
        }
        Some(Install {
            view,
            together,
            base,
            items,
            state,
        })
    }

    /// The view.
    pub fn view(&self) -> &Roster
        ensures view { result.now ≡ self.now.view }
        ensures install { is_install self.now ≡ true }
    {
        &self.view
    }

    /// Who come from the same view as the one that is instructed, itself among them, in member order.
    pub fn together(&self) -> &Members
        ensures { result.now ≡ self.now.together }
    {
        &self.together
    }

    /// The number before the first of the entries.
    pub fn base(&self) -> Count
        ensures { result ≡ self.now.base }
    {
        self.base
    }

    /// The entries with the numbers base + 1, base + 2, ...
    pub fn items(&self) -> Items<'a>
        ensures { result ≡ self.now.items }
    {
        self.items.again()
    }

    /// What is said of a state.
    pub fn state(&self) -> &GivenState<'a>
        ensures { result.now ≡ self.now.state }
    {
        &self.state
    }
}

/// Reads what an INSTALL says: the view, who is together, the cut, and a state where one is given. An error is that of the first field that fails.
#[tactic(auto, unfolding(crate::specs::Lists::install_at, crate::specs::Lists::given_at, crate::specs::Lists::items_count_at))]
pub fn install_at<'a>(from: &mut Reader<'a>) -> Result<Install<'a>, WireError>
    ensures { IsRead (λ x. (x, from.new)) result (install_at from.old) }
{
    let view = view_at(from)?;
    let len = from.u8(1, MEMBERS as u8, WireError::Length)?;
    let together = together_at(len, &view, from)?;
    let base = count_at(0, GREATEST_NUMBER, from)?;
    let count = from.u8(0, WINDOW as u8, WireError::Length)?;
    if base.get() + count as u64 > GREATEST_NUMBER {
        return Err(WireError::Value);
    }
    let items = items_at(count, from)?;
    let state = state_at(from)?;
    Ok(Install {
        view,
        together,
        base,
        items,
        state,
    })
}
