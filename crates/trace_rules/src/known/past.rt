ghost use Rattle.std.specs.Prelude.{◌≡◌, ◌++◌, ◌∷◌, [], OnOk};
ghost use Rattle.std.specs.Option.{option_copied};
ghost use Rattle.trace_props.specs.Observed.{first_install};
ghost use Rattle.trace_props.specs.Agreeing.{first_from};
ghost use Rattle.trace_props.specs.Following.{MayCarry};
ghost use Rattle.trace_rules.specs.Known.{Says, standing_of};

use super::in_views::InView;
use super::keys::{MemberInView, ViewChange};
use super::standing::{self, Standing};
use super::tables::{self, Tables};
use address::{Address, ViewId};
use std::alloc::{AllocError, Global};
use std::marker::Model;
use trace_props::{Event, Install};

/// The events so far, kept so that what the rules ask of them is looked up. Contracts see it as their list.
#[derive(Drop)]
pub struct Past<'a> {
    tables: Tables<'a>,
}

impl<'a> Model for Past<'a> {
    ghost use Rattle.std.specs.Prelude.{List};
    ghost use Rattle.trace_props.specs.declared.event.Event.{Event};
    ghost use Rattle.trace_rules.specs.Known.{KnowsPast, pointed};

    ghost Value = { List Event };

    ghost view = { λ p. pointed p.tables.events.items };

    ghost invariant = { λ p. KnowsPast p.tables (pointed p.tables.events.items) };
}

impl<'a> Past<'a> {
    /// Nothing happened. Takes no memory.
    pub fn new(alloc: Global) -> Past<'a>
        ensures { result ≡ [] }
    {
        Past {
            tables: Tables::new(alloc),
        }
    }

    /// How a member stands.
    pub(crate) fn standing(&self, member: Address) -> Standing
        ensures { result ≡ standing_of member self.now }
    {
        standing::how_stands(&self.tables.standings, member)
    }

    /// What is kept of a member in a view.
    pub(crate) fn in_view(&self, member: Address, view: ViewId) -> Option<&InView<'a>>
        ensures { Says (option_copied result) member view self.now }
    {
        self.tables.in_views.get(&MemberInView { member, view })
    }

    /// The first install of a view.
    pub(crate) fn first(&self, view: ViewId) -> Option<&'a Install>
        ensures { option_copied result ≡ first_install view self.now }
    {
        self.tables.firsts.get(&view).copied()
    }

    /// The first install that goes from a view to another.
    pub(crate) fn view_change(&self, from: ViewId, to: ViewId) -> Option<&'a Install>
        ensures { option_copied result ≡ first_from from to self.now }
    {
        self.tables
            .view_changes
            .get(&ViewChange { to, from })
            .copied()
    }

    /// Notes what happened next, whose message, if it delivers one, is its sender's next. On refusal nothing is known any more.
    pub fn note(&mut self, alloc: Global, event: &'a Event) -> Result<(), AllocError>
        requires may { MayCarry self.old event.now }
        ensures { OnOk result (self.new ≡ self.old ++ event.now ∷ []) }
    {
        match tables::keep(alloc, &mut self.tables, event) {
            Ok(()) => Ok(()),
            Err(refused) => {
                self.tables = Tables::new(alloc);
                Err(refused)
            }
        }
    }
}
