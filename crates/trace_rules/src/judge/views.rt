ghost use Rattle.std.specs.Prelude.{◌≡◌};
ghost use Rattle.std.specs.Option.{option_copied};
ghost use Rattle.trace_props.specs.Observed.{current_view, first_install};
ghost use Rattle.trace_rules.specs.Judged.{same_previous, is_below, has_members, rises};

use crate::known::Past;
use address::{Address, ViewId};
use trace_props::Install;

/// Whether both are none, or the same view.
pub fn is_same_previous(one: Option<ViewId>, other: Option<ViewId>) -> bool
    ensures { result ≡ same_previous one other }
{
    match one {
        None => other.is_none(),
        Some(one) => match other {
            None => false,
            Some(other) => one == other,
        },
    }
}

fn goes_up(from: Option<ViewId>, to: ViewId) -> bool
    ensures { result ≡ is_below from to }
{
    match from {
        None => true,
        Some(from) => from < to,
    }
}

fn has_same(first: Option<&Install>, members: &[Address]) -> bool
    ensures { result ≡ has_members (option_copied first.entry) members.now }
{
    match first {
        None => true,
        Some(first) => first.view.members().as_slice() == members,
    }
}

/// Whether an install rises after the past.
pub fn may_rise(past: &Past, install: &Install) -> bool
    ensures { result ≡ rises (current_view install.now.member past.now) (first_install install.now.view.id past.now) install.now }
{
    let current = past.standing(install.member).view;
    let id = install.view.id();
    install.view.contains(&install.member)
        && is_same_previous(install.previous, current)
        && goes_up(install.previous, id)
        && has_same(past.first(id), install.view.members().as_slice())
}
