ghost use Rattle.std.specs.Prelude.{◌≡◌};
ghost use Rattle.std.specs.List.{list_all};
ghost use Rattle.std.specs.Option.{option_copied};
ghost use Rattle.trace_props.specs.Observed.{entry_of};
ghost use Rattle.trace_rules.specs.Judged.{meets, lies_within, inside_previous, know_each_other, knows_all};

use super::views::is_same_previous;
use crate::known::{Past, delivered_count, entry};
use address::{Address, ViewId};
use trace_props::Install;
use view::Addresses;

/// Whether who enters delivered as many messages as the first who went from the same view to the same next.
pub fn may_meet(past: &Past, install: &Install) -> bool
    ensures { result ≡ meets install.now.previous install.now past.now }
{
    let Some(previous) = install.previous else {
        return true;
    };
    let Some(other) = past.view_change(previous, install.view.id()) else {
        return true;
    };
    delivered_count(past.in_view(other.member, previous))
        == delivered_count(past.in_view(install.member, previous))
}

// Whether each address of a list stands in another.
fn are_within(inner: &[Address], outer: &Addresses) -> bool
    ensures { result ≡ lies_within inner.now outer.now }
{
    for address in inner {
        if !outer.contains(address) {
            return false;
        }
    }
    true
}

// Whether all of these are members of the view before, as its first install has them.
fn are_within_previous(past: &Past, previous: Option<ViewId>, together: &Addresses) -> bool
    ensures { result ≡ inside_previous previous together.now past.now }
{
    let Some(previous) = previous else {
        return true;
    };
    match past.first(previous) {
        None => true,
        Some(first) => are_within(together.as_slice(), first.view.members()),
    }
}

fn know(entry: Option<&Install>, install: &Install) -> bool
    ensures { result ≡ know_each_other (option_copied entry.entry) install.now }
{
    match entry {
        None => true,
        Some(entry) => {
            let is_same = is_same_previous(entry.previous, install.previous);
            (install.together.contains(&entry.member) == is_same)
                & (entry.together.contains(&install.member) == is_same)
        }
    }
}

fn knows_each(past: &Past, members: &[Address], install: &Install) -> bool
    ensures { result ≡ list_all (λ q. know_each_other (entry_of q install.now.view.id past.now) install.now) members.now }
{
    let id = install.view.id();
    for member in members {
        if !know(entry(past.in_view(*member, id)), install) {
            return false;
        }
    }
    true
}

/// Whether who enters knows all that have installed its view.
pub fn may_know(past: &Past, install: &Install) -> bool
    ensures { result ≡ knows_all past.now install.now }
{
    are_within(install.together.as_slice(), install.view.members())
        && are_within_previous(past, install.previous, &install.together)
        && install.together.contains(&install.member)
        && knows_each(past, install.view.members().as_slice(), install)
}
