ghost use Rattle.std.specs.Prelude.{◌≡◌, OnOk, Some, List, ◌++◌, ◌∷◌, [], is_some, if◌then◌else◌, MatchBool};
ghost use Rattle.std.specs.HashMap.{get};
ghost use Rattle.address.specs.Ids.{same_view_id};
ghost use Rattle.trace_props.specs.declared.event.Event.{Event};
ghost use Rattle.trace_rules.specs.Known.{same_view_change, KnowsInstalls};

use super::keys::ViewChange;
use address::ViewId;
use std::alloc::AllocError;
use std::collections::HashMap;
use std::hash::Hash;
use trace_props::{Event, Install};

// Keeps an install where none is kept.
fn write<'a, K: Eq + Hash + Copy + Drop>(
    registers: &mut HashMap<K, &'a Install>,
    key: K,
    install: &'a Install,
) -> Result<(), AllocError>
    ensures { OnOk result (MatchBool (is_some (get K.eq registers.old key))
        ((other : K) → get K.eq registers.new other ≡ get K.eq registers.old other)
        ((other : K) → get K.eq registers.new other ≡ (if K.eq key other then Some install.entry else get K.eq registers.old other))) }
{
    if registers.contains_key(&key) {
        return Ok(());
    }
    registers.insert(key, install)?;
    Ok(())
}

/// Keeps the first install of a view, and the first that goes from a view to another.
pub fn note_install<'a>(
    firsts: &mut HashMap<ViewId, &'a Install>,
    view_changes: &mut HashMap<ViewChange, &'a Install>,
    event: &'a Event,
) -> Result<(), AllocError>
    ensures { OnOk result ((t : List Event) → KnowsInstalls (get same_view_id firsts.old) (get same_view_change view_changes.old) t
        → KnowsInstalls (get same_view_id firsts.new) (get same_view_change view_changes.new) (t ++ event.now ∷ [])) }
{
    let Event::Installed(install) = event else {
        return Ok(());
    };
    let install = install.get();
    let to = install.view.id();
    write(firsts, to, install)?;
    match install.previous {
        None => Ok(()),
        Some(from) => write(view_changes, ViewChange { to, from }, install),
    }
}
