//! What is counted of four runners where a call of their nets fails.

use crate::failing::Tried;
use crate::failing_four::{After, Story, play};
use memory_nets::Failing;
use std::alloc::{AllocError, Global};

/// What was counted after the last round of all: the receives, and the sends.
fn last(story: &Story) -> (u64, u64) {
    match story.after.as_slice().last() {
        Some(after) => (after.receives, after.sends),
        None => (0, 0),
    }
}

/// Whether of these rounds just the one with this receive has counted a fault, it was its last receive, and its member counted no other.
fn is_counted_once(after: &[After], number: u64) -> bool {
    let Some(failing) = after.iter().find(|after| after.receives >= number) else {
        return false;
    };
    let mut is_right = failing.receives == number && failing.faults == 1;
    for round in after {
        let is_behind = round.index == failing.index && round.receives >= number;
        is_right = is_right && round.faults == u64::from(is_behind);
    }
    is_right
}

/// Whether two rounds are the same, but for faults.
fn are_alike(one: &After, other: &After) -> bool {
    one.index == other.index
        && one.sends == other.sends
        && one.receives == other.receives
        && one.length == other.length
}

/// Whether all is as in a story in which that receive found nothing, but for the faults: so nothing was handed in by it, and nothing was received after it in
/// its round.
fn is_as_empty(failed: &Story, empty: &Story) -> bool {
    let mut is_right = failed.text.as_slice() == empty.text.as_slice()
        && failed.after.len() == empty.after.len();
    for (one, other) in failed
        .after
        .as_slice()
        .iter()
        .zip(empty.after.as_slice().iter())
    {
        is_right = is_right && are_alike(one, other);
    }
    is_right
}

/// Whether both are the same up to and with the round of this send.
fn are_same_up_to(whole: &Story, less: &Story, number: u64) -> bool {
    let rounds = whole.after.as_slice();
    let Some(index) = rounds.iter().position(|after| after.sends >= number) else {
        return false;
    };
    let count = index.saturating_add(1);
    let (Some(before), Some(after)) = (rounds.get(..count), less.after.as_slice().get(..count))
    else {
        return false;
    };
    let length = match before.last() {
        Some(round) => round.length,
        None => 0,
    };
    let (ours, theirs) = (less.text.as_slice(), whole.text.as_slice());
    before == after && theirs.get(..length) == ours.get(..length)
}

/// Each receive fails in turn: it is counted once, hands nothing in, and is the last of its round.
pub fn receives(alloc: Global) -> Result<Tried, AllocError> {
    let mut tried = Tried::new();
    let (count, _) = last(&play(alloc, Failing::Nothing)?);
    for before in 0..count {
        let number = before + 1;
        let failed = play(alloc, Failing::Receive(number))?;
        let empty = play(alloc, Failing::Empty(number))?;
        let is_right = is_counted_once(failed.after.as_slice(), number);
        tried.count(is_right && is_as_empty(&failed, &empty));
    }
    Ok(tried)
}

/// Each send fails in turn: nothing else changes in its round.
pub fn sends(alloc: Global) -> Result<Tried, AllocError> {
    let mut tried = Tried::new();
    let whole = play(alloc, Failing::Nothing)?;
    let (_, count) = last(&whole);
    for before in 0..count {
        let number = before + 1;
        let less = play(alloc, Failing::Send(number))?;
        tried.count(are_same_up_to(&whole, &less, number));
    }
    Ok(tried)
}
