//! Who waits for a lock, and what each is told.

ghost use Rattle.std.specs.Prelude.{◌≡◌, ◌+◌, ◌≤◌, ◌++◌, vec_len, vec_capacity, length, map};
ghost use Rattle.std.specs.List.{filter, flat_map};
ghost use Rattle.lock_table.specs.Keeping.{still_waits, told, back};

use crate::standing::is_waiting;
use crate::{LockTable, Standing, Token, standing_of};
use address::{Address, Bytes, ViewId};
use application::{FollowedMember, Waiting};

/// What became of a request for a lock.
#[derive(Clone, Copy, Debug, Drop)]
pub enum Fate {
    /// The member holds the lock, with this token.
    Granted(Token),
    /// The table is full: the request was delivered, and changed nothing.
    Full,
    /// The member waited for the lock, and does so no more: another request released it, or the member was given another table.
    Gone,
    /// The member held the lock or waited for it, and does so no more.
    Released,
    /// The member neither held the lock nor waited for it: there was nothing to release.
    NotHeld,
    /// The message asks for no lock and releases none.
    NoRequest,
    /// The view of the message ended before it was delivered.
    HandedBack,
}

/// What became of the request that was noted for a ticket, and where it was known: after so many messages of a view.
#[derive(Clone, Copy, Debug, Drop)]
pub struct Answer {
    pub ticket: u64,
    pub view: ViewId,
    pub place: u64,
    pub fate: Fate,
}

/// Who waits until the member holds the lock of this name.
#[derive(Drop)]
pub struct Queued {
    pub ticket: u64,
    pub name: Bytes,
}

// Tells who waits what became of it, if that is known.
fn tell_one(
    own: &Address,
    copy: &LockTable,
    view: ViewId,
    place: u64,
    queued: &Queued,
    answers: &mut Vec<Answer>,
)
    requires { vec_len answers.old + 1 ≤ vec_capacity answers.old }
    ensures items { answers.new.items ≡ answers.old.items ++ told own.now copy.now view place queued.now }
    ensures room { vec_capacity answers.old ≤ vec_capacity answers.new }
    ensures few { vec_len answers.new ≤ vec_len answers.old + 1 }
{
    let fate = match standing_of(own, queued.name.as_slice(), copy) {
        Standing::Holds(token) => Fate::Granted(token),
        Standing::Waits => return,
        Standing::Apart => Fate::Gone,
    };
    answers.push_reserved(Answer {
        ticket: queued.ticket,
        view,
        place,
        fate,
    });
}

// Tells who waits what became of it, where that is known; the others wait on.
pub(crate) fn tell_late(
    followed: &FollowedMember<LockTable>,
    view: ViewId,
    queued: &mut Vec<Queued>,
    answers: &mut Vec<Answer>,
)
    requires { vec_len answers.old + vec_len queued.old ≤ vec_capacity answers.old }
    ensures answers { answers.new.items ≡ answers.old.items ++ flat_map (told followed.now.own followed.now.copy view followed.now.place) queued.old.items }
    ensures queued { queued.new.items ≡ filter (still_waits followed.now.own followed.now.copy) queued.old.items }
    ensures room { (vec_capacity answers.old ≤ vec_capacity answers.new) × (vec_capacity queued.old ≤ vec_capacity queued.new) }
    ensures few { (vec_len answers.new ≤ vec_len answers.old + vec_len queued.old) × (vec_len queued.new ≤ vec_len queued.old) }
{
    let own = followed.own();
    let copy = followed.copy();
    let place = followed.place();
    for waits in queued.as_slice() {
        tell_one(&own, copy, view, place, waits, answers);
    }
    queued.retain(|waits| is_waiting(&standing_of(&own, waits.name.as_slice(), copy)));
}

// Answers all that wait for a message that it is handed back.
pub(crate) fn hand_back(view: ViewId, waiting: &[Waiting], answers: &mut Vec<Answer>)
    requires { vec_len answers.old + length waiting.now ≤ vec_capacity answers.old }
    ensures items { answers.new.items ≡ answers.old.items ++ map (back view) waiting.now }
    ensures room { vec_capacity answers.old ≤ vec_capacity answers.new }
    ensures few { vec_len answers.new ≤ vec_len answers.old + length waiting.now }
{
    for waits in waiting {
        answers.push_reserved(Answer {
            ticket: waits.ticket,
            view,
            place: 0,
            fate: Fate::HandedBack,
        });
    }
}
