//! What each ticket is answered.

ghost use Rattle.std.specs.Prelude.{◌≡◌, ◌+◌, ◌≤◌, ◌++◌, length, vec_len, vec_capacity, map};
ghost use Rattle.replicated_map.specs.Serving.{back};

use crate::Outcome;
use address::ViewId;
use application::Waiting;

/// What became of a message of one's own.
pub enum Fate {
    /// It was delivered in this view, as the message of this place, counted from 1, and this became of its command at the map right before it.
    Delivered(ViewId, u64, Outcome),
    /// Its view ended before it was delivered.
    HandedBack,
}

impl Drop for Fate {
    fn drop(self) {
        match self {
            Fate::Delivered(_, _, _) => {}
            Fate::HandedBack => {}
        }
    }
}

/// What became of the message that was noted for a ticket.
#[derive(Drop)]
pub struct Answer {
    pub ticket: u64,
    pub fate: Fate,
}

// Answers all that wait that their messages are handed back.
pub(crate) fn hand_back(waiting: &[Waiting], answers: &mut Vec<Answer>)
    requires { vec_len answers.old + length waiting.now ≤ vec_capacity answers.old }
    ensures { answers.new.items ≡ answers.old.items ++ map back waiting.now }
{
    for waits in waiting {
        answers.push_reserved(Answer {
            ticket: waits.ticket,
            fate: Fate::HandedBack,
        });
    }
}
