//! What an own message comes to, and who waits for a lock by it.

ghost use Rattle.std.specs.Prelude.{◌≡◌, ◌<◌, ◌++◌, vec_len, vec_capacity, IfOk};
ghost use Rattle.lock_table.specs.Commands.{command_of};
ghost use Rattle.lock_table.specs.Keeping.{early, verdict, queue_by, told_of};

use crate::{Answer, Command, Fate, LockTable, Queued, Standing, standing_of};
use address::{Address, Bytes, ViewId};
use application::FollowedMember;
use std::alloc::{AllocError, Global};

// What an own message comes to, as far as the table right before it says so.
pub(crate) enum Early {
    // Its ticket is told so.
    Told(Fate),
    // It asks for the lock of this name.
    Asks(Bytes),
}

impl Drop for Early {
    fn drop(self) {
        match self {
            Early::Told(_) => {}
            Early::Asks(_) => {}
        }
    }
}

// What an own message comes to, as far as the table right before it says so.
pub(crate) fn early_in(
    alloc: Global,
    own: &Address,
    copy: &LockTable,
    payload: &[u8],
) -> Result<Early, AllocError>
    ensures { IfOk result (λ e. e ≡ early own.now copy.now (command_of payload.now)) }
{
    let Some(command) = Command::decode(alloc, payload)? else {
        return Ok(Early::Told(Fate::NoRequest));
    };
    match &command {
        Command::Acquire { view: _, name } => {
            let name = Bytes::from_slice(alloc, name.as_slice())?;
            Ok(Early::Asks(name))
        }
        Command::Release { view: _, name } => match standing_of(own, name.as_slice(), copy) {
            Standing::Holds(_) | Standing::Waits => Ok(Early::Told(Fate::Released)),
            Standing::Apart => Ok(Early::Told(Fate::NotHeld)),
        },
        Command::Roll(_) => Ok(Early::Told(Fate::NoRequest)),
    }
}

impl Early {
    // Who asked by an own message is told what it came to, or waits for the lock.
    pub(crate) fn settle(
        self,
        followed: &FollowedMember<LockTable>,
        ticket: u64,
        view: ViewId,
        queued: &mut Vec<Queued>,
        answers: &mut Vec<Answer>,
    )
        requires answers { vec_len answers.old < vec_capacity answers.old }
        requires queued { vec_len queued.old < vec_capacity queued.old }
        ensures queued { queued.new.items ≡ queued.old.items ++ queue_by followed.now.own followed.now.copy ticket self }
        ensures answers { answers.new.items ≡ answers.old.items ++ told_of ticket view followed.now.place (verdict followed.now.own followed.now.copy self) }
    {
        let fate = match self {
            Early::Told(fate) => fate,
            Early::Asks(name) => {
                match standing_of(&followed.own(), name.as_slice(), followed.copy()) {
                    Standing::Holds(token) => Fate::Granted(token),
                    Standing::Apart => Fate::Full,
                    Standing::Waits => {
                        queued.push_reserved(Queued { ticket, name });
                        return;
                    }
                }
            }
        };
        answers.push_reserved(Answer {
            ticket,
            view,
            place: followed.place(),
            fate,
        });
    }
}
