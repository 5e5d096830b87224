//! How a member stands at a lock.

ghost use Rattle.std.specs.Prelude.{◌≡◌};
ghost use Rattle.lock_table.specs.Standings.{standing, is_waiting};

use crate::{LockTable, Token};
use address::Address;

/// How a member stands at a lock.
#[derive(Clone, Copy, PartialEq, Eq)]
pub enum Standing {
    /// It holds the lock, with this token.
    Holds(Token),
    /// It waits for the lock.
    Waits,
    /// It neither holds it nor waits for it.
    Apart,
}

/// How a member stands at the lock of a name.
pub fn standing_of(member: &Address, name: &[u8], table: &LockTable) -> Standing
    ensures { result ≡ standing member.now name.now table.now }
{
    let Some(lock) = table.lock(name) else {
        return Standing::Apart;
    };
    if *member == lock.holder() {
        return Standing::Holds(lock.token());
    }
    if lock.has(member) {
        return Standing::Waits;
    }
    Standing::Apart
}

// Whether it waits there.
pub(crate) fn is_waiting(standing: &Standing) -> bool
    ensures { result ≡ is_waiting standing.now }
{
    match standing {
        Standing::Holds(_) => false,
        Standing::Waits => true,
        Standing::Apart => false,
    }
}
