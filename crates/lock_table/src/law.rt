ghost use Rattle.std.specs.Prelude.{◌≡◌, ◌↔◌, ◌⊎◌, ◌≤◌, ◌++◌, ◌∷◌, [], ℕ, List, Some, true, false, length};
ghost use Rattle.std.specs.List.{AllByRecursion, filter, list_any};
ghost use Rattle.std.specs.Option.{IsSomeAnd};
ghost use Rattle.address.specs.Ids.{Address, ViewId};
ghost use Rattle.view.specs.Members.{View as ViewValue, stands_in};
ghost use Rattle.lock_table.specs.declared.command.Command.{Command as CommandValue};
ghost use Rattle.std.specs.declared.cmp.Ordering.TheVariants.{Less};
ghost use Rattle.keyed_state.specs.Entries.{key_cmp};
ghost use Rattle.lock_table.specs.declared.command.Command.TheVariants.{Release, Roll};
ghost use Rattle.keyed_state.specs.Tokens.{IsBelow};
ghost use Rattle.lock_table.specs.Locks.{Lock, Table, IsTable, lock_of, queue};
ghost use Rattle.lock_table.specs.Encoding.{table_encode, table_decode};
ghost use Rattle.lock_table.specs.Commands.{IsCommand, command_bytes, command_of};
ghost use Rattle.lock_table.specs.Moves.{FreeIsGranted, HeldIsWaitedFor, ReleasedIsLeft, RolledIsLeft};
ghost use Rattle.lock_table.specs.Stamps.{FirstSpells, SaidSpells, StampedSpells};
ghost use Rattle.lock_table.specs.Turns.{Message, IsMessage, after, after_all, queue_of, Grants, leaves, stays, comes, StandsOn};
ghost use Rattle.address.specs.declared.limits.TheConstants.{STATE};

/// The law of the encoding: a state is decoded from its encoding and from no other bytes, and only a table's states
/// are. No encoding is longer than `STATE` bytes.
pub fn one_encoding()
    ensures exact { (bytes : List ℕ) (s : Table) → (table_decode bytes ≡ Some s) ↔ (IsTable s × (table_encode s ≡ bytes)) }
    ensures short { (s : Table) → IsTable s → length (table_encode s) ≤ STATE }
{}

/// The law of the commands' spelling: a command is read from its spelling and from no other bytes.
pub fn one_spelling()
    ensures { (bytes : List ℕ) (c : CommandValue) → (command_of bytes ≡ Some c) ↔ (IsCommand c × (command_bytes c ≡ bytes)) }
{}

/// The law of holders: whoever holds a lock holds it, with its token, until it leaves, by its own release or by a roll without it. So between two grants of
/// a lock the first holder leaves.
pub fn one_holder()
    ensures holds_on { (s : Table) (messages : List Message) (name : List ℕ) (l : Lock) → IsTable s → AllByRecursion IsMessage messages → lock_of name s ≡ Some l → list_any (leaves name l.holder) messages ≡ false → IsSomeAnd (lock_of name (after_all s messages)) (λ k. (k.holder ≡ l.holder) × (k.token ≡ l.token)) }
    ensures between { (s : Table) (m : Message) (messages : List Message) (n : Message) (name : List ℕ) (l k : Lock) → IsTable s → IsMessage m → AllByRecursion IsMessage messages → IsMessage n → Grants name m s l → Grants name n (after_all (after s m) messages) k → list_any (leaves name l.holder) (messages ++ n ∷ []) ≡ true }
{}

/// The law of turns: by a message those leave a lock whom it has leave, and whoever asks comes behind them; or nothing changes at all. So a grant is to the first of
/// those who stay, and whoever stands at a lock stands there until it leaves, behind no one who did not stand before it already.
pub fn in_turn()
    ensures turns { (s : Table) (m : Message) (name : List ℕ) → IsTable s → (after s m ≡ s) ⊎ (queue_of name (after s m) ≡ filter (stays name m) (queue_of name s) ++ comes name (queue_of name s) m) }
    ensures grants { (s : Table) (m : Message) (name : List ℕ) (l : Lock) → IsTable s → Grants name m s l → queue l ≡ filter (stays name m) (queue_of name s) ++ comes name (queue_of name s) m }
    ensures stands_on { (s : Table) (messages : List Message) (name : List ℕ) (p : Address) → IsTable s → AllByRecursion IsMessage messages → stands_in p (queue_of name s) ≡ true → list_any (leaves name p) messages ≡ false → StandsOn p (queue_of name s) (queue_of name (after_all s messages)) }
{}

/// The law of moves: a command does what it says if the state has room and numbers are left. A free lock is granted to the member that asks for it. A member that asks for a
/// held lock waits for it, if it does not stand there already. A release removes its sender. A roll from the view's creator removes all that are not members of the view.
pub fn moves()
    ensures grants { FreeIsGranted }
    ensures waits { HeldIsWaitedFor }
    ensures releases { ReleasedIsLeft }
    ensures rolls { RolledIsLeft }
{}

/// The law of tokens: they rise along the messages, whichever locks are granted, and along the names of those that one message grants.
pub fn tokens_rise()
    ensures along { (s : Table) (m : Message) (messages : List Message) (n : Message) (name other : List ℕ) (l k : Lock) → IsTable s → IsMessage m → AllByRecursion IsMessage messages → Grants name m s l → Grants other n (after_all (after s m) messages) k → IsBelow l.token k.token }
    ensures at_once { (s : Table) (m : Message) (name other : List ℕ) (l k : Lock) → IsTable s → Grants name m s l → Grants other m s k → key_cmp name other ≡ Less → IsBelow l.token k.token }
{}

/// The law of releases: a release of a lock by one who neither holds it nor waits for it changes nothing.
pub fn release_by_another()
    ensures { (s : Table) (m : Message) (view : ViewId) (name : List ℕ) → command_of m.payload ≡ Some (Release view name) → stands_in m.from (queue_of name s) ≡ false → after s m ≡ s }
{}

/// The law of rolls: the same roll a second time changes nothing.
pub fn roll_again()
    ensures { (s : Table) (m : Message) (view : ViewValue) → command_of m.payload ≡ Some (Roll view) → after (after s m) m ≡ after s m }
{}

/// The law of stamps: each command that a member sends spells the view in which it is sent. So do a command that `Command::in_view` stamps anew, the words that are said at a
/// member, and the roll that the coordinator of a view sends first in it. It does nothing.
pub fn stamps_spell()
    ensures stamped { StampedSpells }
    ensures said { SaidSpells }
    ensures first { FirstSpells }
{}
