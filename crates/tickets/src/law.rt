//! The laws of tickets, after any changes (docs/HTTP.md, "Writes").

ghost use Rattle.std.specs.Prelude.{◌≡◌, ◌++◌, ◌∷◌, [], ℕ, List, true};
ghost use Rattle.std.specs.List.{Contains};
ghost use Rattle.tickets.specs.declared.tickets.Change.{Change};
ghost use Rattle.tickets.specs.declared.tickets.Change.TheVariants as change;
ghost use Rattle.tickets.specs.declared.tickets.Pending.{Pending};
ghost use Rattle.tickets.specs.Ledger.{Ledger, after, after_all};
ghost use Rattle.tickets.specs.Laws.{HasItsTime, IsEachOnce, IsInTime, StaysTrue, WasSent};

/// Says that each ticket is answered exactly once, over any number of view changes: none is forgotten, and none ends twice.
pub fn answers_each_once()
    ensures { (l : Ledger) (cs : List Change) → IsEachOnce l cs (after_all l cs) }
{}

/// Says that no ticket waits forever: once it is looked for those whose time is over, no such ticket is open; and no change gives a ticket more time.
pub fn answers_in_time()
    ensures none_is_late { (l : Ledger) (cs : List Change) (now : ℕ) → IsInTime now (after_all l (cs ++ change.Passed now ∷ [])) }
    ensures times_stay { (l : Ledger) (cs : List Change) (o : Pending) → Contains (after_all l cs).pending o → HasItsTime l cs o }
{}

/// Says that no ticket whose message was sent is answered 'not done', whatever happens afterwards.
pub fn answers_truly()
    ensures sent { (l : Ledger) (ticket : ℕ) → WasSent ticket (after l (change.Sent ticket)) }
    ensures stays { (l : Ledger) (cs : List Change) → StaysTrue l cs (after_all l cs) }
{}
