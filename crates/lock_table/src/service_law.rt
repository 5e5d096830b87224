ghost use Rattle.std.specs.Prelude.{◌≡◌, ℕ, ◌+◌, ◌++◌, List};
ghost use Rattle.trace_props.specs.declared.event.Event.{Event};
ghost use Rattle.lock_table.specs.Meanings.{table_meaning};
ghost use Rattle.application.specs.Followed.{Follows};
ghost use Rattle.lock_table.specs.Keeping.{Keeping};
ghost use Rattle.lock_table.specs.Answers.{AllWait, GrantsAreTrue, answered_often, answers_to, heard_all, waits_often};

/// The law of the copy: after any events the service knows the view, the place and the table that they say (docs/EMBEDDING.md, "What became of a request for a lock").
pub fn follows()
    ensures { (s : Keeping) (t : List Event) → Follows table_meaning s.followed (heard_all s t).followed t }
{}

/// The law of grants, after any events. What was answered stays. Who is told that a lock is granted asked for it, and the member holds it at that place of the trace, with the
/// token that is named.
pub fn grants()
    ensures stay { (s : Keeping) (t : List Event) → (heard_all s t).answers ≡ s.answers ++ answers_to s t }
    ensures are_true { (s : Keeping) (t : List Event) → GrantsAreTrue s t }
{}

/// The law of waiting: after any events the member waits for each lock that somebody waits for, if it did so before. So nobody waits for a lock that the member holds, or that it does not
/// wait for any more.
pub fn misses_no_grant()
    ensures { (s : Keeping) (t : List Event) → AllWait s → AllWait (heard_all s t) }
{}

/// The law of tickets: after any events a ticket waits and is answered as often, together, as before. So none is forgotten, and none is answered twice.
pub fn forgets_nobody()
    ensures { (s : Keeping) (t : List Event) (ticket : ℕ) → waits_often ticket (heard_all s t) + answered_often ticket (heard_all s t) ≡ waits_often ticket s + answered_often ticket s }
{}
