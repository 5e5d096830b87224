//! A story of two tickets, which shows that the premises of the laws can be met, and examples that the laws reject.

ghost use Rattle.std.specs.Prelude.{◌≡◌, ◌++◌, ◌∷◌, [], ℕ, None, Some, false};
ghost use Rattle.std.specs.List.{list_any};
ghost use Rattle.tickets.specs.declared.tickets.Change.TheVariants as change;
ghost use Rattle.tickets.specs.declared.tickets.Stage.TheVariants as stage;
ghost use Rattle.tickets.specs.declared.reach.Reach.TheVariants as reach;
ghost use Rattle.tickets.specs.Ledger.{after, after_all, first_unsent, nothing_open};
ghost use Rattle.tickets.specs.Laws.{HasItsTime, IsEachOnce, IsInTime, StaysTrue, WasSent, opens};
ghost use Rattle.tickets.specs.Reaching.{reach_of};
ghost use Rattle.tickets.specs.Story.{both_ended, first_sent, goes_on, one_back, one_sent};
ghost use Rattle.tickets.specs.Wrong.{in_first, later_view, one_not_done, one_twice, one_waits};

/// Plays the story of `specs/Story.antt`. It does nothing.
///
/// - Ticket 1 is opened until 10 and sent. A view change hands its message back, so that it is the next to be sent. It is sent again and settled.
/// - Ticket 2 is opened until 5, and is never sent. The time 5 passes.
///
/// At the end no ticket is open: ticket 1 ended as known, ticket 2 as not done.
/// The premises of `answers_truly` hold of ticket 1: its message was sent, and the ticket is not opened again.
pub fn story()
    ensures sent { after_all nothing_open first_sent ≡ one_sent }
    ensures back { after one_sent (change.HandedBack 1) ≡ one_back }
    ensures again { first_unsent one_back ≡ Some 1 }
    ensures plays { after_all nothing_open (first_sent ++ goes_on) ≡ both_ended }
    ensures was_sent { WasSent 1 (after_all nothing_open first_sent) }
    ensures once { list_any (opens 1) goes_on ≡ false }
{}

/// Rejects what the laws and `reach_of` must reject. It does nothing.
///
/// - Each once: a ticket that is forgotten after it was opened, or that ends twice.
/// - In time: a ticket that is open until 3 and still open at 3, or that has more time than it was opened with.
/// - Truly: a ticket that waits to be sent, as one that was sent; 'not done' of a ticket that was sent.
/// - Reach: where nothing is known to be stable and the member is in a later view, the reach is unknown, and not everybody.
pub fn refutations()
    ensures forgotten { IsEachOnce nothing_open (change.Opened 1 10 ∷ []) nothing_open → ⊥ }
    ensures twice { IsEachOnce one_sent (change.Settled 1 ∷ []) one_twice → ⊥ }
    ensures late { IsInTime 3 (one_waits 3) → ⊥ }
    ensures longer { HasItsTime nothing_open (change.Opened 1 10 ∷ []) (record { ticket = 1; until = 11; stage = stage.Waiting }) → ⊥ }
    ensures waiting { WasSent 1 (one_waits 10) → ⊥ }
    ensures untrue { StaysTrue one_sent (change.Passed 10 ∷ []) one_not_done → ⊥ }
    ensures unknown { (count : ℕ) → reach_of (in_first count) None (Some later_view) ≡ reach.Unknown }
    ensures not_everybody { (count : ℕ) → reach_of (in_first count) None (Some later_view) ≡ reach.Everybody → ⊥ }
{}
