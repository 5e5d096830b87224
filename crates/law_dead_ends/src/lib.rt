//! Nothing is a dead end: a member that has a view comes to stand alone by suspicions (docs/GUARANTEES.md, "What comes about").
#![tactic(auto)]

ghost use Rattle.law_dead_ends.specs.DeadEnds.{NoDeadEnd};

use state_transfer::Receiver;

/// The law of dead ends: in whatever way a deployment was played, each member that runs and has a view comes to stand alone, in a view of which it is the only member, and
/// not blocked, by suspicions that it is handed, one after another: at most one for each member of its view and for each address that it noted for the next one, and one more. Each
/// is of an address of its view, or of the list that it promised, which is chosen as the member stands then.
///
/// It holds where its counter has room for them, each takes two at most, and no suspicion was refused memory. For every receiver that keeps the laws. It does nothing.
pub fn nothing_is_a_dead_end<R: Receiver>()
    ensures { NoDeadEnd R.meaning }
{}
