ghost use Rattle.law_acts.specs.Chains.{NothingActed, OneActed, ThenActed};

use state_transfer::Receiver;

/// The laws of acts one after another: one who did nothing acted, so did one who did one act that was allowed, and one who acted and then acted again.
/// It does nothing.
pub fn acts_in_turn<R: Receiver>()
    ensures nothing { NothingActed R.meaning }
    ensures one { OneActed R.meaning }
    ensures two { ThenActed R.meaning }
{}
