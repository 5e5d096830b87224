//! What a member does in one rule of a change of view, as acts of the agreement (docs/PROOF.md, "Agreement over acts"): the decisions over what it knows,
//! and laws by which each rule is one act that is allowed.
//!
//! Definitions, and one function that does nothing: its clauses are the laws.

ghost use Rattle.law_acts.specs.Laws.{PromisesActed, BeginsActed, ProposesActed, DueActed, RecordsActed, GathersActed, FinishesActed, EntersActed};

use state_transfer::Receiver;

/// The laws of a change of view, each of one act: a FLUSH whose offer is accepted is promised and reported for; a next proposal with a list that is a view is promised
/// and announced, as is that of the candidates of a member that leads its view, and one that is due; an awaited report is recorded; a chunk for the promised
/// proposal is held; a flush to which all of its list have reported is finished at its cuts; an INSTALL that fits, is of the promised view, whose state is held
/// and can be read is entered.
/// For every receiver that keeps the laws. It does nothing.
pub fn changes_of_view<R: Receiver>()
    ensures promises { PromisesActed R.meaning }
    ensures begins { BeginsActed R.meaning }
    ensures proposes { ProposesActed R.meaning }
    ensures due { DueActed R.meaning }
    ensures records { RecordsActed R.meaning }
    ensures gathers { GathersActed R.meaning }
    ensures finishes { FinishesActed R.meaning }
    ensures enters { EntersActed R.meaning }
{}
