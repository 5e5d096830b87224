//! Acts: what members may do, one small act after another; what a member decides by, what an act leaves, puts out and lets happen; and what a member does
//! in one rule of a change of view, as acts. And agreement over acts: what then always holds of the packets that were put out and of the trace
//! (docs/PROOF.md, "Agreement over acts").
//!
//! Definitions, and functions that do nothing: their clauses are the laws.
#![tactic(auto)]

mod agreement_law;
mod choices;
mod law;

pub use agreement_law::{agreement, stories_play};
pub use choices::changes_of_view;
pub use law::acts_in_turn;
