//! Runners of a deployment: what processes do that runners drive over nets, and the law that what happened is virtually synchronous; over nets of sealed frames whoever else
//! sends to their ports. Definitions, and functions that do nothing: their clauses are the law.
#![tactic(auto)]

mod channels;
mod law;
mod sealed;

pub use channels::calls_are_steps;
pub use law::runners_are_synchronous;
pub use sealed::sealed_runners_are_synchronous;
