//! Deployments: processes that each run one member of a group, over a network that hands over only what was put out; and the copies of a state that they keep.
//! Definitions, and functions that do nothing: their clauses are the laws that what happened is virtually synchronous, and that replicas agree.
#![tactic(auto)]

mod law;
mod replicas;

pub use law::deployments_are_synchronous;
pub use replicas::replicas_agree;
