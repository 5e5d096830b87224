//! Fencing: what virtual synchrony makes of the tokens of a table of locks, and a guard that checks them (docs/RECEIVERS.md, "The table of locks").
#![tactic(auto)]

mod guard;
mod law;

pub use guard::Guard;
pub use law::{deployments_fence, guards_refuse_older, tokens_fence};
