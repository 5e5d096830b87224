//! A member over datagrams: a runner drives a channel over a net, and hands in as suspected whom it does not hear any more (docs/RUNNER.md, "Failure detection").
#![tactic(auto)]

mod failure_detector;
mod notes;
mod offering;
mod pace;
mod peers;
mod runner;

pub use channel::Error;
pub use peers::Peer;
pub use runner::{RECEIVES, Runner};
