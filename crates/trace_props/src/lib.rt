//! Traces: what happened to the members of a group, and what such a list of events promises.
#![tactic(auto)]

mod event;
mod trace;
mod verdict;

pub use event::{BoxedInstall, Delivery, Event, HandedBack, Install, Message, Numbered, Sending};
pub use trace::Trace;
pub use verdict::{Rule, Verdict};
