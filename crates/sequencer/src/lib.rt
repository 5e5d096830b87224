//! The order of a view's messages: a member's own messages that were not delivered yet, and the queues from which the first
//! member puts all messages into one order (docs/PROTOCOL.md, "Order").
#![tactic(auto)]

mod forward;
mod forwards;
mod orderer;
mod queue;

pub use forward::Forward;
pub use forwards::Forwards;
pub use orderer::Orderer;
