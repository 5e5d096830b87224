//! Who a member is, and what a step of it puts out: packets in bytes, and what happened to it, each in order (docs/PROTOCOL.md, "The atomic step").
#![tactic(auto)]

mod identity;
mod name;
mod output;

pub use identity::Identity;
pub use name::OwnedName;
pub use output::{Outgoing, Output};
