//! Nets in memory, for tests and stories: one that lists what happens at it, and wires, which carry datagrams between the nodes of one program.
#![tactic(auto)]

mod memory_net;
mod wires;

pub use memory_net::{Listed, MemoryNet, Offered};
pub use wires::{Failing, Wire, Wires};
