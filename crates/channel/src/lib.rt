//! A channel: what an application holds of a group. It connects, sends, and takes events; whoever runs it carries its packets. Behind it stands one member,
//! and each call is one step of that member (docs/PROTOCOL.md, "The atomic step").
#![tactic(auto)]

mod channel;
mod queues;
mod stage;

pub use channel::Channel;
pub use member::{Error, Heard};
