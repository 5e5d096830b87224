//! The tickets of writes that clients asked a node for: each is open from the request until it is answered, exactly once (docs/HTTP.md, "Writes").
//! Also what is known of whom a message has reached.
#![tactic(auto)]

mod law;
mod reach;
pub mod story;
mod tickets;

pub use law::{answers_each_once, answers_in_time, answers_truly};
pub use reach::{Place, Reach, reach_of};
pub use tickets::{End, Pending, Stage, Tickets};
