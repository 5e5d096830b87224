//! The promise of a member: the greatest proposal of a view that it took, and whether that view is installed
//! (docs/PROTOCOL.md, "Promise").
#![tactic(auto)]

mod law;
mod promise;

pub use law::promises_rise;
pub use promise::{InstallAnswer, OfferAnswer, Promise};
