//! The rules of a trace, one by one: what is known of the events so far, the states of those who keep copies, and whether the next event keeps a rule
//! (docs/GUARANTEES.md, "The eight rules").
#![tactic(auto)]

mod judge;
mod known;

pub use judge::{
    keeps_handed_back, keeps_messages, keeps_next, keeps_placed, keeps_together, keeps_views,
};
pub use known::{Past, States};
