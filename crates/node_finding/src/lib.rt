//! How a node finds its group by words: which of two views is the greater one, whom a node asks to be let in, when it makes a group, and when it gives way
//! (docs/RUNNER.md, "Finding", "Giving way").
#![tactic(auto)]

mod finding;
mod lineage;
mod ranks;

pub use finding::{Finder, Standing, Step, Whereabouts, milliseconds};
pub use lineage::Lineage;
