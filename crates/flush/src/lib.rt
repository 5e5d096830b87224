//! The flush of a view's members before the next view: who reported what, who goes on together, and the cut at which they do
//! (docs/PROTOCOL.md, "Flush").
#![tactic(auto)]

mod cut;
mod flushing;
mod law;
mod owned_report;
mod progress;

pub use cut::Cut;
pub use flushing::Flush;
pub use law::cut_covers;
pub use progress::Progress;
