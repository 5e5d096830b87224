//! What a member notes beside its view, and who may be in its next view (docs/PROTOCOL.md, "Candidates").
#![tactic(auto)]

mod law;
mod lists;
mod notes;

pub use law::candidates_are_a_view;
pub use notes::ViewNotes;
