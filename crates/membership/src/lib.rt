//! How a member changes its view: it promises proposals, begins flushes, reports, finishes them and enters views (docs/PROTOCOL.md, "Promise", "Flush",
//! "Install", "State transfer"). And the chunks of a state: how it is cut into them, and those that a newcomer holds until it has all.
#![tactic(auto)]

mod beginning;
mod cutting;
mod entering;
mod finishing;
mod giving;
mod held_chunks;
mod installing;
mod member_state;
mod promising;
mod proposing;
mod reporting;
mod sent_install;
mod stop;
mod taking;

pub use beginning::others_of;
pub use cutting::{chunk_count, chunk_of};
pub use entering::view_from;
pub use held_chunks::HeldChunks;
pub use installing::install_sent_to;
pub use member_state::MemberState;
pub use reporting::is_complete;
pub use sent_install::SentInstall;
pub use stop::Stop;
