//! What a member does by each rule (docs/PROTOCOL.md). With the messages of its view ("Window", "Stability", "Order"): those of its own that it sends, the
//! packets of messages that come, and what a tick puts out. When others join, leave, are suspected or come of other views, and when time passes while it has
//! no view or is blocked: "Joining", "Suspicion", "Merging". Every function is of a whole member; on an error for want of memory nothing is said of it.
#![tactic(auto)]

mod asking_again;
mod flushing;
mod hearing;
mod joining;
mod leaving;
mod merging;
mod ordering;
mod refusal;
mod sending;
mod taking;
mod ticking;

pub use asking_again::{ask_again, flush_again};
pub use flushing::{on_behind, on_flush, on_report};
pub use hearing::{hears, takes_ack, takes_forward, takes_order, takes_status};
pub use joining::{ask, create, on_join, on_redirect};
pub use leaving::{leave, on_suspect};
pub use merging::{announce_view, on_merge};
pub use ordering::{on_ack, on_forward, on_nak};
pub use refusal::sendable;
pub use sending::send;
pub use taking::{on_order, on_status};
pub use ticking::tick_in_view;
