//! The window of a view: the messages that a member holds by their number in the view's one order, and
//! those of them that it delivered (docs/PROTOCOL.md, "Window").
#![tactic(auto)]

mod entry;
mod law;
mod payload;
mod window;

pub use entry::Entry;
pub use law::{beginnings_agree, windows_agree};
pub use payload::OwnedPayload;
pub use window::Window;
