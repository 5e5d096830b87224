//! What a member keeps of its view, and what it does with the view's messages: the coordinator orders them, the others take them in its order
//! (docs/PROTOCOL.md, "Window", "Stability", "Order").
#![tactic(auto)]

mod answering;
mod coordinator;
mod delivering;
mod follower;
mod ordering;
mod sending;
mod taking;
mod view_state;

pub use coordinator::Coordinator;
pub use delivering::deliver;
pub use follower::Follower;
pub use view_state::ViewState;
