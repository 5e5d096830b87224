//! A member of a group behind one call: an input comes in, packets and events come out (docs/PROTOCOL.md). What it does by each input and each kind of
//! packet is said in `member_rules`, and that it goes on by nothing but acts in the crate `law_acts` (docs/PROOF.md, "Agreement over acts").
#![tactic(auto)]

mod error;
mod handling;
mod heard;
mod hearing;
mod input;
mod member;
mod rules;
mod taken;
mod watching;

pub use error::Error;
pub use heard::Heard;
pub use input::Input;
pub use member::Member;
pub use taken::Taken;
