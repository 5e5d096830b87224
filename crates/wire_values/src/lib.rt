//! The values that packets carry, and how each is read from the front of some bytes (docs/WIRE.md).
#![tactic(auto)]

mod entries;
mod error;
mod fields;
mod install;
mod members;
mod numbers;
mod packet;
mod report;
mod state;
mod text;
mod values;

pub use entries::{Held, Items, entry_at};
pub use error::WireError;
pub use fields::Reader;
pub use install::{Install, install_at};
pub use members::{Members, Roster, view_at};
pub use numbers::{count_at, number_at};
pub use packet::{Body, Packet};
pub use report::{Report, report_at};
pub use state::chunk_at;
pub use text::{group_at, payload_at};
pub use values::{
    Chunk, Count, Entry, GivenState, GroupName, Missing, Number, Payload, Progress, State, Total,
};
