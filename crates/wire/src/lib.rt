//! Packets and their bytes: each packet has one spelling, and any bytes are a packet's spelling or
//! refused with the first field that fails (docs/WIRE.md).
#![tactic(auto)]

mod law;
mod reading;
mod writing;

pub use law::one_spelling;
pub use reading::decode;
pub use wire_values::{
    Body, Chunk, Count, Entry, GivenState, GroupName, Held, Install, Items, Members, Missing,
    Number, Packet, Payload, Progress, Report, Roster, State, Total, WireError,
};
pub use writing::{encode, put_entry};
