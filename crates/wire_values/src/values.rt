//! The values that packets carry: numbers, counts, names, payloads, states and messages (docs/WIRE.md, "The parts of a body").

mod entry;
mod numbers;
mod state;
mod text;

pub use entry::Entry;
pub use numbers::{Count, Missing, Number, Progress};
pub use state::{Chunk, GivenState, State, Total, chunk_len};
pub use text::{GroupName, Payload};
