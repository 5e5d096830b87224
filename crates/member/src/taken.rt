use crate::Heard;
use step_output::Output;

/// What a step by a datagram comes to.
#[derive(Drop)]
pub struct Taken {
    /// What it puts out.
    pub out: Output,
    /// What packet the datagram spelled, where that is of the member's group, to its address, and from another.
    pub heard: Option<Heard>,
}
