//! States and their chunks, read from the front of some bytes.

ghost use Rattle.wire_values.specs.Reading.{IsRead};
ghost use Rattle.wire_values.specs.Lists.{total_at, whole_at, state_at, chunk_at};

use crate::error::WireError;
use crate::fields::Reader;
use crate::values::chunk_len;
use crate::{Chunk, GivenState, State, Total};
use address::limits::{CHUNK, STATE, WHOLE_STATE};

#[tactic(auto, unfolding(crate::specs::Lists::total_at))]
fn total_at(from: &mut Reader<'_>) -> Result<Total, WireError>
    ensures { IsRead (λ x. (x, from.new)) result (total_at from.old) }
{
    let total = from.u32(WHOLE_STATE as u32 + 1, STATE as u32, WireError::Length)?;
    Total::new(total).ok_or(WireError::Length)
}

#[tactic(auto, unfolding(crate::specs::Lists::whole_at))]
fn whole_at<'a>(from: &mut Reader<'a>) -> Result<GivenState<'a>, WireError>
    ensures { IsRead (λ x. (x, from.new)) result (whole_at from.old) }
{
    let len = from.u32(0, WHOLE_STATE as u32, WireError::Length)?;
    let bytes = from.bytes(len as usize)?;
    match State::new(bytes) {
        Some(state) => Ok(GivenState::Whole(state)),
        None => Err(WireError::Length),
    }
}

#[tactic(auto, unfolding(crate::specs::Lists::state_at, crate::specs::Lists::chunked_at))]
pub(crate) fn state_at<'a>(from: &mut Reader<'a>) -> Result<GivenState<'a>, WireError>
    ensures { IsRead (λ x. (x, from.new)) result (state_at from.old) }
{
    let flag = from.u8(0, 2, WireError::Value)?;
    match flag {
        0 => Ok(GivenState::Nothing),
        1 => whole_at(from),
        _ => Ok(GivenState::Chunked(total_at(from)?)),
    }
}

#[tactic(auto, unfolding(crate::specs::Lists::chunk_at, crate::specs::Lists::index_at))]
pub fn chunk_at<'a>(from: &mut Reader<'a>) -> Result<Chunk<'a>, WireError>
    ensures { IsRead (λ x. (x, from.new)) result (chunk_at from.old) }
{
    let total = total_at(from)?;
    let index = from.u8(1, 255, WireError::Value)?;
    if CHUNK * (index as usize - 1) >= total.get() as usize {
        return Err(WireError::Value);
    }
    let bytes = from.bytes(chunk_len(total.get(), index))?;
    Chunk::new(total, index, bytes).ok_or(WireError::Value)
}
