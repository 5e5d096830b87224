ghost use Rattle.wire_values.specs.Reading.{IsRead};
ghost use Rattle.wire_values.specs.Fields.{payload_at};
ghost use Rattle.wire_values.specs.Lists.{state_at};
ghost use Rattle.wire_values.specs.Texts.{group_at};

use crate::error::WireError;
use crate::fields::Reader;
use crate::{GroupName, Payload};
use address::limits::{GROUP_NAME, PAYLOAD};

/// Reads the name of a group: its length, 1 to `GROUP_NAME`, and its bytes, letters, digits, `-` and `_`: 20, 24 for the length, 25 for a byte.
#[tactic(auto, using(crate::proofs::Names::name_is), unfolding(crate::specs::Texts::group_at))]
pub fn group_at<'a>(from: &mut Reader<'a>) -> Result<GroupName<'a>, WireError>
    ensures { IsRead (λ x. (x, from.new)) result (group_at from.old) }
{
    let len = from.u8(1, GROUP_NAME as u8, WireError::Length)?;
    let bytes = from.bytes(len as usize)?;
    GroupName::new(bytes).ok_or(WireError::Value)
}

/// Reads a payload: its length, at most `PAYLOAD`, and its bytes: 20 where bytes are missing, 24 for the length.
#[tactic(auto, unfolding(crate::specs::Fields::payload_at))]
pub fn payload_at<'a>(from: &mut Reader<'a>) -> Result<Payload<'a>, WireError>
    ensures { IsRead (λ x. (x, from.new)) result (payload_at from.old) }
{
    let len = from.u16(0, PAYLOAD as u16, WireError::Length)?;
    let bytes = from.bytes(len as usize)?;
    Payload::new(bytes).ok_or(WireError::Length)
}
