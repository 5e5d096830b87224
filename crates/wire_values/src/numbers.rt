ghost use Rattle.std.specs.Prelude.{◌≤◌, IfOk};
ghost use Rattle.wire_values.specs.declared.error.WireError.TheVariants.{Value};
ghost use Rattle.wire_values.specs.Reading.{IsRead, number_at as value_at};

use crate::error::WireError;
use crate::fields::Reader;
use crate::{Count, Number};
use address::limits::GREATEST_NUMBER;

/// Reads a number of eight bytes from `low` to `high`, 1 to 2^62: 20 where bytes are missing, 25 where it is another.
pub fn number_at(low: u64, high: u64, from: &mut Reader<'_>) -> Result<Number, WireError>
    requires low { 1 ≤ low }
    requires high { high ≤ GREATEST_NUMBER }
    ensures gives { IsRead (λ x. (x, from.new)) result (value_at 8 low high Value from.old) }
    ensures in_range { IfOk result (λ x. (low ≤ x) × (x ≤ high)) }
{
    let value = from.u64(low, high, WireError::Value)?;
    Number::new(value).ok_or(WireError::Value)
}

/// Reads a count of eight bytes from `low` to `high`, at most 2^62: 20 where bytes are missing, 25 where it is another.
pub fn count_at(low: u64, high: u64, from: &mut Reader<'_>) -> Result<Count, WireError>
    requires { high ≤ GREATEST_NUMBER }
    ensures gives { IsRead (λ x. (x, from.new)) result (value_at 8 low high Value from.old) }
    ensures in_range { IfOk result (λ x. (low ≤ x) × (x ≤ high)) }
{
    let value = from.u64(low, high, WireError::Value)?;
    Count::new(value).ok_or(WireError::Value)
}
