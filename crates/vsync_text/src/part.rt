//! A text of several parts, appended by one call.

ghost use Rattle.std.specs.Prelude.{◌≡◌, ◌++◌, flat_map, OnOk};
ghost use Rattle.vsync_text.specs.TraceText.{GoesOnFrom};
ghost use Rattle.vsync_text.specs.Parts.{text_of_part};

use crate::append::{put, put_address, put_decimal, put_number};
use address::{Address, ViewId};
use std::alloc::AllocError;

/// A part of a text.
#[derive(Clone, Copy)]
pub enum Part<'a> {
    /// These bytes.
    Text(&'a [u8]),
    /// A number in decimal.
    Number(u64),
    /// An address as `3.1`.
    Address(Address),
    /// A view id as `7@3.1`.
    View(ViewId),
}

/// Appends a part.
fn put_part(out: &mut Vec<u8>, part: &Part<'_>) -> Result<(), AllocError>
    ensures text { OnOk result (out.new.items ≡ out.old.items ++ text_of_part part.now) }
    ensures kept { GoesOnFrom out.old.items out.new.items }
{
    match part {
        Part::Text(bytes) => put(out, bytes),
        Part::Number(number) => put_decimal(out, *number),
        Part::Address(address) => {
            put_decimal(out, u64::from(address.node().number()))?;
            put_number(out, b'.', u64::from(address.incarnation()))
        }
        Part::View(view) => {
            put_decimal(out, view.counter())?;
            put_address(out, b'@', &view.creator())
        }
    }
}

/// Appends parts, one behind the other. Where memory is refused, what stood before is kept, and a part may have been appended.
pub fn put_parts(out: &mut Vec<u8>, parts: &[Part<'_>]) -> Result<(), AllocError>
    ensures text { OnOk result (out.new.items ≡ out.old.items ++ flat_map text_of_part parts.now) }
    ensures kept { GoesOnFrom out.old.items out.new.items }
{
    for part in parts {
        put_part(out, part)?;
    }
    Ok(())
}
