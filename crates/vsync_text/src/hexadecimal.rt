//! Hexadecimal digits as bytes.

ghost use Rattle.std.specs.Prelude.{◌≡◌, ◌<◌, IfOk, MatchOption};
ghost use Rattle.vsync_text.specs.Forms.{hex_value, hex_byte, bytes_of_hex};

use address::Bytes;
use std::alloc::{AllocError, Global};

// The value of each byte as a digit, a point where it is none.
static DIGITS: [u8; 256] = *b"\
    ................................\
    ................\x00\x01\x02\x03\x04\x05\x06\x07\x08\x09......\
    ................................\
    .\x0a\x0b\x0c\x0d\x0e\x0f.........................\
    ................................\
    ................................\
    ................................\
    ................................";

/// The value of a lower case hexadecimal digit; that of a point for any other byte.
fn digit_value(digit: u8) -> u8
    ensures { MatchOption (hex_value digit) (result ≡ 46) (λ v. (result ≡ v) × (v < 16)) }
{
    DIGITS[digit as usize]
}

/// The byte of two digits.
fn hex_byte(high: u8, low: u8) -> Option<u8>
    ensures { result ≡ hex_byte (hex_value high) (hex_value low) }
{
    let high = digit_value(high);
    let low = digit_value(low);
    if (high < 16) & (low < 16) {
        Some(16 * high + low)
    } else {
        None
    }
}

/// The bytes that lower case hexadecimal digits spell, two digits a byte.
pub(crate) fn bytes_in(alloc: Global, digits: &[u8]) -> Result<Option<Bytes>, AllocError>
    ensures { IfOk result (λ read. read ≡ bytes_of_hex digits.now) }
{
    let mut bytes = Vec::with_capacity(alloc, digits.len() / 2)?;
    let mut rest = digits;
    while let Some((high, behind)) = rest.split_first() {
        let Some((low, behind)) = behind.split_first() else {
            return Ok(None);
        };
        let Some(byte) = hex_byte(*high, *low) else {
            return Ok(None);
        };
        bytes.push_reserved(byte);
        rest = behind;
    }
    Ok(Some(Bytes::from_vec(bytes)))
}
