//! Bytes in hexadecimal.

use std::alloc::{AllocError, Global};

/// The value of a digit; `None` of another byte.
fn digit(byte: u8) -> Option<u8> {
    match byte {
        b'0'..=b'9' => Some(byte - b'0'),
        b'a'..=b'f' => Some(byte - b'a' + 10),
        _ => None,
    }
}

/// The bytes that a text has in hexadecimal; what is no digit only separates.
pub fn unhex(alloc: Global, text: &[u8]) -> Result<Vec<u8>, AllocError> {
    let mut bytes = Vec::new(alloc);
    let mut high = None;
    for byte in text {
        let Some(value) = digit(*byte) else {
            continue;
        };
        match high {
            None => high = Some(value),
            Some(first) => {
                bytes.push(first.wrapping_mul(16).wrapping_add(value))?;
                high = None;
            }
        }
    }
    Ok(bytes)
}
