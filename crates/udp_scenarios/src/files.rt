//! The files beside the program: blocks, each of which ends with a line of three dashes. The first line of a block is a comment that says what it shows.

use std::fs;
use std::io::{self, Read};

/// What ends a block.
const END: &[u8] = b"---\n";

/// The bytes of a file.
pub fn bytes_of(rt: &HostRuntime, path: &str) -> io::Result<Vec<u8>> {
    let mut bytes = Vec::new(rt.alloc());
    fs::open(rt, path)?.read_to_end(&mut bytes)?;
    Ok(bytes)
}

/// The first block, and what stands behind it; `None` where there is none.
pub fn first_block(text: &[u8]) -> Option<(&[u8], &[u8])> {
    let end = text.windows(END.len()).position(|word| word == END)?;
    let (block, rest) = text.split_at(end.min(text.len()));
    match rest.get(END.len()..) {
        Some(behind) => Some((block, behind)),
        None => None,
    }
}

/// The first line of a block.
pub fn first_line(block: &[u8]) -> &[u8] {
    let end = block.iter().position(|byte| *byte == b'\n');
    let (line, _) = block.split_at(end.unwrap_or(block.len()).min(block.len()));
    line
}
