//! Where a program of one's own keeps its node's last incarnation, so that no address is used twice (docs/EMBEDDING.md, "What your program has to do").

use std::io::ErrorKind;
use std::rt::Files;
use std::{fs, io};

// The incarnation of a file; 0 if there is no file yet.
fn last_incarnation<R: Files + AllocGlobal>(rt: &R, path: &str) -> io::Result<u32> {
    let text = match fs::read_to_string(rt, path) {
        Ok(text) => text,
        Err(error) if error.kind() == ErrorKind::NotFound => return Ok(0),
        Err(error) => return Err(error),
    };
    match text.as_str().trim().parse() {
        Ok(last) => Ok(last),
        Err(_) => Err(io::Error::from(ErrorKind::InvalidData)),
    }
}

/// The next incarnation of a node, by its file: 1 if there is no file yet, else one more than what is there. It is written before it is used: to a new file (`PATH.new`),
/// which then takes the place of the old one.
///
/// # Errors
///
/// `InvalidData` where the file has other text, or the last incarnation that there is. Else what the system says of the file. The old file stands then as it was.
pub fn next_incarnation<R: Files + AllocGlobal>(rt: &R, path: &str) -> io::Result<u32> {
    let Some(next) = last_incarnation(rt, path)?.checked_add(1) else {
        return Err(io::Error::from(ErrorKind::InvalidData));
    };
    let new = format!(in rt.alloc(); "{path}.new")?;
    let text = format!(in rt.alloc(); "{next}\n")?;
    fs::write(rt, new.as_str(), text.as_bytes())?;
    fs::rename(rt, new.as_str(), path)?;
    Ok(next)
}
