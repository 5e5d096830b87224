//! Where a node keeps its last incarnation.

ghost use Rattle.std.specs.Prelude.{◌≡◌, ◌≤◌, ◌<◌, IfOk, IfSome};

use address::Address;
use address::limits::GREATEST_INCARNATION;
use std::alloc::{AllocError, Global};
use std::fs::{self, OpenFile};
use std::io::{self, ErrorKind, Write};
use std::rt::Clock;
use vsync_text::{Unreadable, number_in, read_all};

/// Why a node has no next incarnation.
#[derive(Clone, Copy, Debug, thiserror::Error)]
pub(crate) enum IncarnationError {
    /// The file's text is no incarnation.
    #[error("no incarnation in")]
    NotOne,
    /// Its incarnations are used up.
    #[error("the incarnations are used up in")]
    UsedUp,
    /// The file cannot be read.
    #[error("cannot read")]
    Unread,
    /// The next incarnation cannot be written.
    #[error("cannot write")]
    Unwritten,
    /// Memory was refused.
    #[error("no memory for")]
    Memory,
}

// The incarnation of a text: a number in decimal digits, and perhaps a line feed.
fn incarnation_in(text: &[u8]) -> Option<u64> {
    let digits = match text {
        [digits @ .., b'\n'] => digits,
        digits => digits,
    };
    number_in(1, GREATEST_INCARNATION, digits)
}

// The last incarnation of a file; `None` where there is no file yet.
fn last_in(rt: &HostRuntime, alloc: Global, path: &str) -> Result<Option<u64>, IncarnationError> {
    let mut file = match fs::open(rt, path) {
        Ok(file) => file,
        Err(error) if error.kind() == ErrorKind::NotFound => return Ok(None),
        Err(_) => return Err(IncarnationError::Unread),
    };
    match read_all(alloc, &mut file) {
        Ok(text) => match incarnation_in(text.as_slice()) {
            Some(last) => Ok(Some(last)),
            None => Err(IncarnationError::NotOne),
        },
        Err(Unreadable::Memory) => Err(IncarnationError::Memory),
        Err(Unreadable::Failed) => Err(IncarnationError::Unread),
    }
}

// Writes a text to a file so that it is there also after the machine has failed.
fn write_synced(rt: &HostRuntime, path: &str, text: &[u8]) -> io::Result<()> {
    let mut file = fs::create(rt, path)?;
    file.write_all(text)?;
    file.sync_all()
}

/// The path of the new file beside one, whose place it is to take.
pub(crate) fn beside(alloc: Global, path: &str) -> Result<String, AllocError> {
    format!(in alloc; "{path}.new")
}

// Has the names in the folder of a path be there also after the machine has failed.
fn sync_folder(rt: &HostRuntime, path: &str) -> io::Result<()> {
    let folder = match path.rsplit_once('/') {
        Some(("", _)) => "/",
        Some((folder, _)) => folder,
        None => ".",
    };
    fs::open(rt, folder)?.sync_all()
}

// Writes a text to a new file, which then takes the place of another. Both the file and its name are synced.
fn replace_synced(rt: &HostRuntime, new: &str, path: &str, text: &[u8]) -> io::Result<()> {
    write_synced(rt, new, text)?;
    fs::rename(rt, new, path)?;
    // Some file systems cannot sync a folder: there the last file may come back when the machine fails.
    let _ = sync_folder(rt, path);
    Ok(())
}

// Writes the incarnation of an address to a file: to a new one beside it, which then takes its place. Both the file and its name are synced before it is used.
fn write(
    rt: &HostRuntime,
    alloc: Global,
    path: &str,
    address: Address,
) -> Result<(), IncarnationError> {
    let Ok(new) = beside(alloc, path) else {
        return Err(IncarnationError::Memory);
    };
    let incarnation = address.incarnation();
    let Ok(text) = format!(in alloc; "{incarnation}\n") else {
        return Err(IncarnationError::Memory);
    };
    match replace_synced(rt, new.as_str(), path, text.as_bytes()) {
        Ok(()) => Ok(()),
        Err(_) => Err(IncarnationError::Unwritten),
    }
}

// The seconds of the system's clock, as an incarnation; 0 where there is no clock, or it is past all incarnations.
fn clock_of(rt: &HostRuntime) -> u64 {
    match rt.since_1970() {
        Ok(time) if time.as_secs() <= GREATEST_INCARNATION => time.as_secs(),
        _ => 0,
    }
}

// The incarnation after the last one, if there was one: no less than the least, nor than that of the clock; `None` where the incarnations are used up.
fn incarnation_after(least: Address, last: Option<u64>, clock: u64) -> Option<Address>
    ensures node { IfSome result (λ a. a.node ≡ least.node) }
    ensures least { IfSome result (λ a. least.incarnation ≤ a.incarnation) }
    ensures last { IfSome result (λ a. IfSome last (λ n. n < a.incarnation)) }
    ensures clock { IfSome result (λ a. clock ≤ a.incarnation) }
{
    let after = match last {
        Some(last) => last.checked_add(1)?,
        None => 0,
    };
    let next = after.max(clock).max(u64::from(least.incarnation()));
    let Ok(incarnation) = u32::try_from(next) else {
        return None;
    };
    Address::new(least.node(), incarnation)
}

/// An address with which a node starts.
#[derive(Clone, Copy)]
pub(crate) struct Start {
    /// The address.
    pub(crate) address: Address,
    /// Whether no file had its last incarnation, so that the clock gave it.
    pub(crate) is_by_clock: bool,
}

/// The address of a node's next incarnation, which is written to its file and synced: one more than the last one, but no less than that of the address that is given, and that one
/// where there is no file yet. Where it may go by the clock, and there is no file or one with another text, it is no less than the seconds of the system's clock either. After an
/// error nothing was written, or the file has the last one or the next.
pub(crate) fn next_start(
    rt: &HostRuntime,
    alloc: Global,
    path: &str,
    least: Address,
    goes_by_clock: bool,
) -> Result<Start, IncarnationError>
    ensures node { IfOk result (λ start. start.address.node ≡ least.node) }
    ensures least { IfOk result (λ start. least.incarnation ≤ start.address.incarnation) }
{
    let last = match last_in(rt, alloc, path) {
        Err(IncarnationError::NotOne) if goes_by_clock => None,
        Err(error) => return Err(error),
        Ok(last) => last,
    };
    let is_by_clock = last.is_none() && goes_by_clock;
    let clock = if is_by_clock { clock_of(rt) } else { 0 };
    let Some(address) = incarnation_after(least, last, clock) else {
        return Err(IncarnationError::UsedUp);
    };
    write(rt, alloc, path, address)?;
    Ok(Start {
        address,
        is_by_clock,
    })
}

/// The address of a node's next incarnation where no file keeps it: no less than the one that is given, nor than the seconds of the system's clock.
pub(crate) fn start_by_clock(rt: &HostRuntime, least: Address) -> Address
    ensures node { result.node ≡ least.node }
    ensures least { least.incarnation ≤ result.incarnation }
{
    match incarnation_after(least, None, clock_of(rt)) {
        Some(address) => address,
        None => least,
    }
}
