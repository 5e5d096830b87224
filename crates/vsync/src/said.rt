//! Lines that are appended to a file.

ghost use Rattle.std.specs.Prelude.{None};

use std::alloc::{AllocError, Global};
use std::fs;
use std::io::{self, Read, Seek, SeekFrom};
use std::time::Duration;
use udp_runs::{Lines, LinesError};

/// How much is read at a time, in bytes.
const PIECE: usize = 65_536;

/// How often it is looked whether the file has grown, in milliseconds. A look takes some 20 microseconds of a processor, most of them to sleep and to wake.
const LOOKS: u64 = 10;

/// The lines that are appended to a file. It is looked for by its path each time, so that it is known when it is there no longer; where it has become shorter, it is read from its
/// beginning.
pub(crate) struct Appended<'a> {
    rt: &'a HostRuntime,
    path: &'a str,
    // How much of the file was read, or was there before.
    past: u64,
    buffer: Vec<u8>,
}

impl Drop for Appended<'_> {
    fn drop(self) {
        let Appended {
            rt: _,
            path: _,
            past: _,
            buffer: _,
        } = self;
    }
}

impl<'a> Appended<'a> {
    /// The lines that are appended to the file of a path from now on.
    pub(crate) fn new(
        alloc: Global,
        rt: &'a HostRuntime,
        path: &'a str,
    ) -> io::Result<Appended<'a>> {
        let buffer = vec![in alloc; 0u8; PIECE]?;
        let _can_be_read = fs::open(rt, path)?;
        let past = fs::metadata(rt, path)?.len();
        Ok(Appended {
            rt,
            path,
            past,
            buffer,
        })
    }

    // Reads what comes next in the file; answers how much.
    fn read(&mut self) -> io::Result<usize> {
        let length = fs::metadata(self.rt, self.path)?.len();
        if length == self.past {
            return Ok(0);
        }
        if length < self.past {
            self.past = 0;
        }
        let mut file = fs::open(self.rt, self.path)?;
        file.seek(SeekFrom::Start(self.past))?;
        file.read(self.buffer.as_mut_slice())
    }
}

impl<'a> Lines for Appended<'a> {
    ghost came = { λ _. None };

    fn more(&mut self, text: &mut Vec<u8>) -> Result<(), LinesError> {
        let Ok(count) = self.read() else {
            return Err(LinesError::Gone);
        };
        let Some(came) = self.buffer.as_slice().get(..count) else {
            return Err(LinesError::Gone);
        };
        text.extend_from_slice(came)?;
        self.past = self.past.saturating_add(count as u64);
        Ok(())
    }

    fn rest(&self, left: Duration) -> Duration {
        left.min(Duration::from_millis(LOOKS))
    }
}
