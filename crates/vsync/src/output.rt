//! The output of the program.

use std::io::{self, Write};

/// A writer that notes whether a write failed, so that the program can say what did.
#[derive(Drop)]
pub(crate) struct Output<W: Write + Drop> {
    writer: W,
    has_failed: bool,
}

impl<W: Write + Drop> Output<W> {
    /// Nothing was written yet.
    pub(crate) fn new(writer: W) -> Output<W> {
        Output {
            writer,
            has_failed: false,
        }
    }

    /// Whether a write failed.
    pub(crate) fn has_failed(&self) -> bool {
        self.has_failed
    }
}

impl<W: Write + Drop> Write for Output<W> {
    ghost contents = { λ o. W.contents o.writer };

    fn write(&mut self, bytes: &[u8]) -> io::Result<usize> {
        let answer = self.writer.write(bytes);
        match answer {
            Ok(count) if count > 0 => (),
            _ => self.has_failed = true,
        }
        answer
    }

    fn flush(&mut self) -> io::Result<()> {
        let answer = self.writer.flush();
        if answer.is_err() {
            self.has_failed = true;
        }
        answer
    }
}
