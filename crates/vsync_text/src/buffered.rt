//! Bytes go into a writer, and what a buffer holds does.

ghost use Rattle.std.specs.Prelude.{◌≡◌, ℕ, [], true, false, take, OnOk, OnErr};
ghost use Rattle.std.specs.Io.KnownBytes.{Appends};

use std::io;
use std::io::Write;

/// How many bytes the buffer holds before they are written.
pub(crate) const PIECE: usize = 32_768;

/// Writes all bytes.
///
/// # Errors
///
/// The writer's own error, or `WriteZero` where it takes no more bytes. Then it took a beginning of them.
#[tactic(auto, using(crate::proofs::LinesWritten::took_more))]
pub fn put_all<W: Write>(writer: &mut W, bytes: &[u8]) -> io::Result<()>
    ensures ok { OnOk result (Appends (W.contents writer.old) (W.contents writer.new) bytes.now) }
    ensures err { OnErr result ((count : ℕ) × Appends (W.contents writer.old) (W.contents writer.new) (take count bytes.now)) }
{
    let mut done = 0;
    while done < bytes.len() {
        let (_, rest) = bytes.split_at(done);
        match writer.write(rest) {
            Ok(0) => return Err(io::Error::from(io::ErrorKind::WriteZero)),
            Ok(count) => done += count,
            Err(error) => return Err(error),
        }
    }
    Ok(())
}

/// Writes what the buffer holds, and empties it. Answers whether the writer took it.
pub(crate) fn settle<W: Write>(writer: &mut W, buffer: &mut Vec<u8>) -> bool
    ensures took { result ≡ true → Appends (W.contents writer.old) (W.contents writer.new) buffer.old.items }
    ensures empty { result ≡ true → buffer.new.items ≡ [] }
    ensures part { result ≡ false → (count : ℕ) × Appends (W.contents writer.old) (W.contents writer.new) (take count buffer.old.items) }
{
    match put_all(writer, buffer.as_slice()) {
        Err(_) => false,
        Ok(()) => {
            buffer.clear();
            true
        }
    }
}
