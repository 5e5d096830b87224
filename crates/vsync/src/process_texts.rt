//! The check of the texts of several processes, on files.

ghost use Rattle.std.specs.Prelude.{◌≡◌, true, IfErr};
ghost use Rattle.commands.specs.Processes.{texts_of};
ghost use Rattle.vsync.specs.Kept.{flags_keep_two};
ghost use Rattle.vsync.specs.Ends.{DoesProcesses, EndsBy};

use crate::check_words::ProcessesWords;
use crate::kept_words::Kept;
use crate::output::Output;
use crate::programs::{MAP_AND_LOCKS, bytes_at, bytes_of, complain, mistaken, without_memory};
use chat_log::{ChatLog, LongChat};
use commands::run_check_processes;
use lock_table::LockTable;
use replicated_map::ReplicatedMap;
use std::alloc::Global;
use std::io::{self, Write};
use vsync_text::Status;

/// Checks texts, to a writer, whose members keep this.
fn check_texts<W: Write>(alloc: Global, kept: Kept, texts: &[Vec<u8>], writer: &mut W) -> Status
    ensures { DoesProcesses kept (texts_of texts.now) (W.contents writer.old) (W.contents writer.new) result }
{
    match kept {
        Kept::Chat => run_check_processes::<ChatLog, W>(alloc, texts, writer),
        Kept::LongChat => run_check_processes::<LongChat, W>(alloc, texts, writer),
        Kept::Map => run_check_processes::<ReplicatedMap, W>(alloc, texts, writer),
        Kept::Locks => run_check_processes::<LockTable, W>(alloc, texts, writer),
    }
}

// The text of a path, where `-` is the standard input; or the status with which the program ends.
fn text_at(rt: &HostRuntime, path: &str) -> Result<Vec<u8>, Status>
    ensures { IfErr result (EndsBy Status.Memory) }
{
    if path == "-" {
        let mut input = rt.reader();
        return bytes_of(rt, &mut input, "the standard input");
    }
    bytes_at(rt, path)
}

// The texts of paths, in their order; or the status with which the program ends, by the first that is not read.
fn texts_at(rt: &HostRuntime, paths: &[&str]) -> Result<Vec<Vec<u8>>, Status>
    ensures { IfErr result (EndsBy Status.Memory) }
{
    let mut texts = Vec::new(rt.alloc());
    for path in paths {
        let text = match text_at(rt, path) {
            Ok(text) => text,
            Err(status) => return Err(status),
        };
        let Ok(()) = texts.push(text) else {
            return Err(without_memory(rt));
        };
    }
    Ok(texts)
}

/// Does `check --processes`: reads each text, one after another, and checks them as one trace. A mistake in its words is said on the standard error, with status 2.
pub(crate) fn check_processes(rt: &HostRuntime, words: &ProcessesWords<'_>) -> Status
    ensures { flags_keep_two words.now.flags ≡ true → result ≡ Status.Usage }
{
    if words.flags.are_two() {
        return mistaken(rt, MAP_AND_LOCKS);
    }
    let texts = match texts_at(rt, words.paths.as_slice()) {
        Ok(texts) => texts,
        Err(status) => return status,
    };
    let mut output = Output::new(io::writer(rt));
    let status = check_texts(
        rt.alloc(),
        words.flags.kept(),
        texts.as_slice(),
        &mut output,
    );
    if status == Status::Outside {
        return complain(rt, "cannot write", "the standard output");
    }
    status
}
