ghost use Rattle.std.specs.Prelude.{◌≡◌, ◌≢◌, ◌⊎◌, ◌<◌, [], true, length, map, string_bytes, IfErr, IfSome, MatchResult};
ghost use Rattle.clap.specs.Words.{kind_of};
ghost use Rattle.vsync.specs.Ends.{DoesBy, DoesWith, EndsBy, EndsByFault};
ghost use Rattle.vsync.specs.Kept.{flags_keep, flags_keep_two};
ghost use Rattle.vsync.specs.Words.{faults_of};

use crate::explaining::explain_code;
use crate::kept_words::Kept;
use crate::output::Output;
use crate::process_texts::check_processes;
use crate::text_words::{Task, TextCommand};
use crate::udp_programs::{member, udp};
use crate::words::{Invocation, command};
use application::Application;
use chat_log::{ChatLog, LongChat};
use clap::Error;
use clap::error::ErrorKind;
use commands::{
    run_check, run_draw, run_draw_trace, run_packets, run_script, run_states, settle_script,
};
use lock_table::LockTable;
use replicated_map::ReplicatedMap;
use std::alloc::Global;
use std::io::{Read, Write};
use std::{env, fs, io};
use vsync_text::{Status, Unreadable, read_all};

/// Says something on the standard error.
pub(crate) fn say(rt: &HostRuntime, what: &str) {
    let _ = eprintln!(rt; "vsync: {what}");
}

/// Says on the standard error why the program ends with status 5.
pub(crate) fn complain(rt: &HostRuntime, what: &str, path: &str) -> Status
    ensures { result ≡ Status.Outside }
{
    let _ = eprintln!(rt; "vsync: {what} {path}");
    Status::Outside
}

/// What is wrong with words by which members would keep a map and locks.
pub(crate) const MAP_AND_LOCKS: &str = "the argument '--map' cannot be used with '--locks'";

/// Says what is wrong with words that clap took.
pub(crate) fn mistaken(rt: &HostRuntime, what: &str) -> Status
    ensures { result ≡ Status.Usage }
{
    let _ = eprintln!(rt; "error: {what}\n\nFor more information, try '--help'.");
    Status::Usage
}

/// Ends for want of memory.
pub(crate) fn without_memory(rt: &HostRuntime) -> Status
    ensures { EndsBy Status.Memory result }
{
    if println!(rt; "# memory").is_err() {
        return Status::Outside;
    }
    Status::Memory
}

/// Says why the outside answered an error: for want of memory, or it failed.
pub(crate) fn failed(rt: &HostRuntime, error: &io::Error, what: &str, path: &str) -> Status
    ensures { EndsBy Status.Memory result }
{
    if error.kind() == io::ErrorKind::OutOfMemory {
        return without_memory(rt);
    }
    complain(rt, what, path)
}

/// Does a task on its text, to a writer, where members keep `A`.
fn answer_with<A: Application, I: Read, W: Write>(
    alloc: Global,
    task: Task,
    reader: &mut I,
    writer: &mut W,
) -> Status
    ensures { DoesWith A.meaning A.payload_of A.line_of task (I.remaining reader.old) (W.contents writer.old) (W.contents writer.new) result }
{
    match task {
        Task::World => run_script::<A, I, W>(alloc, reader, writer),
        Task::States => run_states::<A, I, W>(alloc, reader, writer),
        Task::Packets => run_packets::<A, I, W>(alloc, reader, writer),
        Task::Settle => settle_script::<A, I, W>(alloc, false, reader, writer),
        Task::SettleDeliver => settle_script::<A, I, W>(alloc, true, reader, writer),
        Task::Check => run_check::<A, I, W>(alloc, reader, writer),
        Task::Draw => run_draw::<A, I, W>(alloc, false, reader, writer),
        Task::DrawPackets => run_draw::<A, I, W>(alloc, true, reader, writer),
        Task::DrawTrace => run_draw_trace::<A, I, W>(alloc, reader, writer),
    }
}

/// Does a command on its input, to a writer: what members keep, the command says.
fn answer<I: Read, W: Write>(
    alloc: Global,
    command: TextCommand<'_>,
    reader: &mut I,
    writer: &mut W,
) -> Status
    ensures { DoesBy (flags_keep command.entry.flags) command.entry.task (I.remaining reader.old) (W.contents writer.old) (W.contents writer.new) result }
{
    let task = command.task;
    match command.flags.kept() {
        Kept::Chat => answer_with::<ChatLog, I, W>(alloc, task, reader, writer),
        Kept::LongChat => answer_with::<LongChat, I, W>(alloc, task, reader, writer),
        Kept::Map => answer_with::<ReplicatedMap, I, W>(alloc, task, reader, writer),
        Kept::Locks => answer_with::<LockTable, I, W>(alloc, task, reader, writer),
    }
}

/// Whether a picture is drawn.
fn is_drawing(task: Task) -> bool {
    match task {
        Task::Draw | Task::DrawPackets | Task::DrawTrace => true,
        _ => false,
    }
}

/// The bytes of the file of a path; or the status with which the program ends.
pub(crate) fn bytes_at(rt: &HostRuntime, path: &str) -> Result<Vec<u8>, Status>
    ensures { IfErr result (EndsBy Status.Memory) }
{
    match fs::open(rt, path) {
        Ok(file) => {
            let mut file = file;
            bytes_of(rt, &mut file, path)
        }
        Err(error) => Err(failed(rt, &error, "cannot open", path)),
    }
}

/// All that a reader has left; or the status with which the program ends.
pub(crate) fn bytes_of<I: Read>(
    rt: &HostRuntime,
    reader: &mut I,
    name: &str,
) -> Result<Vec<u8>, Status>
    ensures { MatchResult result (λ bytes. IfSome (I.remaining reader.old) (λ left. bytes.items ≡ left)) (EndsBy Status.Memory) }
{
    match read_all(rt.alloc(), reader) {
        Ok(bytes) => Ok(bytes),
        Err(Unreadable::Memory) => Err(without_memory(rt)),
        Err(Unreadable::Failed) => Err(complain(rt, "a read failed:", name)),
    }
}

/// Says on the standard error which of both failed: the output, or else what is read.
pub(crate) fn outside(rt: &HostRuntime, is_unwritten: bool, path: &str) -> Status
    ensures { result ≡ Status.Outside }
{
    if is_unwritten {
        return complain(rt, "cannot write", "the standard output");
    }
    complain(rt, "a read failed:", path)
}

/// What a command's status says where it ended outside, on the standard error; and that memory was refused, where it draws: no picture has a line for that.
fn explained(
    rt: &HostRuntime,
    status: Status,
    drawing: bool,
    is_unwritten: bool,
    path: &str,
) -> Status
    ensures { result ≡ status }
{
    if status == Status::Outside {
        return outside(rt, is_unwritten, path);
    }
    if drawing && status == Status::Memory {
        let _ = eprintln!(rt; "# memory");
    }
    status
}

/// Does a command on its input, which has a name, to the standard output.
fn answer_input<I: Read>(
    rt: &HostRuntime,
    command: TextCommand<'_>,
    reader: &mut I,
    name: &str,
) -> Status {
    let drawing = is_drawing(command.task);
    let mut output = Output::new(io::writer(rt));
    let status = answer(rt.alloc(), command, reader, &mut output);
    explained(rt, status, drawing, output.has_failed(), name)
}

/// Does a command on the file of its path; `-` is the standard input. A mistake in its words is said on the standard error, with status 2.
fn answer_at(rt: &HostRuntime, command: TextCommand<'_>) -> Status
    ensures { flags_keep_two command.entry.flags ≡ true → result ≡ Status.Usage }
{
    if command.flags.are_two() {
        return mistaken(rt, MAP_AND_LOCKS);
    }
    let path = command.path;
    if path == "-" {
        return answer_input(rt, command, &mut rt.reader(), "the standard input");
    }
    match fs::open(rt, path) {
        Ok(file) => {
            let mut file = file;
            answer_input(rt, command, &mut file, path)
        }
        Err(error) => failed(rt, &error, "cannot open", path),
    }
}

/// Prints what clap says of words that are no command, or the help that was asked for.
fn explain(rt: &HostRuntime, error: Error) -> Status
    ensures memory { kind_of error ≡ ErrorKind.OutOfMemory → EndsBy Status.Memory result }
    ensures help { (kind_of error ≡ ErrorKind.DisplayHelp) ⊎ (kind_of error ≡ ErrorKind.DisplayVersion)
        → EndsBy Status.Done result }
    ensures mistake { kind_of error ≢ ErrorKind.OutOfMemory → kind_of error ≢ ErrorKind.DisplayHelp
        → kind_of error ≢ ErrorKind.DisplayVersion → EndsBy Status.Usage result }
{
    if error.kind() == ErrorKind::OutOfMemory {
        return without_memory(rt);
    }
    let printed = error.print(rt);
    if printed.is_err() {
        return Status::Outside;
    }
    if error.use_stderr() {
        Status::Usage
    } else {
        Status::Done
    }
}

/// Does what the words of a command line ask for, or says why they are no command.
fn obey(rt: &HostRuntime, words: &[String]) -> Status
    ensures { let faults = faults_of (map string_bytes words.now) in
        1 < length words.now → faults ≢ [] → EndsByFault faults result }
{
    match command(rt.alloc(), words) {
        Ok(Invocation::Text(command)) => answer_at(rt, command),
        Ok(Invocation::Processes(words)) => check_processes(rt, &words),
        Ok(Invocation::Udp(words)) => udp(rt, &words),
        Ok(Invocation::Member(words)) => member(rt, &words),
        Ok(Invocation::Explain(code)) => explain_code(rt, code),
        Err(error) => explain(rt, error),
    }
}

/// The program `vsync`: does what its words ask for, and answers the exit status (docs/CLI.md).
pub fn program(rt: &HostRuntime) -> Status {
    let mut words = Vec::new(rt.alloc());
    match env::args(rt) {
        Ok(all) => {
            for word in all {
                if words.push(word).is_err() {
                    return without_memory(rt);
                }
            }
        }
        Err(error) => {
            return failed(rt, &error, "cannot read", "the words of the command line");
        }
    }
    obey(rt, words.as_slice())
}
