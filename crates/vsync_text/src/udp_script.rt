ghost use Rattle.std.specs.Prelude.{◌≡◌, MatchResult};
ghost use Rattle.std.specs.Option.{option_copied};
ghost use Rattle.vsync_text.specs.UdpScript.{numbered, udp_said, udp_script_of};
ghost use Rattle.vsync_text.specs.Texts.{and_then, reading_by, HasRead, IsReadUnlessRefused, IsUnread};

use crate::field::{first_field, first_line, lone_number};
use crate::script_line::{NodeWord, Word, event_of, is_skipped, word_of};
use crate::{AsWritten, Fault, Unheard, Unread, is_word};
use address::limits::SCRIPT_LINE;
use std::alloc::{AllocError, Global};
use world_model::WorldEvent;

/// The most rounds that a line of a script, or a command, asks for.
pub const ROUNDS: u64 = 1_000_000;

/// What a line of a script for nodes over UDP says.
pub enum UdpEvent {
    /// An event of one node, neither `Deliver` nor `Tick`.
    Node(WorldEvent),
    /// So many rounds of each node that runs, 0 to `ROUNDS`.
    Rounds(u64),
}

impl Drop for UdpEvent {
    fn drop(self) {
        match self {
            UdpEvent::Node(_) => {}
            UdpEvent::Rounds(_) => {}
        }
    }
}

/// A line of a script for nodes over UDP that says something.
#[derive(Drop)]
pub struct UdpLine {
    /// Its number in the script, from 1.
    pub number: u64,
    /// What it says.
    pub event: UdpEvent,
}

/// What a line says that is not skipped. A delivery and a tick are no words: they are the net's and the rounds' here.
fn said(alloc: Global, line: &[u8]) -> Result<UdpEvent, Unheard>
    ensures { IsReadUnlessRefused (λ x. x) result (udp_said line.now) }
{
    if line.len() > SCRIPT_LINE {
        return Err(Unheard::Fault(Fault::LineTooLong));
    }
    let (name, rest) = first_field(line);
    if is_word(name, b"rounds") {
        return Ok(UdpEvent::Rounds(lone_number(0, ROUNDS, rest)?));
    }
    match word_of(name) {
        None | Some(Word::Deliver) | Some(Word::Node(NodeWord::Tick)) => {
            Err(Unheard::Fault(Fault::UnknownWord))
        }
        Some(word) => Ok(UdpEvent::Node(event_of::<AsWritten>(alloc, word, rest)?)),
    }
}

/// Adds what a line of this number says.
fn read_on(alloc: Global, lines: &mut Vec<UdpLine>, number: u64, line: &[u8]) -> Result<(), Unread>
    ensures { HasRead (and_then numbered) lines.old.items number (reading_by udp_said line.now) result lines.new.items }
{
    if is_skipped(line) {
        return Ok(());
    }
    match said(alloc, line) {
        Err(unheard) => Err(unheard.at(number)),
        Ok(event) => match lines.push(UdpLine { number, event }) {
            Err(_) => Err(Unread::Memory),
            Ok(()) => Ok(()),
        },
    }
}

/// Reads a script for nodes over UDP, in one pass: as `read_script` does, but that `rounds K`, K a number from 0 to `ROUNDS`, is a line of it, and `deliver` and
/// `tick` are no words of it. Answers the lines that say something, in order.
///
/// # Errors
///
/// Those of `read_script`.
#[tactic(auto, using(crate::proofs::ScriptsRead::udp_script_is_going_on))]
pub fn read_udp_script(alloc: Global, text: &[u8]) -> Result<Vec<UdpLine>, Unread>
    ensures { MatchResult result (λ lines. udp_script_of text.now ≡ Ok lines.items) (IsUnread (udp_script_of text.now)) }
{
    let mut lines = Vec::new(alloc);
    let mut rest = text;
    let mut number: u64 = 0;
    while !rest.is_empty() {
        let (line, behind) = first_line(rest);
        number += 1;
        read_on(alloc, &mut lines, number, line)?;
        rest = behind;
    }
    Ok(lines)
}
