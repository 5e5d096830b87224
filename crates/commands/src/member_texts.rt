//! The text of a process: what happened to its member, with the line of the member's state in it.

ghost use Rattle.std.specs.Prelude.{◌≡◌, Ok, IfOk, MatchResult};
ghost use Rattle.vsync_text.specs.Texts.{IsUnread};
ghost use Rattle.std.specs.Option.{option_copied};
ghost use Rattle.commands.specs.MemberTexts.{is_state_word, names_member, is_state_line, told_of_trace, member_trace_of};

use std::alloc::{AllocError, Global};
use trace_props::Trace;
use vsync_text::{Unread, address_in, first_field, first_line, is_word, read_trace};

// Whether the line of a state begins with this word.
fn is_state_word(word: &[u8]) -> bool
    ensures { result ≡ is_state_word word.now }
{
    is_word(word, b"chat") || is_word(word, b"map") || is_word(word, b"locks")
}

// Whether an address stands in front of what is left of a line, and more behind it.
fn names_member(rest: Option<&[u8]>) -> bool
    ensures { result ≡ names_member (option_copied rest.entry) }
{
    let Some(rest) = rest else {
        return false;
    };
    let (member, state) = first_field(rest);
    address_in(member).is_some() && state.is_some()
}

// Whether a line is that of a member's state.
fn is_state_line(line: &[u8]) -> bool
    ensures { result ≡ is_state_line line.now }
{
    let (word, rest) = first_field(line);
    is_state_word(word) && names_member(rest)
}

// A text whose lines of states are empty.
fn told_of_trace(alloc: Global, text: &[u8]) -> Result<Vec<u8>, AllocError>
    ensures { IfOk result (λ told. told.items ≡ told_of_trace text.now) }
{
    let mut told = Vec::new(alloc);
    let mut rest = text;
    while !rest.is_empty() {
        let (line, behind) = first_line(rest);
        if !is_state_line(line) {
            told.extend_from_slice(line)?;
        }
        told.push(b'\n')?;
        rest = behind;
    }
    Ok(told)
}

/// Reads the text of a process as `read_trace` reads that of a trace, but that the line of a member's state (`chat`, `map` or `locks`, an address, and more)
/// is passed over, and counted (docs/CLI.md, "Texts of several processes").
///
/// # Errors
///
/// Those of `read_trace`.
pub(crate) fn read_member_trace(alloc: Global, text: &[u8]) -> Result<Trace, Unread>
    ensures { MatchResult result (λ trace. member_trace_of text.now ≡ Ok trace.events) (IsUnread (member_trace_of text.now)) }
{
    let Ok(told) = told_of_trace(alloc, text) else {
        return Err(Unread::Memory);
    };
    read_trace(alloc, told.as_slice())
}
