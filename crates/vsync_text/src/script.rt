ghost use Rattle.std.specs.Prelude.{◌≡◌, [], OnOk, MatchResult};
ghost use Rattle.vsync_text.specs.Script.{script_by, script_of, event_in_line, with_event};
ghost use Rattle.vsync_text.specs.Texts.{reading_by, HasRead, IsUnread};

use crate::field::first_line;
use crate::script_line::{event_in_line, is_skipped};
use crate::{AsWritten, Payloads, Unread};
use std::alloc::{AllocError, Global};
use std::marker::Model;
use world_model::WorldEvent;

/// The events of a script in order, and beside each the number of its line, from 1.
pub struct Script {
    events: Vec<WorldEvent>,
    lines: Vec<u64>,
}

impl Drop for Script {
    fn drop(self) {
        let Script {
            events: _,
            lines: _,
        } = self;
    }
}

impl Model for Script {
    ghost use Rattle.vsync_text.specs.Script.{Script};

    ghost Value = { Script };

    ghost view = { λ s. record { events = s.events.items; lines = s.lines.items } };
}

impl Script {
    /// A script that says nothing.
    fn nothing(alloc: Global) -> Script
        ensures { result ≡ record { events = []; lines = [] } }
    {
        Script {
            events: Vec::new(alloc),
            lines: Vec::new(alloc),
        }
    }

    /// Its events, in the order of their lines.
    pub fn events(&self) -> &[WorldEvent]
        ensures { result.now ≡ self.now.events }
    {
        self.events.as_slice()
    }

    /// The numbers of the lines of its events, from 1.
    pub fn lines(&self) -> &[u64]
        ensures { result.now ≡ self.now.lines }
    {
        self.lines.as_slice()
    }

    /// Goes on with one line.
    fn read_on<P: Payloads>(
        &mut self,
        alloc: Global,
        number: u64,
        line: &[u8],
    ) -> Result<(), Unread>
        ensures { HasRead with_event self.old number (reading_by (event_in_line P.payload_of) line.now) result self.new }
    {
        if is_skipped(line) {
            return Ok(());
        }
        match event_in_line::<P>(alloc, line) {
            Err(unheard) => Err(unheard.at(number)),
            Ok(event) => match self.add(number, event) {
                Err(_) => Err(Unread::Memory),
                Ok(()) => Ok(()),
            },
        }
    }

    /// Adds an event and the number of its line.
    fn add(&mut self, number: u64, event: WorldEvent) -> Result<(), AllocError>
        ensures { OnOk result (self.new ≡ with_event self.old number event) }
    {
        self.lines.push(number)?;
        self.events.push(event)?;
        Ok(())
    }
}

/// Reads a script, in one pass. It is exactly what its lines say: `start N`, `create N`, `join N ADDR`, `send N TEXT`,
/// `deliver K`, `tick N`, `leave N` and `crash N` are events, N a node from 1 to 65535, ADDR an address such as `3.1`, TEXT the rest of the line,
/// whose payload `P` knows, K a packet's number from 1 to `GREATEST_NUMBER`, and lines that are empty or begin with `#` say nothing. A line ends
/// with a line feed, which the last may lack (docs/FORMATS.md, "Script text").
///
/// # Errors
///
/// `Unread::Fault` has the first line that is none of these and what is wrong with it: it has more than `SCRIPT_LINE` bytes (43),
/// begins with no known word (40), lacks a field (42), or has a field that is no such number or one field too many (41); or the text of a
/// send says no payload (41 or 42).
/// `Unread::Memory` where memory was refused.
#[tactic(auto, using(crate::proofs::ScriptsRead::script_is_going_on))]
pub fn read_script_by<P: Payloads>(alloc: Global, text: &[u8]) -> Result<Script, Unread>
    ensures { MatchResult result (λ script. script_by P.payload_of text.now ≡ Ok script) (IsUnread (script_by P.payload_of text.now)) }
{
    let mut script = Script::nothing(alloc);
    let mut rest = text;
    let mut number: u64 = 0;
    while !rest.is_empty() {
        let (line, behind) = first_line(rest);
        number += 1;
        script.read_on::<P>(alloc, number, line)?;
        rest = behind;
    }
    Ok(script)
}

/// Reads a script whose payloads are its texts as they stand, any bytes and perhaps none, by `read_script_by`.
///
/// # Errors
///
/// Those of `read_script_by`; each text is a payload.
pub fn read_script(alloc: Global, text: &[u8]) -> Result<Script, Unread>
    ensures { MatchResult result (λ script. script_of text.now ≡ Ok script) (IsUnread (script_of text.now)) }
{
    read_script_by::<AsWritten>(alloc, text)
}
