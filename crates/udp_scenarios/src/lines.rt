//! A story's text: what was asked and what was answered, a line each.

use address::Address;
use std::alloc::{AllocError, Global};
use trace_props::Event;
use vsync_text::{Part, append_event, put_hex, put_parts};

/// The text of stories, and whether memory was refused for one of them, or for what it was to tell of: then that story is cut off behind its name, and no more
/// is added.
#[derive(Drop)]
pub struct Told {
    text: Vec<u8>,
    // How much of it stands where memory is refused.
    whole: usize,
    is_refused: bool,
}

impl Told {
    /// No text yet.
    pub fn new(alloc: Global) -> Told {
        Told {
            text: Vec::new(alloc),
            whole: 0,
            is_refused: false,
        }
    }

    /// No text yet, and room for so many bytes, which take no memory later.
    pub fn with_room(alloc: Global, room: usize) -> Result<Told, AllocError> {
        Ok(Told {
            text: Vec::with_capacity(alloc, room)?,
            whole: 0,
            is_refused: false,
        })
    }

    /// Memory was refused for the story, or for what it was to tell of.
    pub fn refuse(&mut self) {
        self.is_refused = true;
        self.text.truncate(self.whole);
    }

    /// Adds parts, one behind the other.
    pub fn parts(&mut self, parts: &[Part<'_>]) {
        if !self.is_refused && put_parts(&mut self.text, parts).is_err() {
            self.refuse();
        }
    }

    // What was told so far stands.
    fn keep(&mut self) {
        if !self.is_refused {
            self.whole = self.text.len();
        }
    }

    /// Begins a story of this name.
    pub fn story(&mut self, name: &str) {
        self.keep();
        self.parts(&[
            Part::Text(b"== "),
            Part::Text(name.as_bytes()),
            Part::Text(b"\n"),
        ]);
        self.keep();
    }

    /// Adds bytes as they are.
    pub fn bytes(&mut self, bytes: &[u8]) {
        self.parts(&[Part::Text(bytes)]);
    }

    /// Adds what was asked, and a word that was answered.
    pub fn word<'a>(&mut self, asked: &'a str, answer: &'a str) {
        self.parts(&[
            Part::Text(asked.as_bytes()),
            Part::Text(b": "),
            Part::Text(answer.as_bytes()),
            Part::Text(b"\n"),
        ]);
    }

    /// Adds what was asked, and a number that was answered.
    pub fn number(&mut self, asked: &str, answer: u64) {
        self.parts(&[
            Part::Text(asked.as_bytes()),
            Part::Text(b": "),
            Part::Number(answer),
            Part::Text(b"\n"),
        ]);
    }

    /// Adds what was asked, and the number of a status or of a refusal.
    pub fn code(&mut self, asked: &str, answer: u8) {
        self.number(asked, u64::from(answer));
    }

    /// Adds what was asked, and whether it is so.
    pub fn truth(&mut self, asked: &str, answer: bool) {
        self.word(asked, if answer { "yes" } else { "no" });
    }

    /// Adds what was asked, and the number of its refusal; `done` where there is none.
    pub fn refusal(&mut self, asked: &str, number: u8) {
        match number {
            0 => self.word(asked, "done"),
            _ => self.code(asked, number),
        }
    }

    /// Adds the line of an event.
    pub fn event(&mut self, event: &Event) {
        if !self.is_refused && append_event(&mut self.text, event).is_err() {
            self.refuse();
        }
    }

    // Adds bytes in hexadecimal.
    fn hexadecimal(&mut self, bytes: &[u8]) {
        if !self.is_refused && put_hex(&mut self.text, bytes).is_err() {
            self.refuse();
        }
    }

    /// Adds the line of a packet: to whom it goes, and its bytes in hexadecimal.
    pub fn packet(&mut self, to: Address, bytes: &[u8]) {
        self.parts(&[Part::Text(b"to "), Part::Address(to), Part::Text(b": ")]);
        self.hexadecimal(bytes);
        self.bytes(b"\n");
    }

    /// What stands of the text.
    pub fn so_far(&self) -> &[u8] {
        self.text.as_slice()
    }

    /// The text; an error where memory was refused.
    pub fn text(&self) -> Result<&[u8], AllocError> {
        if self.is_refused {
            Err(AllocError)
        } else {
            Ok(self.text.as_slice())
        }
    }

    /// The same, by itself.
    pub fn into_text(self) -> Result<Vec<u8>, AllocError> {
        let Told {
            text,
            is_refused,
            ..
        } = self;
        if is_refused {
            Err(AllocError)
        } else {
            Ok(text)
        }
    }
}
