//! What is said in a group, as text, and who comes and goes.

use address::Address;
use std::alloc::{AllocError, Global};
use trace_props::{Event, Install};
use vsync_text::{Part, Text, put};

/// Writes what is said, and who comes and goes (docs/CLI.md, "What a node says as text").
#[derive(Drop)]
pub(crate) struct Speaker {
    alloc: Global,
    // The members of its view; none before the first.
    members: Vec<Address>,
}

// Appends a byte as it is where it is safe to show, else as `\x` and two digits.
fn put_byte(text: &mut Text, byte: u8) {
    if byte == b' ' || byte.is_ascii_graphic() {
        text.push(byte);
    } else {
        text.put(b"\\x");
        text.put_hex(&[byte]);
    }
}

// Whether each character is to be shown as it is: none that moves a terminal's cursor.
fn are_shown(said: &str) -> bool {
    for character in said.chars() {
        let code = character as u32;
        if (code < 32) | ((127 <= code) & (code < 160)) {
            return false;
        }
    }
    true
}

// Appends a payload as text: as it is where it is UTF-8 without control characters, else with each byte but those of ASCII that are shown as `\x` and two digits.
fn put_payload(text: &mut Text, payload: &[u8]) {
    if let Ok(said) = str::from_utf8(payload) {
        if are_shown(said) {
            text.put(payload);
            return;
        }
    }
    for byte in payload {
        put_byte(text, *byte);
    }
}

// Appends a line of what became of a member.
fn put_change(text: &mut Text, member: Address, what: &[u8]) {
    text.put_parts(&[
        Part::Text(b"* "),
        Part::Address(member),
        Part::Text(b" "),
        Part::Text(what),
        Part::Text(b"\n"),
    ]);
}

// Appends a change of those of the first list that are not in the second.
fn put_changes(text: &mut Text, members: &[Address], others: &[Address], what: &[u8]) {
    for member in members {
        if !others.contains(member) {
            put_change(text, *member, what);
        }
    }
}

impl Speaker {
    /// Nothing was said yet.
    pub(crate) fn new(alloc: Global) -> Speaker {
        Speaker {
            alloc,
            members: Vec::new(alloc),
        }
    }

    /// Appends what is to be said of an event, if anything is.
    pub(crate) fn append(&mut self, text: &mut Vec<u8>, event: &Event) -> Result<(), AllocError> {
        let mut said = Text::new(self.alloc);
        match event {
            Event::Delivered(delivery) => {
                let message = &delivery.message;
                said.put_parts(&[Part::Address(message.sender), Part::Text(b": ")]);
                put_payload(&mut said, message.payload.as_slice());
                said.put(b"\n");
            }
            Event::Installed(install) => self.put_install(&mut said, install.get()),
            Event::Left(member) => put_change(&mut said, *member, b"left"),
            Event::Crashed(member) => put_change(&mut said, *member, b"crashed"),
            _ => (),
        }
        put(text, said.whole()?.as_slice())
    }

    // Appends who went and who came by a view, and what was not said before it.
    fn put_install(&mut self, text: &mut Text, install: &Install) {
        let members = install.view.members().as_slice();
        put_changes(text, self.members.as_slice(), members, b"went");
        put_changes(text, members, self.members.as_slice(), b"came");
        for left in install.handed_back.as_slice() {
            text.put(b"* not said: ");
            put_payload(text, left.payload.as_slice());
            text.put(b"\n");
        }
        match Vec::from_slice(self.alloc, members) {
            Ok(members) => self.members = members,
            Err(_) => text.refuse(),
        }
    }
}
