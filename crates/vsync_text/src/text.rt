//! Texts that are written part by part.

ghost use Rattle.std.specs.Prelude.{◌≡◌, ◌∷◌, [], false, true, flat_map, IfOk, OnErr};
ghost use Rattle.std.specs.Fmt.{decimal};
ghost use Rattle.address.specs.Ids.{text_of_address};
ghost use Rattle.vsync_text.specs.TraceText.{hex_of, line_of};
ghost use Rattle.vsync_text.specs.Runs.{refusal_line};
ghost use Rattle.vsync_text.specs.PacketText.{kind_in, packet_line};
ghost use Rattle.vsync_text.specs.Parts.{text_of_part};
ghost use Rattle.vsync_text.specs.Written.{Appends};

use crate::{
    Part, append_event, append_packet, append_refusal, put, put_address, put_decimal, put_hex,
    put_parts,
};
use address::Address;
use std::alloc::{AllocError, Global};
use std::marker::Model;
use trace_props::Event;

/// A text that is written part by part. It notes whether memory was refused to one of them, which is asked once, at its end. Contracts see its bytes, and whether that was.
#[derive(Drop)]
pub struct Text {
    bytes: Vec<u8>,
    is_short: bool,
}

impl Model for Text {
    ghost use Rattle.vsync_text.specs.Written.{TextModel};

    ghost Value = { TextModel };

    ghost view = { λ t. record { items = t.bytes.items; is_short = t.is_short } };
}

impl Text {
    /// Nothing is written yet. Takes no memory.
    pub fn new(alloc: Global) -> Text
        ensures { result ≡ record { items = []; is_short = false } }
    {
        Text {
            bytes: Vec::new(alloc),
            is_short: false,
        }
    }

    /// A whole text of these bytes. Takes no memory.
    pub fn from_vec(bytes: Vec<u8>) -> Text
        ensures { result ≡ record { items = bytes.items; is_short = false } }
    {
        Text {
            bytes,
            is_short: false,
        }
    }

    /// Its bytes, without those to which memory was refused.
    pub fn as_slice(&self) -> &[u8]
        ensures { result.now ≡ self.now.items }
    {
        self.bytes.as_slice()
    }

    /// Whether memory was refused to a part.
    pub fn is_short(&self) -> bool
        ensures { result ≡ self.now.is_short }
    {
        self.is_short
    }

    /// It lacks a part, as if memory were refused to it.
    pub fn refuse(&mut self)
        ensures { self.new ≡ record self.old { is_short = true } }
    {
        self.is_short = true;
    }

    /// Appends a byte.
    pub fn push(&mut self, byte: u8)
        ensures { Appends (byte ∷ []) self.old self.new }
    {
        self.is_short |= self.bytes.push(byte).is_err();
    }

    /// Appends bytes.
    pub fn put(&mut self, bytes: &[u8])
        ensures { Appends bytes.now self.old self.new }
    {
        self.is_short |= put(&mut self.bytes, bytes).is_err();
    }

    /// Appends bytes by their hexadecimal digits.
    pub fn put_hex(&mut self, bytes: &[u8])
        ensures { Appends (hex_of bytes.now) self.old self.new }
    {
        self.is_short |= put_hex(&mut self.bytes, bytes).is_err();
    }

    /// Appends a number in decimal.
    pub fn put_decimal(&mut self, number: u64)
        ensures { Appends (decimal number) self.old self.new }
    {
        self.is_short |= put_decimal(&mut self.bytes, number).is_err();
    }

    /// Appends an address as `3.1`, behind one byte.
    pub fn put_address(&mut self, before: u8, address: &Address)
        ensures { Appends (before ∷ text_of_address address.now) self.old self.new }
    {
        self.is_short |= put_address(&mut self.bytes, before, address).is_err();
    }

    /// Appends parts, one behind the other.
    pub fn put_parts(&mut self, parts: &[Part<'_>])
        ensures { Appends (flat_map text_of_part parts.now) self.old self.new }
    {
        self.is_short |= put_parts(&mut self.bytes, parts).is_err();
    }

    /// Appends the line of an event in a trace.
    pub fn append_event(&mut self, event: &Event)
        ensures { Appends (line_of event.now) self.old self.new }
    {
        self.is_short |= append_event(&mut self.bytes, event).is_err();
    }

    /// Appends the line of a refusal.
    pub fn append_refusal(&mut self, line: u64, number: u8)
        ensures { Appends (refusal_line line number) self.old self.new }
    {
        self.is_short |= append_refusal(&mut self.bytes, line, number).is_err();
    }

    /// Appends the line of a packet, and answers the name of what the packet says.
    pub fn append_packet(&mut self, number: u64, bytes: &[u8]) -> &'static [u8]
        ensures text { Appends (packet_line number bytes.now) self.old self.new }
        ensures kind { self.new.is_short ≡ false → result.now ≡ kind_in bytes.now }
    {
        match append_packet(&mut self.bytes, number, bytes) {
            Ok(kind) => kind,
            Err(_) => {
                self.is_short = true;
                b""
            }
        }
    }

    /// All of it; an error if memory was refused to a part, and only then. Takes no memory.
    pub fn whole(self) -> Result<Vec<u8>, AllocError>
        ensures ok { IfOk result (λ bytes. (self.is_short ≡ false) × (bytes.items ≡ self.items)) }
        ensures err { OnErr result (self.is_short ≡ true) }
    {
        let Text { bytes, is_short } = self;
        if is_short {
            return Err(AllocError);
        }
        Ok(bytes)
    }
}
