//! What a payload asks of the map.

ghost use Rattle.std.specs.Prelude.{◌≡◌, ◌++◌, OnOk, OnErr, Some};
ghost use Rattle.replicated_map.specs.Commands.{IsCommand, command_bytes, command_of, in_view};

use crate::decoding::command_from;
use crate::encoding::put_command;
use crate::{LONGEST_COMMAND, ValueBytes, Version};
use address::ViewId;
use big_endian::Reader;
use keyed_state::KeyBytes;
use std::alloc::AllocError;

/// What a message asks of the map (docs/RECEIVERS.md, "The map's commands"). A command that gives a value spells the view in which it is sent: of that view, or of a later one, is
/// the value's version.
#[derive(Drop)]
pub enum Command<'a> {
    /// The key has this value from now on.
    Put {
        /// The view in which it is sent.
        view: ViewId,
        key: KeyBytes<'a>,
        value: ValueBytes<'a>,
    },
    /// The key has no value from now on.
    Remove(KeyBytes<'a>),
    /// The key has this value from now on, if it has the expected one before: that one, or none.
    Replace {
        /// The view in which it is sent.
        view: ViewId,
        expected: Option<ValueBytes<'a>>,
        key: KeyBytes<'a>,
        value: ValueBytes<'a>,
    },
    /// No key has a value from now on.
    Clear,
    /// The key has this value from now on, if it has a value of this version before.
    ReplaceAt {
        /// The view in which it is sent.
        view: ViewId,
        version: Version,
        key: KeyBytes<'a>,
        value: ValueBytes<'a>,
    },
    /// The key has no value from now on, if it has a value of this version before.
    RemoveAt {
        version: Version,
        key: KeyBytes<'a>,
    },
}

impl<'a> Command<'a> {
    /// The command that a payload spells; `None` where it spells none.
    #[tactic(auto, unfolding(crate::specs::Commands::command_of))]
    pub fn decode(payload: &'a [u8]) -> Option<Command<'a>>
        ensures { result ≡ command_of payload.now }
    {
        let mut from = Reader::new(payload);
        let command = command_from(&mut from)?;
        if !from.is_empty() {
            return None;
        }
        Some(command)
    }

    /// The same command, stamped anew with the view in which it is sent: so a command that was handed back is sent again.
    pub fn in_view(self, view: ViewId) -> Command<'a>
        ensures { result ≡ in_view view self.entry }
    {
        match self {
            Command::Put { key, value, .. } => Command::Put { view, key, value },
            Command::Remove(key) => Command::Remove(key),
            Command::Replace {
                expected,
                key,
                value,
                ..
            } => Command::Replace {
                view,
                expected,
                key,
                value,
            },
            Command::Clear => Command::Clear,
            Command::ReplaceAt {
                version,
                key,
                value,
                ..
            } => Command::ReplaceAt {
                view,
                version,
                key,
                value,
            },
            Command::RemoveAt { version, key } => Command::RemoveAt { version, key },
        }
    }

    /// Appends its spelling, from which `decode` makes it again: at most `LONGEST_COMMAND` bytes. Where memory is refused, the bytes are as they were.
    #[tactic(auto, using(crate::specs::CommandLaws::spelled_is_read))]
    pub fn encode(&self, out: &mut Vec<u8>) -> Result<(), AllocError>
        ensures ok { OnOk result (out.new.items ≡ out.old.items ++ command_bytes self.now) }
        ensures reads_back { OnOk result (command_of (command_bytes self.now) ≡ Some self.now) }
        ensures err { OnErr result (out.new.items ≡ out.old.items) }
    {
        out.reserve(LONGEST_COMMAND)?;
        put_command(self, out);
        Ok(())
    }
}
