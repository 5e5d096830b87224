//! What a payload asks of the table.

ghost use Rattle.std.specs.Prelude.{◌≡◌, ◌++◌, IfOk, IfSome, OnOk, OnErr, Some};
ghost use Rattle.big_endian.specs.Reading.{IsReadOrNone};
ghost use Rattle.lock_table.specs.Locks.{view_of};
ghost use Rattle.lock_table.specs.Commands.{command_bytes, command_of, in_view};

use crate::LONGEST_COMMAND;
use crate::decoding::command_from;
use crate::encoding::put_command;
use address::ViewId;
use big_endian::Reader;
use keyed_state::KeyBytes;
use std::alloc::{AllocError, Global};
use view::View;

/// What a message asks of the table (docs/RECEIVERS.md, "The commands of the table of locks").
#[derive(Drop)]
pub enum Command<'a> {
    /// Its sender asks for the lock of this name: it holds it, or waits.
    Acquire {
        /// The view in which it is sent.
        view: ViewId,
        /// The lock's name.
        name: KeyBytes<'a>,
    },
    /// Its sender holds this lock no more, and does not wait for it.
    Release {
        /// The view in which it is sent.
        view: ViewId,
        /// The lock's name.
        name: KeyBytes<'a>,
    },
    /// Only members of this view, whose creator sends it, hold locks and wait for them.
    Roll(View),
}

impl<'a> Command<'a> {
    /// The command that a payload spells; `None` where it spells none. Memory is taken for a roll's members alone.
    #[tactic(auto, unfolding(crate::specs::Commands::command_of))]
    pub fn decode(alloc: Global, payload: &'a [u8]) -> Result<Option<Command<'a>>, AllocError>
        ensures { IfOk result (λ c. IsReadOrNone (λ x. x) c (command_of payload.now)) }
    {
        let mut from = Reader::new(payload);
        let Some(command) = command_from(alloc, &mut from)? else {
            return Ok(None);
        };
        if !from.is_empty() {
            return Ok(None);
        }
        Ok(Some(command))
    }

    /// The view in which it is sent; a roll's is the one that it names.
    pub fn view(&self) -> ViewId
        ensures { result ≡ view_of self.now }
    {
        match self {
            Command::Acquire { view, .. } => *view,
            Command::Release { view, .. } => *view,
            Command::Roll(view) => view.id(),
        }
    }

    /// The same command, stamped anew with the view in which it is sent: so a command that was handed back is sent again. `None` for a roll of another view: that one has a
    /// coordinator of its own, who rolls it (docs/RECEIVERS.md, "The commands of the table of locks").
    pub fn in_view(self, view: ViewId) -> Option<Command<'a>>
        ensures gives { result ≡ in_view view self.entry }
        ensures spells { IfSome result (λ c. view_of c ≡ view) }
    {
        match self {
            Command::Acquire { name, .. } => Some(Command::Acquire { view, name }),
            Command::Release { name, .. } => Some(Command::Release { view, name }),
            Command::Roll(roll) => {
                if roll.id() == view {
                    Some(Command::Roll(roll))
                } else {
                    None
                }
            }
        }
    }

    /// Appends its spelling, from which `decode` makes it again: at most `LONGEST_COMMAND` bytes. Where memory is refused, the bytes are as they were.
    #[tactic(auto, using(crate::specs::CommandLaws::spelled_is_read))]
    pub fn encode(&self, out: &mut Vec<u8>) -> Result<(), AllocError>
        ensures ok { OnOk result (out.new.items ≡ out.old.items ++ command_bytes self.now) }
        ensures reads_back { OnOk result (command_of (command_bytes self.now) ≡ Some self.now) }
        ensures err { OnErr result (out.new.items ≡ out.old.items) }
    {
        out.reserve(LONGEST_COMMAND)?;
        put_command(self, out);
        Ok(())
    }
}
