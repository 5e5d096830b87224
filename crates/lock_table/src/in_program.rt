//! The table of locks in the program: its commands have words, and its locks are printed.

ghost use Rattle.std.specs.Prelude.{Ok};
ghost use Rattle.vsync_text.specs.Texts.{IsReadUnlessRefused};
ghost use Rattle.lock_table.specs.Commands.{command_bytes};

use crate::encoding::put_roll;
use crate::lines::put_table_line;
use crate::words::{command_said, command_said_in};
use crate::{Command, LONGEST_COMMAND, LockTable};
use address::{Address, Bytes, ViewId};
use application::Application;
use std::alloc::{AllocError, Global};
use view::View;
use vsync_text::{Payloads, Unheard};

// The spelling of a command.
fn spelled(alloc: Global, command: &Command<'_>) -> Result<Bytes, Unheard>
    ensures { IsReadUnlessRefused (λ x. x) result (Ok (command_bytes command.now)) }
{
    let mut bytes = Vec::new(alloc);
    command.encode(&mut bytes)?;
    Ok(Bytes::from_slice(alloc, bytes.as_slice())?)
}

impl Payloads for LockTable {
    ghost use Rattle.lock_table.specs.Words.{lock_payload};

    ghost payload_of = { lock_payload };

    /// The spelling of `acquire VIEW NAME`, `release VIEW NAME` or `roll VIEW MEMBERS`.
    fn payload(alloc: Global, text: &[u8]) -> Result<Bytes, Unheard> {
        match command_said(alloc, text) {
            Err(unheard) => Err(unheard),
            Ok(command) => spelled(alloc, &command),
        }
    }
}

impl Application for LockTable {
    ghost use Rattle.std.specs.Prelude.{Some, true};
    ghost use Rattle.lock_table.specs.declared.command.Command.TheVariants.{Roll};
    ghost use Rattle.lock_table.specs.Commands.{command_bytes};
    ghost use Rattle.lock_table.specs.Words.{lock_payload_within};
    ghost use Rattle.lock_table.specs.TableText.{table_line};

    ghost line_of = { table_line };

    ghost payload_within = { lock_payload_within };

    ghost first_said = { λ view. Some (command_bytes (Roll view)) };

    ghost is_said_again = { true };

    fn put_line(&self, member: &Address, out: &mut Vec<u8>) -> Result<(), AllocError> {
        put_table_line(out, member, &self.last(), self.entries())
    }

    /// The spelling of `acquire NAME` and `release NAME`, sent in this view.
    fn payload_in_view(alloc: Global, view: ViewId, text: &[u8]) -> Result<Bytes, Unheard> {
        match command_said_in(view, text) {
            Err(unheard) => Err(unheard),
            Ok(command) => spelled(alloc, &command),
        }
    }

    /// The roll to this view.
    fn first_message(alloc: Global, view: &View) -> Result<Option<Bytes>, AllocError> {
        let mut bytes = Vec::with_capacity(alloc, LONGEST_COMMAND)?;
        put_roll(view, &mut bytes);
        Ok(Some(Bytes::from_vec(bytes)))
    }

    /// Yes: without a lost release its lock would be held for ever. A command that is carried out twice does what it does once.
    fn says_again() -> bool {
        true
    }
}
