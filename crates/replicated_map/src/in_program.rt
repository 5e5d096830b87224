//! The map in the program: its commands have words, and its entries are printed.

use crate::ReplicatedMap;
use crate::lines::put_map_line;
use crate::words::command_said;
use address::{Address, Bytes, ViewId};
use application::Application;
use keyed_state::Token;
use std::alloc::{AllocError, Global};
use view::View;
use vsync_text::{Payloads, Unheard};

impl Payloads for ReplicatedMap {
    ghost use Rattle.replicated_map.specs.Words.{map_payload};

    ghost payload_of = { map_payload };

    /// The spelling of `put KEY VALUE`, `remove KEY`, `replace KEY OLD NEW`, `clear`, `replace_at KEY VERSION NEW` or `remove_at KEY VERSION`, sent in the least view.
    fn payload(alloc: Global, text: &[u8]) -> Result<Bytes, Unheard> {
        ReplicatedMap::payload_in_view(alloc, Token::least().view, text)
    }
}

impl Application for ReplicatedMap {
    ghost use Rattle.std.specs.Prelude.{None, false};
    ghost use Rattle.replicated_map.specs.Words.{map_payload_within};
    ghost use Rattle.replicated_map.specs.MapText.{map_line};

    ghost line_of = { map_line };

    ghost payload_within = { map_payload_within };

    ghost first_said = { λ view. None };

    ghost is_said_again = { false };

    fn put_line(&self, member: &Address, out: &mut Vec<u8>) -> Result<(), AllocError> {
        put_map_line(out, member, self.entries())
    }

    /// The spelling of the same words, sent in this view.
    fn payload_in_view(alloc: Global, view: ViewId, text: &[u8]) -> Result<Bytes, Unheard> {
        match command_said(view, text) {
            Err(fault) => Err(Unheard::Fault(fault)),
            Ok(command) => {
                let mut bytes = Vec::new(alloc);
                command.encode(&mut bytes)?;
                Ok(Bytes::from_slice(alloc, bytes.as_slice())?)
            }
        }
    }

    fn first_message(_alloc: Global, _view: &View) -> Result<Option<Bytes>, AllocError> {
        Ok(None)
    }

    /// No: it would overwrite what others wrote since.
    fn says_again() -> bool {
        false
    }
}
