ghost use Rattle.std.specs.Prelude.{◌∷◌, [], length, Some, None, nat_eq, slice_index, slice_index_or, if◌then◌else◌};
ghost use Rattle.std.proofs.Common.{refl, lit≤};

use address::Address;
use state_transfer::Receiver;
use std::alloc::{AllocError, Global};
use std::marker::Model;
use view::View;

/// A receiver whose state is the first byte of the last message. It counts what else it is told.
#[derive(Drop)]
pub struct Last {
    /// The first byte of the last message that had one; 0 before.
    pub value: u8,
    /// How many views it was given.
    pub installs: usize,
    /// How often it was called because its member is blocked.
    pub blocks: usize,
}

impl Model for Last {
    ghost use Rattle.std.specs.Prelude.{ℕ};

    ghost Value = { ℕ };

    ghost view = { λ l. l.value };
}

impl Receiver for Last {
    ghost meaning = { record {
      opening = 0;
      apply = λ s from payload. slice_index_or payload 0 s;
      encode = λ s. s ∷ [];
      decode = λ bytes. if nat_eq (length bytes) 1 then Some (slice_index bytes 0) else None;
      is_state = λ s. Unit {0};
    } };

    ghost opens = { tt };

    ghost applies = { λ s from payload is address short. tt };

    ghost decodes = { λ bytes s read. tt };

    ghost reads_back = { λ s is. refl };

    ghost is_short = { λ s is. lit≤ tt };

    fn opening(_alloc: Global) -> Result<Last, AllocError> {
        Ok(Last {
            value: 0,
            installs: 0,
            blocks: 0,
        })
    }

    fn receive(&mut self, _from: Address, payload: &[u8]) -> Result<(), AllocError> {
        if payload.len() > 0 {
            self.value = payload[0];
        }
        Ok(())
    }

    fn view_accepted(&mut self, _view: &View) {
        self.installs = self.installs.wrapping_add(1);
    }

    fn blocked(&mut self) {
        self.blocks = self.blocks.wrapping_add(1);
    }

    fn get_state(&self, state: &mut Vec<u8>) -> Result<(), AllocError> {
        state.push(self.value)?;
        Ok(())
    }

    fn kept(&self) {}

    fn set_state(&mut self, state: &[u8]) -> Result<bool, AllocError> {
        if state.len() == 1 {
            self.value = state[0];
            Ok(true)
        } else {
            Ok(false)
        }
    }
}
