ghost use Rattle.std.specs.Prelude.{◌≤◌};
ghost use Rattle.std.proofs.Common.{arith};
ghost use Rattle.byteorder.specs.Endian.{big_bytes};
ghost use Rattle.counter.specs.Counting.{count_in, counts_within, greatest, is_short, one_more, reads_back, reads_within};

use address::Address;
use byteorder::{BigEndian, ByteOrder};
use state_transfer::Receiver;
use std::alloc::{AllocError, Global};
use std::marker::Model;
use view::View;

/// How many messages a group has sent: each message counts one, up to 2^64 - 1.
#[derive(Drop)]
pub struct Counter {
    /// The count.
    pub count: u64,
}

impl Model for Counter {
    ghost use Rattle.std.specs.Prelude.{ℕ};

    ghost Value = { ℕ };

    ghost view = { λ c. c.count };
}

impl Receiver for Counter {
    ghost meaning = { record {
      opening = 0;
      apply = λ count from payload. one_more count;
      encode = big_bytes 8;
      decode = count_in;
      is_state = λ count. count ≤ greatest;
    } };

    ghost opens = { omega arith };

    ghost applies = { λ count from payload is address short. counts_within count };

    ghost decodes = { reads_within };

    ghost reads_back = { reads_back };

    ghost is_short = { λ count is. is_short count };

    fn opening(_alloc: Global) -> Result<Counter, AllocError> {
        Ok(Counter { count: 0 })
    }

    fn receive(&mut self, _from: Address, _payload: &[u8]) -> Result<(), AllocError> {
        self.count = self.count.saturating_add(1);
        Ok(())
    }

    fn view_accepted(&mut self, _view: &View) {}

    fn blocked(&mut self) {}

    fn get_state(&self, state: &mut Vec<u8>) -> Result<(), AllocError> {
        let mut bytes = [0; 8];
        BigEndian::write_u64(&mut bytes, self.count);
        state.extend_from_slice(&bytes)
    }

    fn set_state(&mut self, state: &[u8]) -> Result<bool, AllocError> {
        if state.len() != 8 {
            return Ok(false);
        }
        self.count = BigEndian::read_u64(state);
        Ok(true)
    }

    fn kept(&self) {
        let _count = self.count;
    }
}
