ghost use Rattle.std.specs.Prelude.{◌≡◌, ◌≤◌, ◌<◌, ◌+◌, ◌*◌, length};
ghost use Rattle.address.specs.declared.limits.TheConstants.{STATE, CHUNK};
ghost use Rattle.wire_values.specs.Chunks.{IsTotal, IsPlace, IsCut, chunk_of};
ghost use Rattle.law_acts.specs.Given.{chunk_at};
ghost use Rattle.membership.specs.HeldChunks.{chunk_count};

use address::limits::{CHUNK, STATE};
use wire_values::{Chunk, Total};

/// How many chunks a state of so many bytes has, at most `STATE` of them: 1 to 32, and 0 for none.
pub fn chunk_count(total: usize) -> u8
    requires { total ≤ STATE }
    ensures count { result ≡ chunk_count total }
{
    total.div_ceil(CHUNK) as u8
}

// The bytes of the chunk with an index.
#[tactic(auto, using(crate::proofs::Pieces::front_is))]
fn bytes_of(state: &[u8], index: u8) -> &[u8]
    requires { IsPlace (length state.now) index }
    ensures bytes { result.now ≡ chunk_of state.now index }
    ensures cut { IsCut (length state.now) index result.now }
{
    let rest = &state[CHUNK * (index as usize - 1)..];
    &rest[..rest.len().min(CHUNK)]
}

/// The chunk with an index of a state that goes in chunks: more than `WHOLE_STATE` bytes, at most `STATE`.
pub fn chunk_of(state: &[u8], index: u8) -> Chunk<'_>
    requires total { IsTotal (length state.now) }
    requires place { IsPlace (length state.now) index }
    ensures { result ≡ chunk_at state.now index }
{
    let total = Total::new(state.len() as u32).unwrap();
    Chunk::new(total, index, bytes_of(state, index)).unwrap()
}
