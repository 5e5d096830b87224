ghost use Rattle.std.specs.Prelude.{◌≡◌, ◌≤◌, ◌+◌, ◌++◌, ◌∷◌, [], find, OnOk, OnErr, IfOk};
ghost use Rattle.std.specs.Option.{option_copied};
ghost use Rattle.wire_values.specs.Lists.{IsChunk};
ghost use Rattle.std.specs.List.{AllByRecursion, list_all, list_any, flat_map, range_with_len};
ghost use Rattle.address.specs.declared.limits.TheConstants.{STATE};
ghost use Rattle.membership.specs.HeldChunks.{is_new, is_at, bytes_at, joined_of, is_there, given_in};

use crate::chunk_count;
use address::Bytes;
use std::alloc::{AllocError, Global};
use std::marker::Model;
use wire_values::{Chunk, GivenState, Total};

// A chunk that is held: how many bytes its state has, its index, and its bytes.
#[derive(Drop)]
struct HeldChunk {
    total: u32,
    index: u8,
    bytes: Bytes,
}

impl Model for HeldChunk {
    ghost use Rattle.wire_values.specs.Values.{Chunk};
    ghost use Rattle.wire_values.specs.Lists.{IsChunk};

    ghost Value = { Chunk };

    ghost view = { λ c. record { total = c.total; index = c.index; bytes = c.bytes } };

    ghost invariant = { λ c. IsChunk (record { total = c.total; index = c.index; bytes = c.bytes }) };
}

// The first of these chunks that has an index, of a state of so many bytes.
fn first_at(chunks: &[HeldChunk], total: u32, index: u8) -> Option<&HeldChunk>
    ensures { option_copied result ≡ find (is_at total index) chunks.now }
{
    let (first, rest) = chunks.split_first()?;
    if (first.total == total) & (first.index == index) {
        Some(first)
    } else {
        first_at(rest, total, index)
    }
}

/// The chunks that a member holds of the state that its promised proposal gives, in the order in which they came. Contracts see their list.
#[derive(Drop)]
pub struct HeldChunks {
    chunks: Vec<HeldChunk>,
}

impl Model for HeldChunks {
    ghost use Rattle.std.specs.Prelude.{List};
    ghost use Rattle.wire_values.specs.Values.{Chunk};
    ghost use Rattle.std.specs.List.{AllByRecursion};
    ghost use Rattle.wire_values.specs.Lists.{IsChunk};

    ghost Value = { List Chunk };

    ghost view = { λ h. h.chunks.items };

    ghost invariant = { λ h. AllByRecursion IsChunk h.chunks.items };
}

impl HeldChunks {
    /// None is held. Takes no memory.
    pub fn new(alloc: Global) -> HeldChunks
        ensures { result ≡ [] }
    {
        HeldChunks {
            chunks: Vec::new(alloc),
        }
    }

    /// What holds of all that are held, for proofs: it reads nothing.
    pub fn kept(&self)
        ensures { AllByRecursion IsChunk self.now }
    {
        let _ = &self.chunks;
    }

    /// Whether a chunk is to be held: it is of a state of the same length as those that are, and none with its index is there. Takes no memory.
    pub fn is_new(&self, chunk: &Chunk<'_>) -> bool
        ensures { result ≡ is_new chunk.now self.now }
    {
        let total = chunk.total().get();
        let index = chunk.index();
        for held in &self.chunks {
            if (held.total != total) | (held.index == index) {
                return false;
            }
        }
        true
    }

    /// Holds a copy of a chunk behind the others. An error for want of memory leaves them as they were.
    pub fn hold(&mut self, chunk: &Chunk<'_>) -> Result<(), AllocError>
        ensures ok { OnOk result (self.new ≡ self.old ++ chunk.now ∷ []) }
        ensures err { OnErr result (self.new ≡ self.old) }
    {
        let bytes = Bytes::from_slice(*self.chunks.allocator(), chunk.as_slice())?;
        self.chunks.push(HeldChunk {
            total: chunk.total().get(),
            index: chunk.index(),
            bytes,
        })?;
        Ok(())
    }

    /// Drops all.
    pub fn clear(&mut self)
        ensures { self.new ≡ [] }
    {
        self.chunks.clear();
    }

    // Whether so many chunks of a state are held, from an index on.
    #[tactic(auto, using(crate::proofs::Pieces::any_found))]
    fn has_from(&self, total: u32, first: u8, count: u8) -> bool
        requires { first + count ≤ 255 }
        ensures { result ≡ list_all (λ k. list_any (is_at total k) self.now) (range_with_len first count) }
    {
        if count == 0 {
            return true;
        }
        first_at(self.chunks.as_slice(), total, first).is_some()
            && self.has_from(total, first + 1, count - 1)
    }

    /// Whether what an INSTALL says of a state is there: all of its chunks, where it goes in chunks. Takes no memory.
    pub fn is_there(&self, state: &GivenState<'_>) -> bool
        ensures { result ≡ is_there state.now self.now }
    {
        match state {
            GivenState::Nothing => true,
            GivenState::Whole(_) => true,
            GivenState::Chunked(total) => {
                let total = total.get();
                self.has_from(total, 1, chunk_count(total as usize))
            }
        }
    }

    // The bytes of a chunk that is held; none where it is not.
    fn bytes_at(&self, total: u32, index: u8) -> &[u8]
        ensures { result.now ≡ bytes_at total self.now index }
    {
        match first_at(self.chunks.as_slice(), total, index) {
            None => &[],
            Some(chunk) => chunk.bytes.as_slice(),
        }
    }

    // Appends the bytes of so many chunks of a state, from an index on.
    fn join(&self, total: u32, first: u8, count: u8, out: &mut Vec<u8>) -> Result<(), AllocError>
        requires { first + count ≤ 255 }
        ensures { OnOk result (out.new.items ≡ out.old.items ++ flat_map (bytes_at total self.now) (range_with_len first count)) }
    {
        if count == 0 {
            return Ok(());
        }
        out.extend_from_slice(self.bytes_at(total, first))?;
        self.join(total, first + 1, count - 1, out)
    }

    fn joined(&self, alloc: Global, total: Total) -> Result<Bytes, AllocError>
        ensures { IfOk result (λ b. b ≡ joined_of total self.now) }
    {
        let total = total.get();
        let mut bytes = Vec::with_capacity(alloc, total as usize)?;
        self.join(total, 1, chunk_count(total as usize), &mut bytes)?;
        Ok(Bytes::from_vec(bytes))
    }

    /// A copy of the state that an INSTALL gives, if it gives one: its own bytes, or those of the chunks, in order.
    pub fn given(&self, alloc: Global, state: &GivenState<'_>) -> Result<Option<Bytes>, AllocError>
        ensures { IfOk result (λ b. b ≡ given_in state.now self.now) }
    {
        match state {
            GivenState::Nothing => Ok(None),
            GivenState::Whole(state) => Ok(Some(Bytes::from_slice(alloc, state.as_slice())?)),
            GivenState::Chunked(total) => Ok(Some(self.joined(alloc, *total)?)),
        }
    }
}
