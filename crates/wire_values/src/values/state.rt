ghost use Rattle.std.specs.Prelude.{◌≡◌, ◌≤◌, ◌<◌, ◌+◌, ◌-◌, ◌*◌, length};
ghost use Rattle.std.specs.Option.{SomeIff};
ghost use Rattle.address.specs.declared.limits.TheConstants.{WHOLE_STATE, STATE, CHUNK};
ghost use Rattle.wire_values.specs.Chunks.{IsTotal, IsPlace, IsCut, chunk_len};

use address::limits::{CHUNK, STATE, WHOLE_STATE};
use std::marker::Model;

/// A state in lent bytes that an INSTALL carries itself, at most `WHOLE_STATE` of them.
#[derive(Drop)]
pub struct State<'a> {
    state: &'a [u8],
}

impl<'a> Model for State<'a> {
    ghost use Rattle.std.specs.Prelude.{List, ℕ, length, ◌≤◌};
    ghost use Rattle.address.specs.declared.limits.TheConstants.{WHOLE_STATE};

    ghost Value = { List ℕ };

    ghost view = { λ s. s.state.now };

    ghost invariant = { λ s. length s.state.now ≤ WHOLE_STATE };
}

impl<'a> State<'a> {
    /// The state of these bytes; `None` for more than `WHOLE_STATE`.
    pub fn new(bytes: &'a [u8]) -> Option<State<'a>>
        ensures { SomeIff result (length bytes.now ≤ WHOLE_STATE) bytes.now }
    {
        if bytes.len() > WHOLE_STATE {
            return None;
        }
        Some(State { state: bytes })
    }

    /// Its bytes.
    pub fn as_slice(&self) -> &'a [u8]
        ensures bytes { result.now ≡ self.now }
        ensures short { length result.now ≤ WHOLE_STATE }
    {
        self.state
    }
}

/// How many bytes a state has that goes in chunks: more than `WHOLE_STATE`, at most `STATE`.
#[derive(Clone, Copy)]
pub struct Total {
    total: u32,
}

impl Model for Total {
    ghost use Rattle.std.specs.Prelude.{ℕ};
    ghost use Rattle.wire_values.specs.Chunks.{IsTotal};

    ghost Value = { ℕ };

    ghost view = { λ t. t.total };

    ghost invariant = { λ t. IsTotal t.total };

    ghost inverse = { λ n. record { total = n } };
}

impl Total {
    /// The total of a value above `WHOLE_STATE` and up to `STATE`; `None` for another.
    pub fn new(value: u32) -> Option<Total>
        ensures { SomeIff result (IsTotal value) value }
    {
        if (value as usize <= WHOLE_STATE) | (value as usize > STATE) {
            return None;
        }
        Some(Total { total: value })
    }

    /// Its value.
    pub fn get(self) -> u32
        ensures value { result ≡ self }
        ensures in_range { IsTotal result }
    {
        self.total
    }
}

/// How many bytes the chunk of an index has.
pub fn chunk_len(total: u32, index: u8) -> usize
    requires { 1 ≤ index }
    ensures len { result ≡ chunk_len total index }
    ensures few { result ≤ CHUNK }
{
    (total as usize)
        .saturating_sub(CHUNK * (index as usize - 1))
        .min(CHUNK)
}

/// A chunk of a state, in lent bytes: how many bytes the state has, which of its chunks this is, from 1, and the chunk's bytes.
#[derive(Drop)]
pub struct Chunk<'a> {
    total: Total,
    index: u8,
    bytes: &'a [u8],
}

impl<'a> Model for Chunk<'a> {
    ghost use Rattle.wire_values.specs.Values.{Chunk};
    ghost use Rattle.wire_values.specs.Chunks.{IsPlace, IsCut};

    ghost Value = { Chunk };

    ghost view = { λ c. record { total = c.total; index = c.index; bytes = c.bytes.now } };

    ghost invariant = { λ c. IsPlace c.total c.index × IsCut c.total c.index c.bytes.now };
}

impl<'a> Chunk<'a> {
    /// The chunk with an index of a state with that many bytes. `None` where the state has no such chunk, or it has not that many bytes.
    pub fn new(total: Total, index: u8, bytes: &'a [u8]) -> Option<Chunk<'a>>
        ensures { SomeIff result (IsPlace total index × IsCut total index bytes.now) (record { total = total; index = index; bytes = bytes.now }) }
    {
        if index == 0 || CHUNK * (index as usize - 1) >= total.get() as usize {
            return None;
        }
        if bytes.len() != chunk_len(total.get(), index) {
            return None;
        }
        Some(Chunk {
            total,
            index,
            bytes,
        })
    }

    /// How many bytes the state has.
    pub fn total(&self) -> Total
        ensures { result ≡ self.now.total }
    {
        self.total
    }

    /// Which of its chunks this is, from 1.
    pub fn index(&self) -> u8
        ensures index { result ≡ self.now.index }
        ensures place { IsPlace self.now.total result }
    {
        self.index
    }

    /// Its bytes.
    pub fn as_slice(&self) -> &'a [u8]
        ensures bytes { result.now ≡ self.now.bytes }
        ensures cut { IsCut self.now.total self.now.index result.now }
    {
        self.bytes
    }
}

/// What an INSTALL says of a state.
#[derive(Drop)]
pub enum GivenState<'a> {
    /// 0: none is given.
    Nothing,
    /// 1: this one is.
    Whole(State<'a>),
    /// 2: one of so many bytes is, in chunks.
    Chunked(Total),
}
