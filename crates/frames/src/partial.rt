//! Long packets of which some pieces came.

ghost use Rattle.std.specs.Prelude.{◌≡◌, ◌≤◌, ◌+◌, ◌++◌, ℕ, List, [], length, vec_len, vec_capacity, IfOk, IfSome, IsTrue, OnOk};
ghost use Rattle.udp_net.specs.Logs.{Log};
ghost use Rattle.frames.specs.Arrivals.{ArrivedInPieces, GivenIn, is_whole, joined};
ghost use Rattle.frames.specs.Partials.{IsPieceIn, piece_bytes};
ghost use Rattle.frames.specs.Openers.{AreParts, ComesIn, IsPartOf, IsPartialOf};

use crate::{BOOT, MOST_PARTIALS, MOST_PIECES, PIECE_HEAD};
use address::Bytes;
use big_endian::{put, put_u16, put_u64};
use byteorder::{BigEndian, ByteOrder};
use std::alloc::{AllocError, Global};
use std::marker::Model;

/// A piece: the number of its packet, which one of how many it is, and its bytes.
#[derive(Drop)]
pub(crate) struct Piece<'a> {
    pub(crate) number: u64,
    pub(crate) index: u16,
    pub(crate) count: u16,
    pub(crate) bytes: &'a [u8],
}

impl<'a> Model for Piece<'a> {
    ghost use Rattle.frames.specs.Partials.{PieceModel};

    ghost Value = { PieceModel };

    ghost view = { λ p. record { number = p.number; index = p.index; count = p.count; bytes = p.bytes.now } };
}

/// What came of a long packet: the start that sends it, its number there, and a place for each of its pieces.
#[derive(Drop)]
pub(crate) struct Partial {
    boot: [u8; BOOT],
    number: u64,
    pieces: Vec<Option<Bytes>>,
}

/// The long packets of which some pieces came, at most `MOST_PARTIALS`: for a new one the first of the others is dropped. Contracts see their list.
#[derive(Drop)]
pub(crate) struct Partials {
    alloc: Global,
    partials: Vec<Partial>,
}

impl Model for Partials {
    ghost use Rattle.std.specs.Prelude.{List};
    ghost use Rattle.frames.specs.declared.partial.Partial.{Partial};

    ghost Value = { List Partial };

    ghost view = { λ p. p.partials.items };
}

// The piece of a content, if it is one.
pub(crate) fn piece_of(content: &[u8]) -> Option<Piece<'_>>
    ensures { IfSome result (λ p. IsPieceIn content.now p) }
{
    if content.len() < PIECE_HEAD {
        return None;
    }
    Some(Piece {
        number: BigEndian::read_u64(content),
        index: BigEndian::read_u16(&content[8..]),
        count: BigEndian::read_u16(&content[10..]),
        bytes: &content[PIECE_HEAD..],
    })
}

// Appends a piece.
pub(crate) fn put_piece(number: u64, index: u16, count: u16, bytes: &[u8], out: &mut Vec<u8>)
    requires { vec_len out.old + 12 + length bytes.now ≤ vec_capacity out.old }
    ensures items { out.new.items ≡ out.old.items ++ piece_bytes (record { number = number; index = index; count = count; bytes = bytes.now }) }
    ensures room { vec_capacity out.old ≤ vec_capacity out.new }
{
    put_u64(number, out);
    put_u16(index, out);
    put_u16(count, out);
    put(bytes, out);
}

// Whether all pieces are there.
fn is_whole(pieces: &[Option<Bytes>]) -> bool
    ensures { result ≡ is_whole pieces.now }
{
    let Some((first, rest)) = pieces.split_first() else {
        return true;
    };
    first.is_some() && is_whole(rest)
}

// Appends the pieces that are there.
fn join(pieces: &[Option<Bytes>], out: &mut Vec<u8>) -> Result<(), AllocError>
    ensures { OnOk result (out.new.items ≡ out.old.items ++ joined pieces.now) }
{
    let Some((first, rest)) = pieces.split_first() else {
        return Ok(());
    };
    if let Some(bytes) = first {
        out.extend_from_slice(bytes.as_slice())?;
    }
    join(rest, out)
}

impl Partial {
    // A packet of the start with this boot id, of which no piece came.
    fn new(alloc: Global, boot: &[u8; BOOT], piece: &Piece<'_>) -> Result<Partial, AllocError>
        ensures part { IfOk result (λ p. (l : Log) (key : List ℕ) (node : ℕ) → IsPartOf l key node p) }
        ensures its { IfOk result (IsPartialOf boot.now piece.now) }
    {
        let count = usize::from(piece.count);
        let mut pieces = Vec::with_capacity(alloc, count)?;
        for _ in 0..count {
            pieces.push(None)?;
        }
        Ok(Partial {
            boot: *boot,
            number: piece.number,
            pieces,
        })
    }

    // Whether a piece of the start with this boot id is one of it.
    fn is_of(&self, boot: &[u8; BOOT], piece: &Piece<'_>) -> bool
        ensures { IsTrue result → IsPartialOf boot.now piece.now self.now }
    {
        self.boot == *boot
            && self.number == piece.number
            && self.pieces.len() == usize::from(piece.count)
    }

    // Puts a piece in its place, if it has one.
    fn put(&mut self, alloc: Global, piece: &Piece<'_>) -> Result<(), AllocError>
        ensures { (l : Log) (key : List ℕ) (node : ℕ) (boot : List ℕ) → IsPartialOf boot piece.now self.old → ComesIn l key node boot piece.now
            → IsPartOf l key node self.old → IsPartOf l key node self.new }
    {
        let place = usize::from(piece.index);
        if place < self.pieces.len() {
            self.pieces[place] = Some(Bytes::from_slice(alloc, piece.bytes)?);
        }
        Ok(())
    }

    // The packet, if all of its pieces are there.
    fn packet(&self, alloc: Global) -> Result<Option<Bytes>, AllocError>
        ensures { (l : Log) (key : List ℕ) (node : ℕ) → IsPartOf l key node self.now → IfOk result (λ packet. IfSome packet (ArrivedInPieces (GivenIn l) key node)) }
    {
        if !is_whole(self.pieces.as_slice()) {
            return Ok(None);
        }
        let mut bytes = Vec::new(alloc);
        join(self.pieces.as_slice(), &mut bytes)?;
        Ok(Some(Bytes::from_vec(bytes)))
    }
}

impl Partials {
    // None came. Takes no memory.
    pub(crate) fn new(alloc: Global) -> Partials
        ensures { result ≡ [] }
    {
        Partials {
            alloc,
            partials: Vec::new(alloc),
        }
    }

    // The packet of which a piece is one, taken out; a new one, if none of it came.
    fn begin(&mut self, boot: &[u8; BOOT], piece: &Piece<'_>) -> Result<Partial, AllocError>
        ensures parts { (l : Log) (key : List ℕ) (node : ℕ) → AreParts l key node self.old → AreParts l key node self.new × IfOk result (IsPartOf l key node) }
        ensures its { IfOk result (IsPartialOf boot.now piece.now) }
    {
        for place in 0..self.partials.len() {
            if self.partials[place].is_of(boot, piece) {
                return Ok(self.partials.remove(place));
            }
        }
        Partial::new(self.alloc, boot, piece)
    }

    /// Takes a piece of the start with this boot id; the packet, if it is whole by it.
    pub(crate) fn take(
        &mut self,
        boot: &[u8; BOOT],
        piece: &Piece<'_>,
    ) -> Result<Option<Bytes>, AllocError>
        ensures parts { (l : Log) (key : List ℕ) (node : ℕ) → ComesIn l key node boot.now piece.now → AreParts l key node self.old → AreParts l key node self.new }
        ensures whole { (l : Log) (key : List ℕ) (node : ℕ) → ComesIn l key node boot.now piece.now → AreParts l key node self.old
            → IfOk result (λ packet. IfSome packet (ArrivedInPieces (GivenIn l) key node)) }
    {
        if piece.count > MOST_PIECES {
            return Ok(None);
        }
        let mut partial = self.begin(boot, piece)?;
        partial.put(self.alloc, piece)?;
        let Some(packet) = partial.packet(self.alloc)? else {
            if self.partials.len() >= MOST_PARTIALS {
                self.partials.remove(0);
            }
            self.partials.push(partial)?;
            return Ok(None);
        };
        Ok(Some(packet))
    }
}
