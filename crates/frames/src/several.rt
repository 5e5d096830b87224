//! The content of a frame for several nodes.

ghost use Rattle.std.specs.Prelude.{◌≡◌, ◌≤◌, ◌+◌, ◌*◌, ◌++◌, length, vec_len, vec_capacity, Some, IfOk, IfSome};
ghost use Rattle.frames.specs.Parts.{bytes_for, part_of, rows_of, varied};

use crate::content::is_same_text;
use crate::{ROW, VARIED};
use address::Node;
use big_endian::{put, put_u16};
use byteorder::{BigEndian, ByteOrder};
use std::alloc::{AllocError, Global};

/// What a further node has in place of the six bytes that what is for the first one has at a place.
#[derive(Clone, Copy)]
pub(crate) struct Variant {
    pub(crate) node: Node,
    pub(crate) bytes: [u8; VARIED],
}

// What another content has in place of the six bytes that one has at a place, if it is the same but for these.
pub(crate) fn variant_of(content: &[u8], other: &[u8], place: usize) -> Option<[u8; VARIED]>
    ensures is { IfSome result (λ bytes. varied place bytes content.now ≡ other.now) }
    ensures six { IfSome result (λ bytes. length bytes ≡ 6) }
{
    if content.len() != other.len() || content.len() < VARIED || content.len() - VARIED < place {
        return None;
    }
    let (front, rest) = content.split_at(place);
    let (other_front, other_rest) = other.split_at(place);
    let (_, back) = rest.split_at(VARIED);
    let (bytes, other_back) = other_rest.split_at(VARIED);
    if !is_same_text(front, other_front) || !is_same_text(back, other_back) {
        return None;
    }
    let mut six = [0; VARIED];
    six.copy_from_slice(bytes);
    Some(six)
}

// Appends the rows of some nodes.
pub(crate) fn put_rows(variants: &[Variant], out: &mut Vec<u8>)
    requires { vec_len out.old + length (rows_of variants.now) ≤ vec_capacity out.old }
    ensures items { out.new.items ≡ out.old.items ++ rows_of variants.now }
    ensures room { vec_capacity out.old ≤ vec_capacity out.new }
{
    let Some((first, rest)) = variants.split_first() else {
        return;
    };
    put_u16(first.node.number(), out);
    put(&first.bytes, out);
    put_rows(rest, out);
}

// The six bytes of a node, in so many rows.
fn bytes_for(node: Node, count: usize, rows: &[u8]) -> Option<&[u8]>
    requires { 8 * count ≤ length rows.now }
    ensures is { IfSome result (λ b. bytes_for node count rows.now ≡ Some b.now) }
    ensures six { IfSome result (λ b. length b.now ≡ 6) }
{
    if count == 0 {
        return None;
    }
    if BigEndian::read_u16(rows) == node.number() {
        return Some(&rows[2..ROW]);
    }
    let (_, rest) = rows.split_at(ROW);
    bytes_for(node, count - 1, rest)
}

// Some bytes with six others at a place, if they go so far.
fn varied(
    alloc: Global,
    place: usize,
    bytes: &[u8],
    content: &[u8],
) -> Result<Option<Vec<u8>>, AllocError>
    requires six { length bytes.now ≡ 6 }
    requires near { place ≤ 255 }
    ensures { IfOk result (λ part. IfSome part (λ p. p.items ≡ varied place bytes.now content.now)) }
{
    if content.len() < place + VARIED {
        return Ok(None);
    }
    let (front, _) = content.split_at(place);
    let (_, back) = content.split_at(place + VARIED);
    let mut part = Vec::with_capacity(alloc, content.len())?;
    put(front, &mut part);
    put(bytes, &mut part);
    put(back, &mut part);
    Ok(Some(part))
}

// What is for a node in a frame that is for a first one and for others; nothing, if the node has no row.
pub(crate) fn part_of(
    alloc: Global,
    node: Node,
    first: Node,
    content: &[u8],
) -> Result<Option<Vec<u8>>, AllocError>
    ensures { IfOk result (λ part. IfSome part (λ p. part_of node first content.now ≡ Some p.items)) }
{
    if content.len() < 2 {
        return Ok(None);
    }
    let (place, count) = (usize::from(content[0]), usize::from(content[1]));
    let (_, rows) = content.split_at(2);
    if rows.len() < ROW * count {
        return Ok(None);
    }
    let (_, part) = rows.split_at(ROW * count);
    if first == node {
        return Ok(Some(Vec::from_slice(alloc, part)?));
    }
    match bytes_for(node, count, rows) {
        Some(bytes) => varied(alloc, place, bytes, part),
        None => Ok(None),
    }
}
