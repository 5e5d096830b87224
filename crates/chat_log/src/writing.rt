//! A chat's state as bytes. What grows is grown once, before the first byte is put.

ghost use Rattle.std.specs.Prelude.{◌≡◌, ◌≤◌, ◌<◌, ◌+◌, ◌^◌, ◌++◌, length, vec_len, vec_capacity, OnOk, OnErr};
ghost use Rattle.std.specs.List.{flat_map, AllByRecursion};
ghost use Rattle.byteorder.specs.Endian.{big_bytes};
ghost use Rattle.chat_log.specs.Chat.{IsLine, IsChat};
ghost use Rattle.chat_log.specs.Encoding.{line_bytes, chat_encode};

use crate::{ChatSize, Line};
use big_endian::{put, put_address, put_u8, put_u16};
use std::alloc::AllocError;
use std::collections::VecDeque;

// In how many bytes some lines are written.
fn length_of(lines: &[Line]) -> usize
    requires lines { AllByRecursion IsLine lines.now }
    requires few { length lines.now < 2 ^ 32 }
    ensures { result ≡ length (flat_map line_bytes lines.now) }
{
    let mut length = 0;
    for line in lines {
        length += 8 + line.payload.as_slice().len();
    }
    length
}

fn put_count<L: ChatSize>(count: usize, out: &mut Vec<u8>)
    requires count { count ≤ L.LINES }
    requires room { vec_len out.old + L.WIDTH ≤ vec_capacity out.old }
    ensures items { out.new.items ≡ out.old.items ++ big_bytes L.WIDTH count }
    ensures room { vec_capacity out.old ≤ vec_capacity out.new }
{
    if L::WIDTH == 1 {
        put_u8(count as u8, out);
    } else {
        put_u16(count as u16, out);
    }
}

fn put_line(line: &Line, out: &mut Vec<u8>)
    requires line { IsLine line.now }
    requires room { vec_len out.old + length (line_bytes line.now) ≤ vec_capacity out.old }
    ensures items { out.new.items ≡ out.old.items ++ line_bytes line.now }
    ensures room { vec_capacity out.old ≤ vec_capacity out.new }
{
    put_address(line.sender, out);
    put_u16(line.payload.as_slice().len() as u16, out);
    put(line.payload.as_slice(), out);
}

fn put_lines(lines: &[Line], out: &mut Vec<u8>)
    requires lines { AllByRecursion IsLine lines.now }
    requires room { vec_len out.old + length (flat_map line_bytes lines.now) ≤ vec_capacity out.old }
    ensures items { out.new.items ≡ out.old.items ++ flat_map line_bytes lines.now }
    ensures room { vec_capacity out.old ≤ vec_capacity out.new }
{
    for line in lines {
        put_line(line, out);
    }
}

// Appends the encoding of a chat's lines, whose room is taken at once. On refusal the vector's items are as they were.
pub(crate) fn put_chat<L: ChatSize>(
    lines: &VecDeque<Line>,
    out: &mut Vec<u8>,
) -> Result<(), AllocError>
    requires { IsChat L.LINES lines.now.items }
    ensures ok { OnOk result (out.new.items ≡ out.old.items ++ chat_encode L.WIDTH lines.now.items) }
    ensures err { OnErr result (out.new.items ≡ out.old.items) }
{
    let (older, newer) = lines.as_slices();
    out.reserve(L::WIDTH + length_of(older) + length_of(newer))?;
    put_count::<L>(lines.len(), out);
    put_lines(older, out);
    put_lines(newer, out);
    Ok(())
}
