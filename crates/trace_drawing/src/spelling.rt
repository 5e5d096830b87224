//! How marks are spelled.

ghost use Rattle.std.specs.Prelude.{◌≡◌, ◌≤◌, ◌++◌, codes, length, drop, flat_map, option_to_list};
ghost use Rattle.std.specs.Fmt.{decimal};
ghost use Rattle.vsync_text.specs.Written.{Appends};
ghost use Rattle.trace_drawing.specs.Spelling.{point, path, bow, number_behind, start_behind, mark_text};

use crate::marks::{Mark, Place};
use itoa::write_digits;
use vsync_text::Text;

/// Appends a number and what stands behind it. The digits are written over the end of the first 20 bytes, in front of what stands behind them, so that both are
/// appended at once.
pub fn put_over(out: &mut Text, number: u64, form: &mut [u8])
    requires room { 20 ≤ length form.old }
    ensures { Appends (decimal number ++ drop 20 form.old) out.old out.new }
{
    let start = write_digits(number, form, 20);
    let (_, text) = form.split_at(start);
    out.put(text);
}

// Appends a place of a path, behind a letter or more.
fn put_point(out: &mut Text, before: &[u8], x: u64, y: u64)
    ensures { Appends (point before.now x y) out.old out.new }
{
    let mut first = *b"00000000000000000000 ";
    out.put(before);
    put_over(out, x, &mut first);
    out.put_decimal(y);
}

/// Appends a shape at a place, behind what stands before the place.
pub fn put_shape(out: &mut Text, before: &[u8], at: Place, shape: &[u8])
    ensures { Appends (point before.now at.x at.y ++ shape.now) out.old out.new }
{
    put_point(out, before, at.x, at.y);
    out.put(shape);
}

// Appends a straight line, behind what stands before its first place.
fn put_straight(out: &mut Text, before: &[u8], from: Place, to: Place)
    ensures { Appends (point before.now from.x from.y ++ point (codes "L") to.x to.y ++ codes "'/>") out.old out.new }
{
    put_point(out, before, from.x, from.y);
    put_point(out, b"L", to.x, to.y);
    out.put(b"'/>");
}

// Appends a message's line that is bowed to the left.
fn put_bowed(out: &mut Text, from: Place, to: Place)
    ensures { Appends (path (codes "m") from (bow from to)) out.old out.new }
{
    let down = to.y.saturating_sub(from.y);
    let mut first = *b"00000000000000000000 0 ";
    put_point(out, b"<path class='m' d='M", from.x, from.y);
    out.put(b"c-30 0-30 ");
    put_over(out, down, &mut first);
    out.put_decimal(down);
    out.put(b"'/>");
}

/// Appends a mark.
pub fn put_mark(out: &mut Text, mark: Mark)
    ensures { Appends (mark_text mark) out.old out.new }
{
    match mark {
        Mark::Lifeline { from, to } => put_straight(out, b"<path class='s' d='M", from, to),
        Mark::Hatch { from, to } => put_straight(out, b"<path class='h' d='M", from, to),
        Mark::Message { from, to } => {
            if from.x == to.x {
                put_bowed(out, from, to)
            } else {
                put_straight(out, b"<path class='m' d='M", from, to)
            }
        }
        Mark::Band { from, to } => put_straight(out, b"<path class='v' d='M", from, to),
        Mark::Start(at) => put_shape(out, b"<path class='k' d='M", at, b"m-8 0h16'/>"),
        Mark::Send(at) => put_shape(out, b"<path class='u' d='M", at, b"h0'/>"),
        Mark::Delivery(at) => put_shape(out, b"<path class='d' d='M", at, b"h0'/>"),
        Mark::Block(at) => put_shape(out, b"<path class='k' d='M", at, b"m-6-2h12m0 4h-12'/>"),
        Mark::View(at) => put_shape(
            out,
            b"<path class='p' d='M",
            at,
            b"m-30-9h60a9 9 0 0 1 0 18h-60a9 9 0 0 1 0-18z'/>",
        ),
        Mark::Leave(at) => put_shape(
            out,
            b"<path class='o' d='M",
            at,
            b"m-6 0a6 6 0 1 0 12 0a6 6 0 1 0-12 0'/>",
        ),
        Mark::Crash(at) => put_shape(
            out,
            b"<path class='x' d='M",
            at,
            b"m-7-7l14 14m0-14l-14 14'/>",
        ),
        Mark::Packet(at) => put_shape(out, b"<path class='y' d='M", at, b"m-4-4h8v8h-8z'/>"),
        Mark::Lost { from, to } => put_straight(out, b"<path class='l' d='M", from, to),
        Mark::Way { from, to } => put_straight(out, b"<path class='a' d='M", from, to),
        Mark::Broken(at) => put_shape(out, b"<path class='f' d='M", at, b"m-60-10h165v20h-165z'/>"),
    }
}

/// Appends a mark, if there is one.
pub fn put_some_mark(out: &mut Text, mark: Option<Mark>)
    ensures { Appends (flat_map mark_text (option_to_list mark)) out.old out.new }
{
    match mark {
        None => (),
        Some(mark) => put_mark(out, mark),
    }
}

/// Appends a number behind some bytes.
pub fn put_number(out: &mut Text, before: &[u8], number: u64)
    ensures { Appends (number_behind before.now number) out.old out.new }
{
    out.put(before);
    out.put_decimal(number);
}

/// Appends the beginning of a text at a place, behind what stands before the place. Its content and `</text>` are to follow.
pub fn put_text_start(out: &mut Text, before: &[u8], x: u64, y: u64)
    ensures { Appends (start_behind before.now x y) out.old out.new }
{
    let mut first = *b"00000000000000000000' y='";
    let mut second = *b"00000000000000000000'>";
    out.put(before);
    put_over(out, x, &mut first);
    put_over(out, y, &mut second);
}
