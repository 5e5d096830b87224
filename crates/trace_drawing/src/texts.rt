//! The texts of an event.

ghost use Rattle.std.specs.Prelude.{◌≡◌, ◌+◌, codes};
ghost use Rattle.std.specs.Option.{option_copied};
ghost use Rattle.address.specs.Ids.{text_of_address, text_of_view_id};
ghost use Rattle.vsync_text.specs.Written.{Appends};
ghost use Rattle.trace_drawing.specs.Labels.{label};
ghost use Rattle.trace_drawing.specs.Marks.{x_of, y_of, place_of};
ghost use Rattle.trace_drawing.specs.Spelling.{start_behind, text_behind};
ghost use Rattle.trace_drawing.specs.Picture.{beside, given_text, back_text, install_text, texts_of, same_block, name_text, number_text};

use crate::labels::put_label;
use crate::marks::{BLOCK, names_y, place_of, x_of, y_of};
use crate::row::Row;
use crate::spelling::{put_number, put_over, put_shape, put_text_start};
use address::{Address, Bytes, ViewId};
use trace_props::{Event, Install, Numbered};
use vsync_text::Text;

/// Appends an address.
pub fn put_name(out: &mut Text, member: &Address)
    ensures { Appends (text_of_address member.now) out.old out.new }
{
    out.put_decimal(u64::from(member.node().number()));
    put_number(out, b".", u64::from(member.incarnation()));
}

// Appends a view id.
fn put_view_id(out: &mut Text, view: ViewId)
    ensures { Appends (text_of_view_id view) out.old out.new }
{
    out.put_decimal(view.counter());
    out.put_address(b'@', &view.creator());
}

// Appends the beginning of a text beside a mark, behind what stands before its place.
fn put_beside_start(out: &mut Text, before: &[u8], level: u32, column: u32)
    ensures { Appends (start_behind before.now (x_of column + 11) (y_of level + 4)) out.old out.new }
{
    put_text_start(out, before, x_of(column) + 11, y_of(level) + 4);
}

// Appends a text beside a mark.
fn put_beside(out: &mut Text, level: u32, column: u32, content: &[u8])
    ensures { Appends (beside (codes "t") level column content.now) out.old out.new }
{
    put_beside_start(out, b"<text class='t' x='", level, column);
    out.put(content);
    out.put(b"</text>");
}

// Appends what is shown of a payload, beside a mark.
fn put_payload(out: &mut Text, before: &[u8], level: u32, column: u32, payload: &[u8])
    ensures { Appends (text_behind before.now (x_of column + 11) (y_of level + 4) (label payload.now)) out.old out.new }
{
    put_beside_start(out, before, level, column);
    put_label(out, payload);
    out.put(b"</text>");
}

// Appends a mark where a state is given.
fn put_given(out: &mut Text, given: Option<&Bytes>, level: u32, column: u32)
    ensures { Appends (given_text (option_copied given.entry) (place_of level column)) out.old out.new }
{
    match given {
        None => (),
        Some(_) => put_shape(
            out,
            b"<path class='g' d='M",
            place_of(level, column),
            b"m-54-5h10l-5 9z'/>",
        ),
    }
}

// Appends how many messages are handed back.
fn put_back(out: &mut Text, back: &[Numbered], level: u32, column: u32)
    ensures { Appends (back_text back.now level column) out.old out.new }
{
    if back.is_empty() {
        return;
    }
    let mut last = *b"00000000000000000000 back</text>";
    put_text_start(
        out,
        b"<text class='t' x='",
        x_of(column) + 44,
        y_of(level) + 4,
    );
    put_over(out, back.len() as u64, &mut last);
}

// Appends the texts of an install.
fn put_install(out: &mut Text, install: &Install, level: u32, column: u32)
    ensures { Appends (install_text install.now level column) out.old out.new }
{
    put_text_start(out, b"<text class='i' x='", x_of(column), y_of(level) + 4);
    put_view_id(out, install.view.id());
    out.put(b"</text>");
    put_given(out, install.given.as_ref(), level, column);
    put_back(out, install.handed_back.as_slice(), level, column);
}

/// Appends the texts of an event.
pub fn put_texts(out: &mut Text, event: &Event, level: u32, column: u32)
    ensures { Appends (texts_of event.now level column) out.old out.new }
{
    match event {
        Event::Started(_) => put_beside(out, level, column, b"started"),
        Event::Sent(sending) => {
            put_payload(
                out,
                b"<text class='b' x='",
                level,
                column,
                sending.message.payload.as_slice(),
            )
        }
        Event::Delivered(delivery) => {
            put_payload(
                out,
                b"<text class='t' x='",
                level,
                column,
                delivery.message.payload.as_slice(),
            )
        }
        Event::Blocked(_) => (),
        Event::Installed(install) => put_install(out, install.get(), level, column),
        Event::Left(_) => put_beside(out, level, column, b"left"),
        Event::Crashed(_) => put_beside(out, level, column, b"crashed"),
    }
}

// Whether a row lies in the same block as another.
fn same_block(level: u32, before: Option<u32>) -> bool
    ensures { result ≡ same_block level before }
{
    match before {
        None => false,
        Some(before) => before / BLOCK == level / BLOCK,
    }
}

/// Appends the name of a member above its column, at its first event in a block of rows.
pub fn put_name_above(out: &mut Text, row: &Row, member: &Address)
    ensures { Appends (name_text row.now member.now) out.old out.new }
{
    if !same_block(row.level, row.before) {
        put_text_start(
            out,
            b"<text class='n' x='",
            x_of(row.column),
            names_y(row.level),
        );
        put_name(out, member);
        out.put(b"</text>");
    }
}

/// Appends the number of an event, from 1.
pub fn put_row_number(out: &mut Text, number: u32, level: u32)
    ensures { Appends (number_text number level) out.old out.new }
{
    let mut first = *b"00000000000000000000'>";
    let mut second = *b"00000000000000000000</text>";
    out.put(b"<text class='r' x='40' y='");
    put_over(out, y_of(level) + 4, &mut first);
    put_over(out, u64::from(number) + 1, &mut second);
}
