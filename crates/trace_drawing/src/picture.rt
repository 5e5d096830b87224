//! The picture of a trace, as an SVG.

ghost use Rattle.std.specs.Prelude.{◌≡◌, ◌<◌, length, flat_map, IfOk};
ghost use Rattle.vsync_text.specs.Written.{Appends};
ghost use Rattle.trace_drawing.specs.Marks.{marks_of};
ghost use Rattle.trace_drawing.specs.Spelling.{mark_text};
ghost use Rattle.trace_drawing.specs.Picture.{colour, event_group, event_groups, line_group, head_text, picture_of};

use crate::aside::Aside;
use crate::asides::put_asides;
use crate::broken::{put_broken, room_for};
use crate::known::member;
use crate::layout::lay_out;
use crate::marks::{
    Mark, blocked_stretch, is_delivery, last_stretch, line_mark, link, origin_row, own_mark,
    place_of, x_of, y_of,
};
use crate::row::{Line, Row};
use crate::spelling::{put_mark, put_number, put_over, put_some_mark};
use crate::texts::{put_name, put_name_above, put_row_number, put_texts};
use address::Bytes;
use std::alloc::{AllocError, Global};
use trace_props::{Event, Verdict};
use vsync_text::Text;

/// How many colours members have. With more members they come again.
pub const COLOURS: u32 = 12;

/// How marks look, by their class: in print and on a light ground, and on a dark one.
pub const STYLE: &[u8] = b"<style>\
text{font:12px monospace;white-space:pre;fill:#222}\
.r{font-size:10px;fill:#999;text-anchor:end}\
.n{font-weight:bold;text-anchor:middle}\
.i{font-size:11px;text-anchor:middle}\
.b{font-weight:bold}\
.b,.t{paint-order:stroke;stroke:#fff;stroke-width:3px}\
.t{font-size:11px;fill:#666}\
path{fill:none}\
.s{stroke:#aaa;stroke-width:1.5}\
.h{stroke:#c9a227;stroke-width:8;stroke-dasharray:2 3}\
.m{stroke:currentColor;stroke-width:1.3;stroke-opacity:.75}\
.v{stroke:#5b7fb5;stroke-width:18;stroke-opacity:.2}\
.k{stroke:#555;stroke-width:2}\
.u,.d{stroke:currentColor;stroke-linecap:round}\
.u{stroke-width:14}\
.d{stroke-width:8}\
.p{fill:#e4ecf8;stroke:#5b7fb5}\
.g{fill:#2a8f4f}\
.o{fill:#fff;stroke:#555;stroke-width:2}\
.x{stroke:#d01c1c;stroke-width:3}\
.w{fill:#fff}\
.c0{color:#1f6fb4}.c1{color:#d9570f}.c2{color:#2a8f3c}.c3{color:#b81f5e}.c4{color:#7a4fb8}.c5{color:#8a5a3c}\
.c6{color:#c93fa8}.c7{color:#5f6b1e}.c8{color:#148a96}.c9{color:#b88a00}.c10{color:#3c4fc9}.c11{color:#d03030}.c12{color:#888}\
@media screen and (prefers-color-scheme:dark){\
text{fill:#ddd}.r{fill:#777}.t{fill:#aaa}.b,.t{stroke:#16181c}.w,.o{fill:#16181c}.s{stroke:#666}.k,.o{stroke:#bbb}.p{fill:#22324d}\
.c0{color:#5aa9e6}.c1{color:#ff8f4d}.c2{color:#5fc977}.c3{color:#f0679f}.c4{color:#b494f0}.c5{color:#c99a7a}\
.c6{color:#f07fd6}.c7{color:#b5c25a}.c8{color:#4fc9d6}.c9{color:#e6bf45}.c10{color:#8f9bff}.c11{color:#ff7070}}\
</style>";

// The colour of an event: its member's, or that of a delivered message's sender.
fn colour(rows: &[Row], row: &Row, event: &Event) -> u32
    ensures { result ≡ colour rows.now row.now event.now }
{
    if is_delivery(event) {
        match origin_row(rows, row) {
            None => COLOURS,
            Some(from) => from.column % COLOURS,
        }
    } else {
        row.column % COLOURS
    }
}

// Appends the marks of an event.
fn put_marks(out: &mut Text, rows: &[Row], row: &Row, event: &Event)
    ensures { Appends (flat_map mark_text (marks_of rows.now row.now event.now)) out.old out.new }
{
    put_some_mark(out, blocked_stretch(row));
    put_some_mark(out, link(rows, row, event));
    put_mark(out, own_mark(event, place_of(row.level, row.column)));
}

// Appends all that is drawn of an event.
fn put_event(out: &mut Text, rows: &[Row], number: u32, row: &Row, event: &Event)
    ensures { Appends (event_group rows.now number row.now event.now) out.old out.new }
{
    let mut first = *b"00000000000000000000'><title>";
    out.put(b"<g class='c");
    put_over(out, u64::from(colour(rows, row, event)), &mut first);
    out.append_event(event);
    out.put(b"</title>");
    put_name_above(out, row, &member(event));
    put_row_number(out, number, row.level);
    put_marks(out, rows, row, event);
    put_texts(out, event, row.level, row.column);
    out.put(b"</g>\n");
}

// Appends all that is drawn of events.
fn put_events(out: &mut Text, rows: &[Row], events: &[Event])
    requires small { length rows.now < 4294967296 }
    requires events { length events.now ≡ length rows.now }
    ensures { Appends (event_groups rows.now 0 rows.now events.now) out.old out.new }
{
    for number in 0..rows.len() {
        put_event(out, rows, number as u32, &rows[number], &events[number]);
    }
}

// Appends a member's line.
fn put_line(out: &mut Text, bottom: u64, line: &Line)
    ensures { Appends (line_group bottom line.now) out.old out.new }
{
    out.put(b"<g><title>");
    put_name(out, &line.member);
    out.put(b"</title>");
    put_mark(out, line_mark(bottom, line));
    put_some_mark(out, last_stretch(bottom, line));
    out.put(b"</g>\n");
}

// Appends the members' lines.
fn put_lines(out: &mut Text, bottom: u64, lines: &[Line])
    ensures { Appends (flat_map (line_group bottom) lines.now) out.old out.new }
{
    for line in lines {
        put_line(out, bottom, line);
    }
}

// Appends the beginning of a picture.
fn put_head(out: &mut Text, width: u64, height: u64)
    ensures { Appends (head_text width height) out.old out.new }
{
    put_number(
        out,
        b"<svg xmlns='http://www.w3.org/2000/svg' width='",
        width,
    );
    put_number(out, b"' height='", height);
    out.put(b"'>");
    out.put(STYLE);
    out.put(b"<rect class='w' width='100%' height='100%'/>\n");
}

// A number of rows or of columns.
fn counted(number: usize) -> Result<u32, AllocError>
    ensures { IfOk result (λ n. n ≡ number) }
{
    match u32::try_from(number) {
        Ok(number) => Ok(number),
        Err(_) => Err(AllocError),
    }
}

/// The picture of a trace as an SVG, with the asides between its events and the packets of which they speak, and with a mark where a rule
/// breaks, if the verdict names one (docs/FORMATS.md, "Pictures"). Packets are numbered from 1. Refused where memory is, or where there are more than `ROWS` events and asides.
pub fn draw(
    alloc: Global,
    events: &[Event],
    asides: &[Aside],
    packets: &[Bytes],
    verdict: Verdict,
) -> Result<Vec<u8>, AllocError>
    ensures { IfOk result (λ picture. picture.items ≡ picture_of events.now asides.now packets.now verdict) }
{
    let layout = lay_out(alloc, events, asides)?;
    let columns = counted(layout.lines.len())?;
    let levels = counted(layout.rows.len() + layout.asides.len())?;
    let bottom = y_of(levels);
    let mut out = Text::new(alloc);
    put_head(&mut out, x_of(columns) + room_for(verdict), bottom + 20);
    put_lines(&mut out, bottom, layout.lines.as_slice());
    put_events(&mut out, layout.rows.as_slice(), events);
    put_asides(alloc, &mut out, layout.asides.as_slice(), packets);
    put_broken(&mut out, layout.rows.as_slice(), events, verdict);
    out.put(b"</svg>\n");
    out.whole()
}
