//! The marks of what stands between events.

ghost use Rattle.std.specs.Prelude.{◌≡◌, flat_map};
ghost use Rattle.vsync_text.specs.Written.{Appends};
ghost use Rattle.trace_drawing.specs.Packets.{row_in, KnowsWays};
ghost use Rattle.trace_drawing.specs.Asides.{aside_group, asides_text};

use crate::aside::{AsideKind, AsideRow};
use crate::packets::{bytes_numbered, put_handed_group, put_packet_group};
use crate::refusals::put_refused_group;
use crate::ways::Ways;
use address::Bytes;
use std::alloc::Global;
use vsync_text::Text;

/// How the marks of refusals and of packets look, and their words: in print and on a light ground, and on a dark one.
pub const ASIDE_STYLE: &[u8] = b"<style>\
.e,.j{font-size:10px;fill:#999;paint-order:stroke;stroke:#fff;stroke-width:3px}\
.j{fill:#7a6a4a}\
.y{fill:#fff;stroke:#a08a5a}\
.a{stroke:#a08a5a;stroke-width:.8;marker-end:url(#z)}\
.l{stroke:#a08a5a;stroke-width:.8;stroke-dasharray:3 2;marker-end:url(#l)}\
.z{fill:#a08a5a}\
.c{stroke:#d01c1c;stroke-width:1.5}\
@media screen and (prefers-color-scheme:dark){\
.y{fill:#16181c}.e{fill:#777}.e,.j{stroke:#16181c}.j{fill:#b8a888}.y,.a,.l{stroke:#a89468}.z{fill:#a89468}.c{stroke:#ff7070}}\
</style><defs><marker id='z' markerWidth='9' markerHeight='6' refX='9' refY='3' orient='auto' markerUnits='userSpaceOnUse'><path class='z' d='M0 0L9 3L0 6z'/></marker>\
<marker id='l' markerWidth='8' markerHeight='8' refX='4' refY='4' orient='auto' markerUnits='userSpaceOnUse'><path class='c' d='M1 1L7 7M7 1L1 7'/></marker></defs>";

// Appends all that is drawn of an aside.
fn put_aside_group(
    out: &mut Text,
    ways: &Ways,
    rows: &[AsideRow],
    packets: &[Bytes],
    row: &AsideRow,
)
    ensures { KnowsWays (row_in ways.now.sources) (row_in ways.now.ends) rows.now → Appends (aside_group rows.now packets.now row.now) out.old out.new }
{
    match row.kind {
        AsideKind::Refused { line, refusal } => put_refused_group(out, row, line, refusal),
        AsideKind::PutOut(number) => put_packet_group(
            out,
            ways,
            row,
            number,
            bytes_numbered(packets, number),
        ),
        AsideKind::HandedOver(number) => put_handed_group(out, ways, rows, row, number),
    }
}

// Appends all that is drawn of some asides.
fn put_aside_groups(out: &mut Text, ways: &Ways, rows: &[AsideRow], packets: &[Bytes])
    ensures { KnowsWays (row_in ways.now.sources) (row_in ways.now.ends) rows.now → Appends (flat_map (aside_group rows.now packets.now) rows.now) out.old out.new }
{
    for row in rows {
        put_aside_group(out, ways, rows, packets, row);
    }
}

/// Appends all that is drawn of asides and of the packets of which they speak, where there are any.
pub fn put_asides(alloc: Global, out: &mut Text, rows: &[AsideRow], packets: &[Bytes])
    ensures { Appends (asides_text rows.now packets.now) out.old out.new }
{
    if rows.is_empty() {
        return;
    }
    match Ways::new(alloc, rows, packets) {
        Ok(ways) => {
            out.put(ASIDE_STYLE);
            put_aside_groups(out, &ways, rows, packets);
        }
        Err(_) => out.refuse(),
    }
}
