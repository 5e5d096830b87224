//! The marks of packets.

ghost use Rattle.std.specs.Prelude.{◌≡◌, ◌+◌, List, codes, false};
ghost use Rattle.vsync_text.specs.PacketText.{kind_in};
ghost use Rattle.vsync_text.specs.Written.{Appends};
ghost use Rattle.trace_drawing.specs.declared.aside.AsideRow.{AsideRow};
ghost use Rattle.trace_drawing.specs.Spelling.{start_behind};
ghost use Rattle.trace_drawing.specs.Marks.{x_in, y_of};
ghost use Rattle.trace_drawing.specs.Packets.{bytes_numbered, packet_start, packet_name, packet_group, handed_group, row_in, KnowsWays};

use crate::aside::AsideRow;
use crate::marks::{Mark, aside_place, x_in, y_of};
use crate::spelling::{put_mark, put_over, put_some_mark, put_text_start};
use crate::ways::Ways;
use address::Bytes;
use vsync_text::Text;

/// The bytes of the packet of a number, from 1; none where there is none.
pub fn bytes_numbered(packets: &[Bytes], number: u64) -> &[u8]
    ensures { result.now ≡ bytes_numbered number packets.now }
{
    if number == 0 {
        return b"";
    }
    match packets.get((number - 1) as usize) {
        None => b"",
        Some(packet) => packet.as_slice(),
    }
}

// Appends the beginning of a packet's group, and answers the name of what the packet says.
fn put_packet_start(out: &mut Text, number: u64, bytes: &[u8]) -> &'static [u8]
    ensures text { Appends (packet_start number bytes.now) out.old out.new }
    ensures kind { out.new.is_short ≡ false → result.now ≡ kind_in bytes.now }
{
    out.put(b"<g><title>");
    let kind = out.append_packet(number, bytes);
    out.put(b"</title>");
    kind
}

// Appends the beginning of a packet's name.
fn put_name_start(out: &mut Text, row: &AsideRow)
    ensures { Appends (start_behind (codes "<text class='j' x='") (x_in row.now.column + 11) (y_of row.now.level + 4)) out.old out.new }
{
    put_text_start(
        out,
        b"<text class='j' x='",
        x_in(row.column) + 11,
        y_of(row.level) + 4,
    );
}

// Appends the number of a packet and its kind.
fn put_packet_name(out: &mut Text, row: &AsideRow, number: u64, kind: &[u8])
    ensures { Appends (packet_name row.now number kind.now) out.old out.new }
{
    let mut first = *b"00000000000000000000 ";
    put_name_start(out, row);
    put_over(out, number, &mut first);
    out.put(kind);
    out.put(b"</text>");
}

/// Appends all that is drawn of a packet in the row in which it is put out.
pub fn put_packet_group(out: &mut Text, ways: &Ways, row: &AsideRow, number: u64, bytes: &[u8])
    ensures { (rows : List AsideRow) → KnowsWays (row_in ways.now.sources) (row_in ways.now.ends) rows → Appends (packet_group rows row.now number bytes.now) out.old out.new }
{
    let kind = put_packet_start(out, number, bytes);
    put_mark(out, Mark::Packet(aside_place(row)));
    put_some_mark(out, ways.lost(row, number));
    put_packet_name(out, row, number, kind);
    out.put(b"</g>\n");
}

/// Appends all that is drawn of a packet in a row in which it is handed over.
pub fn put_handed_group(out: &mut Text, ways: &Ways, rows: &[AsideRow], row: &AsideRow, number: u64)
    ensures { KnowsWays (row_in ways.now.sources) (row_in ways.now.ends) rows.now → Appends (handed_group rows.now row.now number) out.old out.new }
{
    let mut title = *b"00000000000000000000\n</title>";
    let mut name = *b"00000000000000000000</text>";
    out.put(b"<g><title>deliver ");
    put_over(out, number, &mut title);
    put_some_mark(out, ways.to(rows, row, number));
    put_name_start(out, row);
    put_over(out, number, &mut name);
    out.put(b"</g>\n");
}
