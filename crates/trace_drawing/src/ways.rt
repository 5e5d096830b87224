//! From where packets come, and which are lost.

ghost use Rattle.std.specs.Prelude.{◌≡◌, ◌++◌, ◌∷◌, [], List, length, IfOk, OnOk};
ghost use Rattle.std.specs.Option.{option_copied};
ghost use Rattle.trace_drawing.specs.declared.aside.AsideRow.{AsideRow};
ghost use Rattle.trace_drawing.specs.Marks.{x_in};
ghost use Rattle.trace_drawing.specs.Packets.{towards, lost_way, way_to, row_in, KnowsWays};

use crate::aside::{AsideKind, AsideRow};
use crate::marks::{Mark, Place, aside_place, x_in, y_of};
use crate::packet_rows::PacketRows;
use address::Bytes;
use std::alloc::{AllocError, Global};

/// In which row each packet is put out last, and in which it is handed over last, if it is.
pub struct Ways {
    pub sources: PacketRows,
    pub ends: PacketRows,
}

impl Drop for Ways {
    fn drop(self) {
        let Ways {
            sources: _,
            ends: _,
        } = self;
    }
}

// A little way from one column towards another.
fn towards(from: Option<u32>, to: Option<u32>) -> u64
    ensures { result ≡ towards (x_in from) (x_in to) }
{
    let x = x_in(from);
    let end = x_in(to);
    if end < x {
        x.saturating_sub(34)
    } else if x < end {
        x + 34
    } else {
        x
    }
}

// Keeps the next row. Refused behind 2^32 rows.
fn note_row(
    sources: &mut PacketRows,
    ends: &mut PacketRows,
    row: &AsideRow,
    index: usize,
) -> Result<(), AllocError>
    ensures { OnOk result ((rows : List AsideRow) → index ≡ length rows
        → KnowsWays (row_in sources.old) (row_in ends.old) rows → KnowsWays (row_in sources.new) (row_in ends.new) (rows ++ row.now ∷ [])) }
{
    let Ok(number) = u32::try_from(index) else {
        return Err(AllocError);
    };
    match row.kind {
        AsideKind::Refused { .. } => Ok(()),
        AsideKind::PutOut(packet) => sources.put(packet, number),
        AsideKind::HandedOver(packet) => ends.put(packet, number),
    }
}

impl Ways {
    /// The ways of the packets of which rows speak, of these packets or of others. Refused where there are more than 2^32 rows.
    pub fn new(alloc: Global, rows: &[AsideRow], packets: &[Bytes]) -> Result<Ways, AllocError>
        ensures { IfOk result (λ ways. KnowsWays (row_in ways.sources) (row_in ways.ends) rows.now) }
    {
        let mut sources = PacketRows::new(alloc, packets)?;
        let mut ends = PacketRows::new(alloc, packets)?;
        for (index, row) in rows.iter().enumerate() {
            note_row(&mut sources, &mut ends, row, index)?;
        }
        Ok(Ways { sources, ends })
    }

    /// The way of a packet that is put out in a row, if it is lost.
    pub fn lost(&self, row: &AsideRow, packet: u64) -> Option<Mark>
        ensures { (rows : List AsideRow) → KnowsWays (row_in self.now.sources) (row_in self.now.ends) rows → result ≡ lost_way rows row.now packet }
    {
        if self.ends.get(packet).is_some() {
            return None;
        }
        Some(Mark::Lost {
            from: aside_place(row),
            to: Place {
                x: towards(row.column, row.towards),
                y: y_of(row.level) + 16,
            },
        })
    }

    /// The way of a packet that is handed over in a row, if it is known where it was put out.
    pub fn to(&self, rows: &[AsideRow], row: &AsideRow, packet: u64) -> Option<Mark>
        ensures { KnowsWays (row_in self.now.sources) (row_in self.now.ends) rows.now → result ≡ way_to rows.now row.now packet }
    {
        match self.sources.get(packet) {
            None => None,
            Some(source) => match rows.get(source as usize) {
                None => None,
                Some(from) => Some(Mark::Way {
                    from: aside_place(from),
                    to: aside_place(row),
                }),
            },
        }
    }
}
