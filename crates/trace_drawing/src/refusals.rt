//! The marks of what was refused.

ghost use Rattle.std.specs.Prelude.{◌≡◌};
ghost use Rattle.vsync_text.specs.Written.{Appends};
ghost use Rattle.trace_drawing.specs.Refused.{reason_of, refused_place, refused_group};

use crate::aside::AsideRow;
use crate::marks::{x_in, y_of};
use crate::spelling::put_number;
use address::limits::Refusal;
use vsync_text::Text;

// Why it was refused.
fn reason_of(refusal: Refusal) -> &'static [u8]
    ensures { result.now ≡ reason_of refusal }
{
    match refusal {
        Refusal::NotConnected => b"not connected",
        Refusal::Blocked => b"blocked",
        Refusal::Busy => b"busy",
        Refusal::TooLong => b"too long",
        Refusal::AlreadyConnected => b"already connected",
        Refusal::Closed => b"closed",
        Refusal::Memory => b"memory",
        Refusal::Exhausted => b"exhausted",
        Refusal::BadName => b"bad name",
    }
}

// Appends the place of a refusal's mark.
fn put_refused_place(out: &mut Text, row: &AsideRow)
    ensures { Appends (refused_place row.now) out.old out.new }
{
    let x = x_in(row.column).saturating_sub(5);
    put_number(out, b"<text class='e' x='", x);
    put_number(out, b"' y='", y_of(row.level) + 4);
    out.put(b"'>");
}

/// Appends all that is drawn of the refusal of a line's event.
pub fn put_refused_group(out: &mut Text, row: &AsideRow, line: u64, refusal: Refusal)
    ensures { Appends (refused_group row.now line refusal) out.old out.new }
{
    put_refused_place(out, row);
    out.put(b"<title>");
    out.append_refusal(line, refusal.number());
    out.put(b"</title>&#8856; ");
    out.put(reason_of(refusal));
    out.put(b"</text>\n");
}
