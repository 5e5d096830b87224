//! Payloads as labels: text where they are printable, else hexadecimal; cut, and escaped.

ghost use Rattle.std.specs.Prelude.{◌≡◌, take};
ghost use Rattle.std.specs.List.{list_all};
ghost use Rattle.vsync_text.specs.Written.{Appends};
ghost use Rattle.trace_drawing.specs.Labels.{escaped_byte, escaped, is_printable, is_text, dots, label};
ghost use Rattle.trace_drawing.specs.Promises.{is_plain};

use vsync_text::Text;

/// The most letters that are shown of a payload that is text.
pub const LETTERS: usize = 12;

/// The most bytes that are shown of another.
pub const BYTES: usize = 5;

// Whether a byte is a printable letter of ASCII.
fn is_printable(byte: u8) -> bool
    ensures { result ≡ is_printable byte }
{
    32 <= byte && byte <= 126
}

fn is_text(bytes: &[u8]) -> bool
    ensures { result ≡ is_text bytes.now }
{
    for byte in bytes {
        if !is_printable(*byte) {
            return false;
        }
    }
    true
}

// Appends a byte as text of XML.
fn put_escaped(out: &mut Text, byte: u8)
    ensures { Appends (escaped_byte byte) out.old out.new }
{
    match byte {
        b'<' => out.put(b"&lt;"),
        b'>' => out.put(b"&gt;"),
        b'&' => out.put(b"&amp;"),
        _ => out.put(&[byte]),
    }
}

// Whether a byte means itself in a text of XML.
fn is_plain(byte: u8) -> bool
    ensures { result ≡ is_plain byte }
{
    byte != b'<' && byte != b'>' && byte != b'&'
}

fn is_plain_text(bytes: &[u8]) -> bool
    ensures { result ≡ list_all is_plain bytes.now }
{
    for byte in bytes {
        if !is_plain(*byte) {
            return false;
        }
    }
    true
}

// Appends bytes as text of XML.
fn put_text(out: &mut Text, bytes: &[u8])
    ensures { Appends (escaped bytes.now) out.old out.new }
{
    if is_plain_text(bytes) {
        out.put(bytes);
        return;
    }
    for byte in bytes {
        put_escaped(out, *byte);
    }
}

// The first bytes, at most so many.
fn front(bytes: &[u8], most: usize) -> &[u8]
    ensures { result.now ≡ take most bytes.now }
{
    if bytes.len() <= most {
        return bytes;
    }
    let (front, _) = bytes.split_at(most);
    front
}

// Appends three dots where there are more than so many.
fn put_dots(out: &mut Text, bytes: &[u8], most: usize)
    ensures { Appends (dots most bytes.now) out.old out.new }
{
    if most < bytes.len() {
        out.put(b"&#8230;");
    }
}

/// Appends what is shown of a payload.
pub fn put_label(out: &mut Text, payload: &[u8])
    ensures { Appends (label payload.now) out.old out.new }
{
    if is_text(payload) {
        put_text(out, front(payload, LETTERS));
        put_dots(out, payload, LETTERS)
    } else {
        out.put(b"0x");
        out.put_hex(front(payload, BYTES));
        put_dots(out, payload, BYTES)
    }
}
