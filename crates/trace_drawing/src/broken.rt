//! The mark of a broken rule: where it breaks, and which it is, in words.

ghost use Rattle.std.specs.Prelude.{◌≡◌, ◌++◌, ◌∷◌, List, codes, slice_get};
ghost use Rattle.vsync_text.specs.Written.{Appends};
ghost use Rattle.trace_drawing.specs.Broken.{words_of, broken_words, broken_group, broken_in, broken_text, room_for};
ghost use Rattle.std.specs.Option.{option_copied};

use crate::marks::{Mark, place_of, x_of, y_of};
use crate::row::Row;
use crate::spelling::{put_mark, put_text_start};
use trace_props::{Event, Rule, Verdict};
use vsync_text::Text;

/// How the mark of a broken rule looks, and its words: in print and on a light ground, and on a dark one.
pub const BROKEN_STYLE: &[u8] = b"<style>\
.f{stroke:#d01c1c;stroke-width:2;stroke-dasharray:6 2}\
.q{font-weight:bold;fill:#d01c1c;paint-order:stroke;stroke:#fff;stroke-width:3px}\
@media screen and (prefers-color-scheme:dark){\
.f{stroke:#ff7070}.q{fill:#ff7070;stroke:#16181c}}\
</style>";

/// How much wider a picture is for the words of a broken rule.
pub const WORDS: u64 = 260;

/// What is wrong where a rule breaks.
fn words_of(rule: Rule) -> &'static [u8]
    ensures { result.now ≡ words_of rule }
{
    match rule {
        Rule::WellPlaced => b"happens out of place",
        Rule::RisingViews => b"not a view that it may install",
        Rule::SoundMessages => b"not its sender's next message",
        Rule::OneOrder => b"delivered in another order",
        Rule::SameNext => b"other messages delivered before",
        Rule::Together => b"others came together with it",
        Rule::HandedBack => b"other messages to be handed back",
        Rule::StateOfEntry => b"enters with another state",
    }
}

/// How much wider a picture is for a verdict.
pub fn room_for(verdict: Verdict) -> u64
    ensures { result ≡ room_for verdict }
{
    match verdict {
        Verdict::Holds => 0,
        Verdict::Breaks { rule: _, place: _ } => WORDS,
    }
}

// Appends the words beside the mark of a broken rule.
fn put_broken_words(out: &mut Text, rule: Rule, level: u32, column: u32)
    ensures { Appends (broken_words rule level column) out.old out.new }
{
    put_text_start(
        out,
        b"<text class='q' x='",
        x_of(column) + 112,
        y_of(level) + 4,
    );
    out.put(words_of(rule));
    out.put(b"</text>");
}

// Appends all that is drawn of a rule that an event breaks.
fn put_broken_group(out: &mut Text, rule: Rule, row: &Row, event: &Event)
    ensures { Appends (broken_group rule row.now event.now) out.old out.new }
{
    out.put(b"<g><title>");
    out.put(words_of(rule));
    out.put(b"\n");
    out.append_event(event);
    out.put(b"</title>");
    put_mark(out, Mark::Broken(place_of(row.level, row.column)));
    put_broken_words(out, rule, row.level, row.column);
    out.put(b"</g>\n");
}

// Appends what is drawn of a rule that breaks in a row, where there is one.
fn put_broken_in(out: &mut Text, rule: Rule, row: Option<&Row>, event: Option<&Event>)
    ensures { Appends (broken_in rule (option_copied row.entry) (option_copied event.entry)) out.old out.new }
{
    match row {
        None => (),
        Some(row) => match event {
            None => (),
            Some(event) => {
                out.put(BROKEN_STYLE);
                put_broken_group(out, rule, row, event)
            }
        },
    }
}

/// Appends what is drawn of a verdict.
pub fn put_broken(out: &mut Text, rows: &[Row], events: &[Event], verdict: Verdict)
    ensures { Appends (broken_text rows.now events.now verdict) out.old out.new }
{
    let Verdict::Breaks { rule, place } = verdict else {
        return;
    };
    if place == 0 {
        return;
    }
    match u32::try_from(place - 1) {
        Err(_) => out.refuse(),
        Ok(number) => {
            let index = number as usize;
            put_broken_in(out, rule, rows.get(index), events.get(index))
        }
    }
}
