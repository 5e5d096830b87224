ghost use Rattle.std.specs.Prelude.{◌≡◌, true, Some};
ghost use Rattle.std.specs.Option.{SomeIff};
ghost use Rattle.wire_values.specs.Values.{nothing_reported};
ghost use Rattle.wire_values.specs.Reading.{IsRead};
ghost use Rattle.wire_values.specs.Lists.{are_held, is_filled, is_report, report_at};

use crate::Count;
use crate::entries::{Held, held_at, highest_next};
use crate::error::WireError;
use crate::fields::Reader;
use crate::numbers::count_at;
use address::ViewId;
use address::limits::{GREATEST_NUMBER, WINDOW};
use std::marker::Model;

/// What a member reports of the view that it comes from: its id, how far it has the view's order, and the
/// entries past the stable one, in lent bytes.
#[derive(Drop)]
pub struct Report<'a> {
    previous: Option<ViewId>,
    stable: Count,
    delivered: Count,
    held: Held<'a>,
}

impl<'a> Model for Report<'a> {
    ghost use Rattle.std.specs.Prelude.{◌≡◌, true};
    ghost use Rattle.wire_values.specs.Values.{Report};
    ghost use Rattle.wire_values.specs.Lists.{is_report};

    ghost Value = { Report };

    ghost view = { λ r. record { previous = r.previous; stable = r.stable; delivered = r.delivered; held = r.held } };

    ghost invariant = { λ r. is_report (record { previous = r.previous; stable = r.stable; delivered = r.delivered; held = r.held }) ≡ true };
}

// Whether the entries' places rise as a report's do.
fn are_held(stable: Count, delivered: Count, held: &Held<'_>) -> bool
    ensures { result ≡ are_held stable delivered stable held.now }
{
    let mut left = held.again();
    let mut last = stable.get();
    while let Some((place, _)) = left.take_first() {
        let highest = highest_next(stable.get(), delivered.get(), last);
        if (place.get() <= last) | (place.get() > highest) {
            return false;
        }
        last = place.get();
    }
    true
}

impl<'a> Report<'a> {
    /// The report of a member that comes from no view.
    pub fn nothing() -> Report<'a>
        ensures { result ≡ nothing_reported }
    {
        Report {
            previous: None,
            stable: Count::zero(),
            delivered: Count::zero(),
            held: Held::none(),
        }
    }

    /// The report of a member of a view. `None` where the counts are no report's (the stable one is above the
    /// delivered one, or more than the window below it), or the entries are none: their places must rise from
    /// the stable count, by one up to the delivered count, and lie within the window.
    pub fn new(
        previous: ViewId,
        stable: Count,
        delivered: Count,
        held: Held<'a>,
    ) -> Option<Report<'a>>
        ensures { SomeIff result (is_filled (record { previous = Some previous; stable = stable; delivered = delivered; held = held.entry }) ≡ true) (record { previous = Some previous; stable = stable; delivered = delivered; held = held.entry }) }
    {
        let highest = (stable.get() + WINDOW).min(GREATEST_NUMBER);
        let near = (stable.get() <= delivered.get()) & (delivered.get() <= highest);
        let enough = delivered.get() <= stable.get() + held.len() as u64;
        let fits = near & (held.len() as u64 <= WINDOW) & enough;
        if !fits || !are_held(stable, delivered, &held) {
            return None;
        }
        Some(Report {
            previous: Some(previous),
            stable,
            delivered,
            held,
        })
    }

    /// The view that it comes from.
    pub fn previous(&self) -> Option<ViewId>
        ensures value { result ≡ self.now.previous }
        ensures report { is_report self.now ≡ true }
    {
        self.previous
    }

    /// Up to which number of that view's order it knows that all have it.
    pub fn stable(&self) -> Count
        ensures { result ≡ self.now.stable }
    {
        self.stable
    }

    /// How many messages of that view it has delivered.
    pub fn delivered(&self) -> Count
        ensures { result ≡ self.now.delivered }
    {
        self.delivered
    }

    /// The entries past the stable one that it has, with their places.
    pub fn held(&self) -> Held<'a>
        ensures { result ≡ self.now.held }
    {
        self.held.again()
    }
}

/// Reads what a REPORT says: of no view, or of one with its counts and what is held. An error is that of the first field that fails.
#[tactic(auto, unfolding(crate::specs::Lists::report_at, crate::specs::Lists::filled_at, crate::specs::Lists::held_count_at))]
pub fn report_at<'a>(from: &mut Reader<'a>) -> Result<Report<'a>, WireError>
    ensures { IsRead (λ x. (x, from.new)) result (report_at from.old) }
{
    let flag = from.u8(0, 1, WireError::Value)?;
    if flag == 0 {
        return Ok(Report::nothing());
    }
    let previous = from.view_id()?;
    let stable = count_at(0, GREATEST_NUMBER, from)?;
    let highest = (stable.get() + WINDOW).min(GREATEST_NUMBER);
    let delivered = count_at(stable.get(), highest, from)?;
    let count = from.u8(0, WINDOW as u8, WireError::Length)?;
    if delivered.get() > stable.get() + count as u64 {
        return Err(WireError::Value);
    }
    let held = held_at(stable.get(), delivered.get(), count, from)?;
    Ok(Report {
        previous: Some(previous),
        stable,
        delivered,
        held,
    })
}
