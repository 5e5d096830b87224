ghost use Rattle.std.specs.Prelude.{◌≡◌, ◌≤◌, ◌+◌, true, IfOk, OnOk, IfSome};
ghost use Rattle.address.specs.declared.limits.TheConstants.{WINDOW};
ghost use Rattle.wire_values.specs.Values.{held_at};
ghost use Rattle.wire_values.specs.Lists.{is_report};
ghost use Rattle.flush.specs.Flushes.{comes_from};

use address::ViewId;
use std::alloc::{AllocError, Global};
use std::marker::Model;
use wire_values::{Count, Entry, Held, Report};

/// A report as a flush keeps it: its counts, and a copy of the bytes that spell its entries.
#[derive(Drop)]
pub(crate) struct OwnedReport {
    previous: Option<ViewId>,
    stable: Count,
    delivered: Count,
    count: u8,
    held: Vec<u8>,
}

impl Model for OwnedReport {
    ghost use Rattle.std.specs.Prelude.{◌≡◌, true};
    ghost use Rattle.wire_values.specs.Values.{Report};
    ghost use Rattle.wire_values.specs.Reading.{listed, is_whole, list_at};
    ghost use Rattle.wire_values.specs.Fields.{placed_at};
    ghost use Rattle.wire_values.specs.Lists.{is_report};

    ghost Value = { Report };

    ghost view = { λ k. record { previous = k.previous; stable = k.stable; delivered = k.delivered; held = listed (list_at placed_at k.count k.held.items) } };

    ghost invariant = { λ k. (is_whole (list_at placed_at k.count k.held.items) ≡ true) × (is_report (record { previous = k.previous; stable = k.stable; delivered = k.delivered; held = listed (list_at placed_at k.count k.held.items) }) ≡ true) };
}

impl OwnedReport {
    /// A copy of a lent report.
    pub fn copy_of(alloc: Global, report: &Report<'_>) -> Result<OwnedReport, AllocError>
        ensures copy { IfOk result (λ k. k ≡ report.now) }
        ensures report { OnOk result (is_report report.now ≡ true) }
    {
        let previous = report.previous();
        let held = report.held();
        Ok(OwnedReport {
            previous,
            stable: report.stable(),
            delivered: report.delivered(),
            count: held.len() as u8,
            held: Vec::from_slice(alloc, held.text())?,
        })
    }

    /// Whether it is of a member that comes from this view, or, for `None`, from no view.
    pub fn comes_from(&self, previous: &Option<ViewId>) -> bool
        ensures answer { result ≡ comes_from previous.now self.now }
        ensures report { is_report self.now ≡ true }
    {
        self.previous == *previous
    }

    /// The view that it is of.
    pub fn previous(&self) -> &Option<ViewId>
        ensures { result.now ≡ self.now.previous }
    {
        &self.previous
    }

    /// Up to which number it knows that all have the view's order.
    pub fn stable(&self) -> Count
        ensures { result ≡ self.now.stable }
    {
        self.stable
    }

    /// Its entries past the stable one, with their numbers.
    fn held(&self) -> Held<'_>
        ensures held { result ≡ self.now.held }
        ensures report { is_report self.now ≡ true }
    {
        match Held::new(self.count, self.held.as_slice()) {
            Some(held) => held,
            None => unreachable!(),
        }
    }

    /// Its entry at a number.
    pub fn held_at(&self, number: u64) -> Option<Entry<'_>>
        ensures found { result ≡ held_at number self.now.held }
        ensures near { IfSome result (λ _. number ≤ self.now.stable + WINDOW) }
    {
        let mut left = self.held();
        while let Some((place, entry)) = left.take_first() {
            if number == place.get() {
                return Some(entry);
            }
        }
        None
    }
}
