ghost use Rattle.std.specs.Prelude.{◌≡◌, ◌≤◌, ◌+◌, false, [], ◌∷◌, ◌++◌, filter, IfOk, OnOk, OnErr, IfSome, IsSome, IsTrue};
ghost use Rattle.std.specs.List.{list_all};
ghost use Rattle.address.specs.declared.limits.TheConstants.{WINDOW};
ghost use Rattle.flush.specs.Cuts.{greatest_stable, held_among, cut_base, cut_items};
ghost use Rattle.flush.specs.Flushes.{IsFlush, has_reported, comes_from, group, is_awaited, reported, progress_of, has_come_from, together_of, all_come_from, previous_of};

use crate::cut::Cut;
use crate::owned_report::OwnedReport;
use crate::progress::Progress;
use address::{Address, ViewId};
use indexmap::IndexMap;
use indexmap::map::Slice;
use std::alloc::{AllocError, Global};
use std::marker::Model;
use view::Addresses;
use wire_values::{Count, Entry, Report};

/// A flush: a proposal, its list, and the reports of those of the list who reported, in order of arrival (docs/PROTOCOL.md, "Flush").
pub struct Flush {
    alloc: Global,
    proposal: ViewId,
    members: Addresses,
    reports: IndexMap<Address, OwnedReport>,
}

impl Drop for Flush {
    fn drop(self) {
        let Flush {
            alloc: _,
            proposal: _,
            members: _,
            reports: _,
        } = self;
    }
}

impl Model for Flush {
    ghost use Rattle.flush.specs.Flushes.{FlushModel, IsFlush};

    ghost Value = { FlushModel };

    ghost view = { λ f. record { proposal = f.proposal; members = f.members; reports = f.reports.entries } };

    ghost invariant = { λ f. IsFlush (record { proposal = f.proposal; members = f.members; reports = f.reports.entries }) };
}

/// Records a report behind those that came before.
fn keep(
    reports: &mut IndexMap<Address, OwnedReport>,
    from: Address,
    kept: OwnedReport,
) -> Result<(), AllocError>
    requires { has_reported from reports.old.entries ≡ false }
    ensures ok { OnOk result (reports.new.entries ≡ reports.old.entries ++ (from, kept) ∷ []) }
    ensures err { OnErr result (reports.new.entries ≡ reports.old.entries) }
{
    reports.insert(from, kept)?;
    Ok(())
}

impl Flush {
    /// The flush for a proposal of this list: nobody reported yet. Takes no memory.
    pub fn start(alloc: Global, proposal: ViewId, members: Addresses) -> Flush
        ensures { result ≡ record { proposal = proposal; members = members; reports = [] } }
    {
        Flush {
            alloc,
            proposal,
            members,
            reports: IndexMap::new(alloc),
        }
    }

    /// The proposal.
    pub fn proposal(&self) -> ViewId
        ensures { result ≡ self.now.proposal }
    {
        self.proposal
    }

    /// The list of the proposal.
    pub fn members(&self) -> &Addresses
        ensures { result.now ≡ self.now.members }
    {
        &self.members
    }

    /// What holds of every flush, for proofs: it reads nothing.
    pub fn kept(&self)
        ensures { IsFlush self.now }
    {
        let _ = &self.proposal;
    }

    /// Whether an address has reported.
    pub fn has_reported(&self, address: &Address) -> bool
        ensures { result ≡ has_reported address.now self.now.reports }
    {
        self.reports.contains_key(address)
    }

    /// The view from which an address reported that it comes; `None` where it comes from none, and where it did not report. Takes no memory.
    pub fn previous(&self, address: &Address) -> Option<ViewId>
        ensures { result ≡ previous_of address.now self.now }
    {
        match self.reports.get(address) {
            None => None,
            Some(report) => *report.previous(),
        }
    }

    /// Whether all who reported come from this view. Takes no memory.
    pub fn all_come_from(&self, view: &ViewId) -> bool
        ensures { result ≡ all_come_from view.now self.now.reports }
    {
        all_come_from(self.reports.as_slice(), &Some(*view))
    }

    /// Takes a report from an address. It is recorded, behind those that came before, exactly where the address stands in the list and has not
    /// reported; else nothing changes. The answer is Complete exactly where all of the list have reported then. The report is copied. An error
    /// for want of memory comes only where it was to be recorded; it leaves the flush as it was.
    pub fn report(&mut self, from: Address, report: &Report<'_>) -> Result<Progress, AllocError>
        ensures progress { IfOk result (λ p. p ≡ progress_of self.new) }
        ensures ok { OnOk result (self.new ≡ reported from report.now self.old) }
        ensures err { OnErr result (self.new ≡ self.old) }
        ensures err_only { OnErr result (IsTrue (is_awaited from self.old)) }
    {
        if self.is_awaited(&from) {
            let kept = OwnedReport::copy_of(self.alloc, report)?;
            keep(&mut self.reports, from, kept)?;
        }
        Ok(self.progress())
    }

    fn is_awaited(&self, address: &Address) -> bool
        ensures { result ≡ is_awaited address.now self.now }
    {
        self.members.contains(address) && !self.has_reported(address)
    }

    fn progress(&self) -> Progress
        ensures { result ≡ progress_of self.now }
    {
        for member in self.members.as_slice() {
            if !self.has_reported(member) {
                return Progress::Waiting;
            }
        }
        Progress::Complete
    }

    /// Those of the list who reported the same previous view as this address, itself among them, in the list's order; nobody where it has not
    /// reported. To come from no view counts as the same.
    pub fn together(&self, alloc: Global, address: &Address) -> Result<Addresses, AllocError>
        ensures { IfOk result (λ t. t ≡ together_of address.now self.now) }
    {
        match self.reports.get(address) {
            None => Ok(Addresses::from_vec(Vec::new(alloc))),
            Some(report) => self.all_from(alloc, report.previous()),
        }
    }

    fn all_from(&self, alloc: Global, previous: &Option<ViewId>) -> Result<Addresses, AllocError>
        ensures { IfOk result (λ t. t ≡ filter (λ m. has_come_from previous.now m self.now.reports) self.now.members) }
    {
        let mut left = Vec::new(alloc);
        for member in self.members.as_slice() {
            if self.has_come_from(previous, member) {
                left.push(*member)?;
            }
        }
        Ok(Addresses::from_vec(left))
    }

    fn has_come_from(&self, previous: &Option<ViewId>, address: &Address) -> bool
        ensures { result ≡ has_come_from previous.now address.now self.now.reports }
    {
        match self.reports.get(address) {
            None => false,
            Some(report) => report.comes_from(previous),
        }
    }

    /// The cut of a view, or, for `None`, of those who come from no view, which is empty and has the base 0: the base is the greatest stable count
    /// among the reports from that view; the entries are those with the numbers base + 1, base + 2, .., up to the last before one that no such
    /// report has, each as the first report that came gives it. They lie in the flush's own copies. An
    /// error for want of memory comes only where there is an entry.
    pub fn cut(&self, alloc: Global, previous: &Option<ViewId>) -> Result<Cut<'_>, AllocError>
        ensures base { IfOk result (λ c. c.base ≡ cut_base (group previous.now self.now.reports)) }
        ensures items { IfOk result (λ c. c.entries.items ≡ cut_items (group previous.now self.now.reports)) }
        ensures err_only { OnErr result (let reports = group previous.now self.now.reports in IsSome (held_among reports (greatest_stable reports + 1))) }
    {
        let base = greatest_stable(self.reports.as_slice(), previous);
        let mut entries = Vec::new(alloc);
        let mut number = base.get() + 1;
        while let Some(entry) = held_among(self.reports.as_slice(), previous, number) {
            entries.push(entry)?;
            number += 1;
        }
        Ok(Cut { base, entries })
    }
}

/// Whether all of these reports are from a view.
fn all_come_from(reports: Slice<'_, Address, OwnedReport>, previous: &Option<ViewId>) -> bool
    ensures { result ≡ list_all (λ p. comes_from previous.now p.1) reports.entry }
{
    match reports.split_first() {
        None => true,
        Some(((_, report), others)) => {
            report.comes_from(previous) && all_come_from(others, previous)
        }
    }
}

/// The greatest stable count among the reports from a view.
fn greatest_stable(reports: Slice<'_, Address, OwnedReport>, previous: &Option<ViewId>) -> Count
    ensures { result ≡ greatest_stable (group previous.now reports.entry) }
{
    match reports.split_first() {
        None => Count::zero(),
        Some(((_, report), others)) => {
            let greatest = greatest_stable(others, previous);
            if report.comes_from(previous) && report.stable() > greatest {
                report.stable()
            } else {
                greatest
            }
        }
    }
}

/// The entry at a number in the first of the reports from a view that has one there.
fn held_among<'a>(
    reports: Slice<'a, Address, OwnedReport>,
    previous: &Option<ViewId>,
    number: u64,
) -> Option<Entry<'a>>
    ensures found { result ≡ held_among (group previous.now reports.entry) number }
    ensures near { IfSome result (λ _. number ≤ greatest_stable (group previous.now reports.entry) + WINDOW) }
{
    let ((_, report), others) = reports.split_first()?;
    if report.comes_from(previous) {
        if let Some(entry) = report.held_at(number) {
            return Some(entry);
        }
    }
    held_among(others, previous, number)
}
