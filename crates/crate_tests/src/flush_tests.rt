ghost use Rattle.std.specs.Prelude.{◌≤◌};

use crate::fixtures::{first_at, listed, view_id};
use address::ViewId;
use flush::{Flush, Progress, cut_covers};
use std::alloc::Global;
use wire_values::{Count, Entry, Held, Report};

/// The flush for `9@1.1` with the first addresses of these nodes as its list.
fn started(alloc: Global, nodes: &[u16]) -> Option<Flush> {
    Some(Flush::start(alloc, view_id(9), listed(alloc, nodes)?))
}

/// The spelling of the entry of 1.1 at a number, which is its place as well, with one byte as its payload (docs/WIRE.md).
fn spelled(number: u8, byte: u8) -> [u8; 25] {
    [
        0, 0, 0, 0, 0, 0, 0, number, 0, 1, 0, 0, 0, 1, 0, 0, 0, 0, 0, 0, 0, number, 0, 1, byte,
    ]
}

/// What comes from the view `3@1.1`: its stable and delivered counts, and as many entries as are spelled.
fn report<'a>(stable: u64, delivered: u64, held: &'a [[u8; 25]]) -> Option<Report<'a>> {
    Report::new(
        ViewId::new(3, first_at(1))?,
        Count::new(stable)?,
        Count::new(delivered)?,
        Held::new(u8::try_from(held.len()).ok()?, held.as_flattened())?,
    )
}

/// How far the flush has come once a node has reported; `None` where it did not.
fn came(flush: &mut Flush, node: u16, report: Option<Report<'_>>) -> Option<Progress>
    requires { 1 ≤ node }
{
    flush.report(first_at(node), &report?).ok()
}

/// Whether these are the only entries, each with one byte as its payload.
fn are(entries: &[Entry<'_>], bytes: &[u8]) -> bool {
    for (entry, byte) in entries.iter().zip(bytes) {
        if entry.payload.as_slice() != [*byte].as_slice() {
            return false;
        }
    }
    entries.len() == bytes.len()
}

/// Whether the cut of a view has this base and entries with these bytes.
fn cuts(flush: &Flush, alloc: Global, view: Option<ViewId>, base: u64, bytes: &[u8]) -> bool {
    match flush.cut(alloc, &view) {
        Ok(cut) => cut.base.get() == base && are(&cut.entries, bytes),
        Err(_) => false,
    }
}

#[test]
fn a_cut_goes_up_to_the_first_hole(rt: HostRuntime) {
    cut_covers();
    let alloc = rt.alloc();
    let mut flush = started(alloc, &[1, 2, 3]).expect(&rt, "a flush");
    let one = [spelled(3, 30), spelled(6, 60)];
    let two = [spelled(1, 10), spelled(4, 40)];
    let three = [spelled(2, 20), spelled(7, 70)];
    let first = came(&mut flush, 1, report(2, 3, &one));
    assert!(rt; first == Some(Progress::Waiting), "one report");
    let second = came(&mut flush, 2, report(0, 1, &two));
    assert!(rt; second == Some(Progress::Waiting), "two reports");
    let third = came(&mut flush, 3, report(1, 2, &three));
    assert!(rt; third == Some(Progress::Complete), "all reports");
    let view = Some(view_id(3));
    assert!(rt; cuts(&flush, alloc, view, 2, &[30, 40]), "the cut");
}

/// Whether those together with a node are the first addresses of these nodes.
fn goes_with(flush: &Flush, alloc: Global, node: u16, nodes: &[u16]) -> bool
    requires { 1 ≤ node }
{
    match (flush.together(alloc, &first_at(node)), listed(alloc, nodes)) {
        (Ok(together), Some(want)) => together.as_slice() == want.as_slice(),
        _ => false,
    }
}

#[test]
fn those_of_one_view_go_together(rt: HostRuntime) {
    let alloc = rt.alloc();
    let mut flush = started(alloc, &[1, 2, 3]).expect(&rt, "a flush");
    flush.kept();
    assert!(rt; flush.proposal() == view_id(9), "the proposal");
    assert_eq!(rt; flush.members().len(), 3, "the length of the list");
    let first = came(&mut flush, 3, report(0, 0, &[]));
    assert!(rt; first == Some(Progress::Waiting), "one, of 3@1.1");
    assert!(rt; flush.has_reported(&first_at(3)), "it has reported");
    assert!(rt; flush.all_come_from(&view_id(3)), "all are of 3@1.1");
    let second = came(&mut flush, 1, report(0, 0, &[]));
    assert!(rt; second == Some(Progress::Waiting), "two, of 3@1.1");
    let third = came(&mut flush, 2, Some(Report::nothing()));
    assert!(rt; third == Some(Progress::Complete), "one of no view");
    assert!(rt; goes_with(&flush, alloc, 1, &[1, 3]), "of one view");
    assert!(rt; goes_with(&flush, alloc, 2, &[2]), "of no view");
}
