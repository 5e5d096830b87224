//! How a node stands, for programs.

use crate::counts::Counts;
use crate::json::{put_all, put_fields, put_quoted, put_view};
use crate::kept::Keeps;
use crate::standing::Standing;
use address::limits::VERSION;
use address::{Address, Node};
use std::alloc::Global;
use std::time::Duration;
use vsync_text::{Part, Text};

fn milliseconds(time: Duration) -> u64 {
    u64::try_from(time.as_millis()).unwrap_or(u64::MAX)
}

// What it keeps.
fn name_of(keeps: Keeps) -> &'static [u8] {
    match keeps {
        Keeps::Map => b"map",
        Keeps::Locks => b"locks",
        Keeps::Nothing => b"other",
    }
}

// What its items are called.
fn items_of(keeps: Keeps) -> &'static [u8] {
    match keeps {
        Keeps::Locks => b"locks",
        _ => b"keys",
    }
}

// The view, its members and its coordinator.
fn put_members(out: &mut Text, counts: &Counts) {
    let members = counts.members.as_slice();
    put_view(out, b",\"view\":", counts.view);
    out.put(b",\"members\":");
    put_all(out, members);
    match members.first() {
        Some(coordinator) => put_quoted(out, b",\"coordinator\":", coordinator),
        None => out.put(b",\"coordinator\":null"),
    }
}

// Whether its member is blocked, and for how long.
fn put_blocked(out: &mut Text, blocked: Option<Duration>) {
    match blocked {
        Some(time) => {
            out.put(b",\"blocked\":true");
            put_fields(out, &[(b"blocked_ms", milliseconds(time))]);
        }
        None => out.put(b",\"blocked\":false,\"blocked_ms\":null"),
    }
}

// The last incarnation of each node that was in a view.
fn put_seen(out: &mut Text, seen: &[Address]) {
    out.put(b",\"incarnations\":{");
    for (i, address) in seen.iter().enumerate() {
        let before: &[u8] = if i > 0 { b",\"" } else { b"\"" };
        out.put_parts(&[
            Part::Text(before),
            Part::Number(u64::from(address.node().number())),
            Part::Text(b"\":"),
            Part::Number(u64::from(address.incarnation())),
        ]);
    }
    out.put(b"}");
}

// What it counts.
fn put_counts(out: &mut Text, standing: &Standing<'_>) {
    let counts = standing.counts;
    let kept = standing.kept;
    put_fields(
        out,
        &[
            (b"delivered_in_view", counts.place),
            (b"stable_in_view", standing.stable),
            (b"outstanding_sends", kept.waits() as u64),
            (b"waiting_writes", standing.waiting_writes as u64),
            (b"waiting_for_locks", kept.queued() as u64),
            (b"connections", standing.clients as u64),
            (items_of(kept.keeps()), kept.len() as u64),
            (b"views", counts.views),
            (b"merges", counts.merges),
            (b"suspicions", counts.lost),
            (b"strange", standing.strange),
        ],
    );
}

// The nodes that are not in the view.
fn put_sought(out: &mut Text, sought: &[Node]) {
    out.put(b",\"sought\":[");
    for (i, node) in sought.iter().enumerate() {
        let before: &[u8] = if i > 0 { b"," } else { b"" };
        out.put(before);
        out.put_decimal(u64::from(node.number()));
    }
    out.put(b"]");
}

/// The status as JSON.
pub(crate) fn status(alloc: Global, standing: &Standing<'_>) -> Text {
    let mut out = Text::new(alloc);
    out.put_parts(&[
        Part::Text(b"{\"address\":\""),
        Part::Address(standing.own),
        Part::Text(b"\",\"keeps\":\""),
        Part::Text(name_of(standing.kept.keeps())),
        Part::Text(b"\""),
    ]);
    put_members(&mut out, standing.counts);
    put_blocked(&mut out, standing.blocked);
    put_counts(&mut out, standing);
    put_sought(&mut out, standing.sought.as_slice());
    put_seen(&mut out, standing.counts.seen.as_slice());
    out.put_parts(&[
        Part::Text(b",\"uptime_ms\":"),
        Part::Number(milliseconds(standing.uptime)),
        Part::Text(b",\"build\":\"vsync, packets of version "),
        Part::Number(u64::from(VERSION)),
        Part::Text(b"\"}\n"),
    ]);
    out
}
