//! How a node stands, in the text format that Prometheus reads.

use crate::counts::Counts;
use crate::kept::{Keeps, Kept};
use crate::standing::Standing;
use std::alloc::Global;
use vsync_text::{Part, Text};

// Metrics of a kind: for each its name and its number.
fn put_metrics(out: &mut Text, kind: &'static [u8], metrics: &[(&'static [u8], u64)]) {
    for (name, number) in metrics {
        out.put_parts(&[
            Part::Text(b"# TYPE vsync_"),
            Part::Text(name),
            Part::Text(b" "),
            Part::Text(kind),
            Part::Text(b"\nvsync_"),
            Part::Text(name),
            Part::Text(b" "),
            Part::Number(*number),
            Part::Text(b"\n"),
        ]);
    }
}

// What only rises.
fn put_counters(out: &mut Text, counts: &Counts, strange: u64) {
    put_metrics(
        out,
        b"counter",
        &[
            (b"messages_sent_total", counts.sent),
            (b"messages_delivered_total", counts.delivered),
            (b"views_installed_total", counts.views),
            (b"merges_total", counts.merges),
            (b"suspicions_total", counts.lost),
            (b"http_requests_total", counts.requests),
            (b"http_writes_total", counts.writes),
            (b"strange_datagrams_total", strange),
        ],
    );
}

// How the view stands, and what waits.
fn put_gauges(out: &mut Text, standing: &Standing<'_>) {
    let counts = standing.counts;
    let blocked = match standing.blocked {
        Some(time) => time.as_secs(),
        None => 0,
    };
    put_metrics(
        out,
        b"gauge",
        &[
            (b"view_members", counts.members.len() as u64),
            (b"blocked", u64::from(counts.blocked.is_some())),
            (b"blocked_seconds", blocked),
            (b"view_delivered_messages", counts.place),
            (b"view_stable_messages", standing.stable),
            (b"nodes_seen", counts.seen.len() as u64),
            (b"outstanding_sends", standing.kept.waits() as u64),
            (b"waiting_writes", standing.waiting_writes as u64),
            (b"connections", standing.clients as u64),
            (b"nodes_sought", standing.sought.len() as u64),
        ],
    );
}

// What is kept.
fn put_kept(out: &mut Text, kept: &Kept) {
    match kept.keeps() {
        Keeps::Map => put_metrics(out, b"gauge", &[(b"map_keys", kept.len() as u64)]),
        Keeps::Locks => put_metrics(
            out,
            b"gauge",
            &[
                (b"locks_held", kept.len() as u64),
                (b"waiting_for_locks", kept.queued() as u64),
            ],
        ),
        Keeps::Nothing => (),
    }
}

/// The metrics: counters only rise.
pub(crate) fn metrics(alloc: Global, standing: &Standing<'_>) -> Text {
    let mut out = Text::new(alloc);
    put_counters(&mut out, standing.counts, standing.strange);
    put_gauges(&mut out, standing);
    put_kept(&mut out, standing.kept);
    let uptime = standing.uptime.as_secs();
    put_metrics(&mut out, b"gauge", &[(b"uptime_seconds", uptime)]);
    out
}
