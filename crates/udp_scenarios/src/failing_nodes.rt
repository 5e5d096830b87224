//! The trace of a script of four nodes where a call of their nets fails.

use crate::failing::Tried;
use crate::hub::Hub;
use crate::stories::{MERGE, holds};
use chat_log::ChatLog;
use memory_nets::{Failing, Wires};
use std::alloc::{AllocError, Global};
use std::cell::RefCell;
use udp_net::{FOUR, Settings, settings_of};
use udp_runs::run_udp;
use vsync_text::Status;

/// How their text ends where nothing fails.
const MERGED: &[u8] = b"chat 1.1 1.1:61\nchat 2.1 1.1:61\nchat 3.1 1.1:61\nchat 4.1 1.1:61\n";

/// What came of the script: whether it was done and its trace holds, whether its text ends with the merged chats, and how often the nets were asked and sent.
#[derive(Clone, Copy)]
struct Came {
    holds: bool,
    is_merged: bool,
    receives: u64,
    sends: u64,
}

/// What comes of the script over nets of which one call fails.
fn run(alloc: Global, settings: &Settings, failing: Failing) -> Came {
    let wires = RefCell::new(Wires::failing(alloc, failing));
    let mut text = Vec::new(alloc);
    let mut reader = MERGE;
    let mut hub = Hub::new(&wires);
    let status = run_udp::<ChatLog, _, _, _>(alloc, settings, &mut hub, &mut reader, &mut text);
    let (receives, sends) = match wires.try_borrow() {
        Ok(wires) => (wires.receives, wires.sends),
        Err(_) => (0, 0),
    };
    Came {
        holds: status == Status::Done && holds::<ChatLog>(alloc, text.as_slice()),
        is_merged: text.as_slice().ends_with(MERGED),
        receives,
        sends,
    }
}

/// Each receive fails in turn: the trace holds.
pub fn receives(alloc: Global) -> Result<Tried, AllocError> {
    let mut tried = Tried::new();
    let settings = settings_of(alloc, FOUR)?;
    let whole = run(alloc, &settings, Failing::Nothing);
    tried.count(whole.holds && whole.is_merged);
    for before in 0..whole.receives {
        tried.count(run(alloc, &settings, Failing::Receive(before + 1)).holds);
    }
    Ok(tried)
}

/// Each send fails in turn: the trace holds.
pub fn sends(alloc: Global) -> Result<Tried, AllocError> {
    let mut tried = Tried::new();
    let settings = settings_of(alloc, FOUR)?;
    let whole = run(alloc, &settings, Failing::Nothing);
    tried.count(whole.holds && whole.is_merged);
    for before in 0..whole.sends {
        tried.count(run(alloc, &settings, Failing::Send(before + 1)).holds);
    }
    Ok(tried)
}
