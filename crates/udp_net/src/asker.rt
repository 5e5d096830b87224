//! An address that asks to be let in, and when it is not heard (docs/RUNNER.md, "What a net drops").

ghost use Rattle.std.specs.Prelude.{◌≡◌, map};
ghost use Rattle.udp_net.specs.Sieve.{is_later, is_barred_by, is_barred, asking, opened, stage_after, pause_after, is_inside, calm_after, waited};

use crate::{CALM, FIRST_PAUSE, LONGEST_PAUSE};
use address::{Address, Node};
use wire_values::Roster;

/// Whether an address that asks is heard.
#[derive(Clone, Copy)]
pub(crate) enum Stage {
    /// Yes: it did not ask yet, or not since its last pause.
    Free,
    /// Yes, for so many rounds more.
    Window(u32),
    /// No, for so many rounds more.
    Pause(u32),
}

/// A node of the settings, and what became of the latest of its addresses that asked to be let in.
#[derive(Clone, Copy)]
pub(crate) struct Asker {
    pub(crate) node: Node,
    pub(crate) latest: Option<Address>,
    pub(crate) stage: Stage,
    // How long the next pause is, in rounds.
    pub(crate) next_pause: u32,
    // For how many rounds in a row the address is in the view.
    pub(crate) calm: u32,
}

// Whether an address has a later incarnation than the latest one that asked.
fn is_later(address: Address, asker: &Asker) -> bool
    ensures { result ≡ is_later address asker.now }
{
    match asker.latest {
        Some(last) => last.incarnation() < address.incarnation(),
        None => true,
    }
}

fn is_barred_by(address: Address, asker: &Asker) -> bool
    ensures { result ≡ is_barred_by address asker.now }
{
    asker.node == address.node()
        && !is_later(address, asker)
        && matches!(asker.stage, Stage::Pause(_))
}

/// Whether an address is not heard if it asks.
pub(crate) fn is_barred(address: Address, askers: &[Asker]) -> bool
    ensures { result ≡ is_barred address askers.now }
{
    let Some((first, rest)) = askers.split_first() else {
        return false;
    };
    is_barred_by(address, first) || is_barred(address, rest)
}

fn opened(silent: u32, stage: Stage) -> Stage
    ensures { result ≡ opened silent stage }
{
    match stage {
        Stage::Free => Stage::Window(silent),
        Stage::Window(left) => Stage::Window(left),
        Stage::Pause(left) => Stage::Pause(left),
    }
}

fn asking(silent: u32, address: Address, asker: Asker) -> Asker
    ensures { result ≡ asking silent address asker }
{
    if asker.node != address.node() {
        return asker;
    }
    if is_later(address, &asker) {
        return Asker {
            node: asker.node,
            latest: Some(address),
            stage: Stage::Window(silent),
            next_pause: FIRST_PAUSE,
            calm: 0,
        };
    }
    Asker {
        stage: opened(silent, asker.stage),
        ..asker
    }
}

/// An address asks and is heard: the first time that opens its window of so many rounds.
pub(crate) fn ask(silent: u32, address: Address, askers: &mut [Asker])
    ensures { askers.new ≡ map (asking silent address) askers.old }
{
    for asker in askers.iter_mut() {
        *asker = asking(silent, address, *asker);
    }
}

fn stage_after(pause: u32, stage: Stage) -> Stage
    ensures { result ≡ stage_after pause stage }
{
    match stage {
        Stage::Free => Stage::Free,
        Stage::Window(left) => {
            if left <= 1 {
                Stage::Pause(pause)
            } else {
                Stage::Window(left - 1)
            }
        }
        Stage::Pause(left) => {
            if left <= 1 {
                Stage::Free
            } else {
                Stage::Pause(left - 1)
            }
        }
    }
}

fn pause_after(pause: u32, stage: Stage) -> u32
    ensures { result ≡ pause_after pause stage }
{
    match stage {
        Stage::Free | Stage::Pause(_) => pause,
        Stage::Window(left) => {
            if left <= 1 {
                pause.saturating_mul(2).min(LONGEST_PAUSE)
            } else {
                pause
            }
        }
    }
}

// Whether the member is in a view, and an address is in it.
fn is_inside(address: Address, view: &Option<Roster>) -> bool
    ensures { result ≡ is_inside address view.now }
{
    match view {
        Some(view) => view.members().as_slice().contains(&address),
        None => false,
    }
}

fn calm_after(view: &Option<Roster>, asker: &Asker) -> u32
    ensures { result ≡ calm_after view.now asker.now }
{
    match asker.latest {
        Some(address) if is_inside(address, view) => asker.calm.saturating_add(1).min(CALM),
        _ => 0,
    }
}

fn waited(view: &Option<Roster>, asker: Asker) -> Asker
    ensures { result ≡ waited view.now asker }
{
    let calm = calm_after(view, &asker);
    if calm == CALM {
        return Asker {
            stage: Stage::Free,
            next_pause: FIRST_PAUSE,
            calm,
            ..asker
        };
    }
    Asker {
        stage: stage_after(asker.next_pause, asker.stage),
        next_pause: pause_after(asker.next_pause, asker.stage),
        calm,
        ..asker
    }
}

/// A round is over, and the member is in this view, or in none.
pub(crate) fn wait(view: &Option<Roster>, askers: &mut [Asker])
    ensures { askers.new ≡ map (waited view.now) askers.old }
{
    for asker in askers.iter_mut() {
        *asker = waited(view, *asker);
    }
}
