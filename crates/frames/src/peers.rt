//! What is known of those whose frames came.

ghost use Rattle.std.specs.Prelude.{◌≡◌, ◌<◌, ◌^◌, ℕ, List, true, None, Some, IfOk};
ghost use Rattle.frames.specs.Taken.{StayTaken, WasTaken};

use crate::window::Window;
use crate::{BOOT, PEERS};
use std::alloc::{AllocError, Global};

/// A sender: its boot id, and which of its frames were taken.
#[derive(Drop)]
pub(crate) struct Peer {
    boot: [u8; BOOT],
    window: Window,
}

/// The senders that were heard, at most `PEERS`: for a new one the first of the others is forgotten.
#[derive(Drop)]
pub(crate) struct Peers {
    peers: Vec<Peer>,
}

// Takes a counter of the first sender with this boot id; answers whether it may be taken, or `None` where there is no such sender.
fn take_in(peers: &mut [Peer], boot: &[u8; BOOT], counter: u64) -> Option<bool>
    requires { counter < 2 ^ 63 }
    ensures fresh { result ≡ Some true → WasTaken boot.now counter peers.old → ⊥ }
    ensures taken { result ≡ Some true → WasTaken boot.now counter peers.new }
    ensures unknown { result ≡ None → WasTaken boot.now counter peers.old → ⊥ }
    ensures same { result ≡ None → peers.new ≡ peers.old }
    ensures stay { (other : List ℕ) (earlier : ℕ) → WasTaken other earlier peers.old → WasTaken other earlier peers.new }
{
    let (first, rest) = peers.split_first_mut()?;
    if first.boot == *boot {
        return Some(first.window.take(counter));
    }
    take_in(rest, boot, counter)
}

impl Peers {
    // None was heard. Takes no memory.
    pub(crate) fn new(alloc: Global) -> Peers {
        Peers {
            peers: Vec::new(alloc),
        }
    }

    // Takes a counter of a sender that was heard; `None` if it was not.
    fn take_known(&mut self, boot: &[u8; BOOT], counter: u64) -> Option<bool>
        requires { counter < 2 ^ 63 }
        ensures fresh { result ≡ Some true → WasTaken boot.now counter self.old.peers.items → ⊥ }
        ensures taken { result ≡ Some true → WasTaken boot.now counter self.new.peers.items }
        ensures unknown { result ≡ None → WasTaken boot.now counter self.old.peers.items → ⊥ }
        ensures same { result ≡ None → self.new.peers.items ≡ self.old.peers.items }
        ensures stay { (other : List ℕ) (earlier : ℕ) → WasTaken other earlier self.old.peers.items → WasTaken other earlier self.new.peers.items }
    {
        take_in(self.peers.as_mut_slice(), boot, counter)
    }

    // A new sender, in place of the first one if there is no room for one more.
    fn add(&mut self, boot: &[u8; BOOT]) -> Result<(), AllocError>
        ensures stay { StayTaken self.old.peers.items self.new.peers.items }
    {
        if self.peers.len() >= PEERS {
            self.peers.remove(0);
        }
        self.peers.push(Peer {
            boot: *boot,
            window: Window::new(),
        })?;
        Ok(())
    }

    /// Takes a counter of the start with this boot id; answers whether it may be taken: it was not taken before, and is taken then.
    pub(crate) fn take(&mut self, boot: &[u8; BOOT], counter: u64) -> Result<bool, AllocError>
        ensures fresh { IfOk result (λ taken. taken ≡ true → WasTaken boot.now counter self.old.peers.items → ⊥) }
        ensures taken { IfOk result (λ taken. taken ≡ true → WasTaken boot.now counter self.new.peers.items) }
        ensures stay { StayTaken self.old.peers.items self.new.peers.items }
    {
        if counter >= 9_223_372_036_854_775_808 {
            return Ok(false);
        }
        if let Some(taken) = self.take_known(boot, counter) {
            return Ok(taken);
        }
        self.add(boot)?;
        Ok(self.take_known(boot, counter).unwrap_or(false))
    }
}
