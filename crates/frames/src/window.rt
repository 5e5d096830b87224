//! Which frames of a sender were taken.

ghost use Rattle.std.specs.Prelude.{◌≡◌, ◌≤◌, ◌<◌, ◌%◌, ◌^◌, ℕ, Bool, true, not, replicate};
ghost use Rattle.frames.specs.Windows.{is_used, window_after};

use crate::SPAN;

/// The counters that were taken: for each remainder by `SPAN` one more than the highest. One is taken if no higher one of its remainder was, so none is twice, and none that is
/// as much as `SPAN` behind.
#[derive(Clone, Copy)]
pub(crate) struct Window {
    least: [u64; SPAN],
}

impl Window {
    // None was taken.
    pub(crate) fn new() -> Window
        ensures { result.least ≡ replicate 256 0 }
    {
        Window { least: [0; SPAN] }
    }

    // Takes a counter, if it may be; answers whether it is.
    pub(crate) fn take(&mut self, counter: u64) -> bool
        requires { counter < 2 ^ 63 }
        ensures answer { result ≡ not (is_used counter self.old.least) }
        ensures after { self.new.least ≡ window_after counter self.old.least }
        ensures taken { is_used counter self.new.least ≡ true }
        ensures stay { (other : ℕ) → is_used other self.old.least ≡ true → is_used other self.new.least ≡ true }
    {
        let place = (counter % SPAN as u64) as usize;
        if self.least[place] > counter {
            return false;
        }
        self.least[place] = counter + 1;
        true
    }
}
