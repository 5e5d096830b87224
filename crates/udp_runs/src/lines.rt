ghost use Rattle.std.specs.Prelude.{◌≡◌, ℕ, List, [], Option, Some, None, IfOk, IfSome};
ghost use Rattle.udp_runs.specs.Came.{Gives};
ghost use Rattle.udp_runs.specs.declared.lines.LinesError.TheVariants as lines;

use crate::NodeStatus;
use std::alloc::AllocError;
use std::time::Duration;
use trace_props::Event;

/// Why no more lines come.
#[derive(Clone, Copy)]
pub enum LinesError {
    /// What they are read from cannot be read, or is there no longer.
    Gone,
    /// Memory was refused.
    Memory,
}

impl From<AllocError> for LinesError {
    ghost from_gives = { λ _ e. e ≡ lines.Memory };

    fn from(_refused: AllocError) -> LinesError {
        LinesError::Memory
    }
}

/// Where the lines come from that a node sends, one after another and as time passes, each with a line feed behind it. Who they come from may also hear what happens at the node.
pub trait Lines {
    /// All that came so far, one piece behind another; none, where no list of it is kept.
    ghost came: { Self → Option (List ℕ) };

    /// Appends to a text what came since the last call, or a part of it. It does not wait, and may append nothing.
    fn more(&mut self, text: &mut Vec<u8>) -> Result<(), LinesError>
        ensures { Gives (came self.old) (came self.new) text.old.items text.new.items result };

    /// Takes back lines that came and were not sent, or not delivered, each with its line feed but perhaps the last: who keeps them has them come first for the node's next
    /// incarnation. They are lost where nobody keeps them.
    fn back(&mut self, _text: &[u8])
        ensures { came self.new ≡ came self.old }
    {}

    /// Hears of an event at the node, of each once and in order, when it is told. It does not wait.
    fn hear(&mut self, _event: &Event)
        ensures { came self.new ≡ came self.old }
    {}

    /// Has a turn, many times between two rounds: it is this time since the node began, and the node stands so. It does not wait.
    fn look(&mut self, _now: Duration, _status: &NodeStatus)
        ensures { came self.new ≡ came self.old }
    {}

    /// Gives the line of the write that is to be sent next, if there is one; none where a list of what came is kept.
    /// The node sends it at once, and then calls `wrote`; where it may not send now, it asks again later. After `AllocError` (7) the write waits on.
    fn next_write(&mut self) -> Result<Option<Vec<u8>>, AllocError>
        ensures came { came self.new ≡ came self.old }
        ensures unlisted { IfOk result (λ write. IfSome write (λ _. came self.old ≡ None)) }
    {
        Ok(None)
    }

    /// Notes what became of the write that `next_write` gave last: it was sent as the message of this number of the view; or, with `None`, its line says no payload.
    /// The node calls it before it tells of the events of that sending.
    fn wrote(&mut self, _number: Option<u64>)
        ensures { came self.new ≡ came self.old }
    {}

    /// Whether the node is to leave its group and to end.
    fn leaves(&self) -> bool {
        false
    }

    /// For how long the node may wait now, of the time that is left before its next round: for less if there is something to do at once.
    fn rest(&self, left: Duration) -> Duration {
        left
    }
}

/// No lines.
#[derive(Clone, Copy)]
pub struct NoLines;

impl Lines for NoLines {
    ghost came = { λ _. Some [] };

    fn more(&mut self, _text: &mut Vec<u8>) -> Result<(), LinesError> {
        Ok(())
    }
}
