//! Events that are played one after another, until the first in which memory is refused.

ghost use Rattle.std.specs.Prelude.{◌≡◌, ◌-◌, OnOk, OnErr};
ghost use Rattle.world.specs.Worlds.{shown};
ghost use Rattle.world.specs.Plays.{Plays, lacks_memory, Fails, Delivers, DeliversPast, Breaks, BreaksPast};

use crate::World;
use address::limits::Refusal;
use state_transfer::Receiver;
use std::alloc::AllocError;
use world_model::{Answer, WorldEvent};

/// Whether memory was refused in the step that was answered so (7): to the member in it, which has then crashed.
fn lacks_memory(answer: Answer) -> bool
    ensures { result ≡ lacks_memory answer }
{
    match answer {
        Answer::Refused(Refusal::Memory) => true,
        Answer::Done | Answer::Sent(_) | Answer::Refused(_) => false,
    }
}

impl<R: Receiver> World<R> {
    /// Carries out one event; an error where the step is not begun, and where memory is refused to the member in it, which has then crashed.
    pub(crate) fn play(&mut self, event: &WorldEvent) -> Result<(), AllocError>
        ensures ok { OnOk result (Plays R.meaning (shown self.old) event.now (shown self.new)) }
        ensures err { OnErr result (Fails R.meaning (shown self.old) event.now (shown self.new)) }
    {
        let answer = self.step(event)?;
        if lacks_memory(answer) {
            Err(AllocError)
        } else {
            Ok(())
        }
    }

    /// Delivers every packet past so many, up to another number.
    pub(crate) fn deliver_between(&mut self, past: u64, last: u64) -> Result<(), AllocError>
        ensures ok { OnOk result (Delivers R.meaning past (last - past) (shown self.old) (shown self.new)) }
        ensures err { OnErr result (Breaks R.meaning past (last - past) (shown self.old) (shown self.new)) }
    {
        let mut number = past;
        while number < last {
            number += 1;
            self.play(&WorldEvent::Deliver(number))?;
        }
        Ok(())
    }

    /// Delivers every packet past so many that was put out by now.
    pub(crate) fn deliver_past(&mut self, past: u64) -> Result<(), AllocError>
        ensures ok { OnOk result (DeliversPast R.meaning past (shown self.old) (shown self.new)) }
        ensures err { OnErr result (BreaksPast R.meaning past (shown self.old) (shown self.new)) }
    {
        let last = self.pool.count();
        self.deliver_between(past, last)
    }
}
