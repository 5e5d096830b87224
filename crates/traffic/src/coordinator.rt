ghost use Rattle.std.specs.Prelude.{◌≡◌, IfOk, map};
ghost use Rattle.sequencer.specs.Queues.{idle};
ghost use Rattle.stability.specs.Counts.{unheard};
ghost use Rattle.traffic.specs.ViewStates.{fresh_coordinator};

use crate::follower::no_messages;
use nak_stream::Window;
use sequencer::{Forwards, Orderer};
use stability::Acks;
use std::alloc::{AllocError, Global};
use view::View;

/// What the coordinator of a view keeps of it: the view, the window of its messages, its own messages that are outstanding, what each member
/// acknowledged, and what waits to be ordered.
pub struct Coordinator {
    pub view: View,
    pub window: Window,
    pub forwards: Forwards,
    pub acks: Acks,
    pub orderer: Orderer,
}

impl Drop for Coordinator {
    fn drop(self) {
        let Coordinator {
            view: _,
            window: _,
            forwards: _,
            acks: _,
            orderer: _,
        } = self;
    }
}

// What was acknowledged in a new view, and what waits to be ordered there: nothing.
fn nothing_heard(alloc: Global, view: &View) -> Result<(Acks, Orderer), AllocError>
    ensures { IfOk result (λ h. h ≡ (map unheard view.now.members, record { ordered = 0; queues = map idle view.now.members })) }
{
    let acks = Acks::new(alloc, view)?;
    let orderer = Orderer::new(alloc, view)?;
    Ok((acks, orderer))
}

impl Coordinator {
    /// In a new view: nothing was sent, ordered or acknowledged. An error comes for want of memory.
    pub fn fresh(alloc: Global, view: View) -> Result<Coordinator, AllocError>
        ensures { IfOk result (λ m. m ≡ fresh_coordinator view) }
    {
        let (window, forwards) = no_messages(alloc)?;
        let (acks, orderer) = nothing_heard(alloc, &view)?;
        Ok(Coordinator {
            view,
            window,
            forwards,
            acks,
            orderer,
        })
    }
}
