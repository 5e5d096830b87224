ghost use Rattle.std.specs.Prelude.{◌≡◌, IfOk};
ghost use Rattle.nak_stream.specs.Windows.{empty_window};
ghost use Rattle.sequencer.specs.Forwards.{no_forwards};
ghost use Rattle.traffic.specs.ViewStates.{fresh_follower};

use nak_stream::Window;
use sequencer::Forwards;
use std::alloc::{AllocError, Global};
use view::View;

/// What a member of a view other than its coordinator keeps of it: the view, the window of its messages, and its own messages that are outstanding.
pub struct Follower {
    pub view: View,
    pub window: Window,
    pub forwards: Forwards,
}

impl Drop for Follower {
    fn drop(self) {
        let Follower {
            view: _,
            window: _,
            forwards: _,
        } = self;
    }
}

// The messages of a new view, and a member's own that are outstanding there: none.
pub(crate) fn no_messages(alloc: Global) -> Result<(Window, Forwards), AllocError>
    ensures { IfOk result (λ m. m ≡ (empty_window, no_forwards)) }
{
    let window = Window::new(alloc)?;
    let forwards = Forwards::new(alloc)?;
    Ok((window, forwards))
}

impl Follower {
    /// In a new view: nothing was sent, and nothing came. An error comes for want of memory.
    pub fn fresh(alloc: Global, view: View) -> Result<Follower, AllocError>
        ensures { IfOk result (λ m. m ≡ fresh_follower view) }
    {
        let (window, forwards) = no_messages(alloc)?;
        Ok(Follower {
            view,
            window,
            forwards,
        })
    }
}
