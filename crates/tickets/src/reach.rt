//! Whether every member of a view has delivered a message.

ghost use Rattle.std.specs.Prelude.{◌≡◌};
ghost use Rattle.tickets.specs.Reaching.{reach_of};

use address::ViewId;

/// A place in the order: the first `count` messages of a view are delivered there.
#[derive(Clone, Copy, PartialEq, Eq)]
pub struct Place {
    /// The view.
    pub view: ViewId,
    /// How many of its messages.
    pub count: u64,
}

/// Whom the messages up to a place have reached.
#[derive(Clone, Copy, PartialEq, Eq)]
pub enum Reach {
    /// Every member of the view has delivered them.
    Everybody,
    /// It is not known yet, and may become known.
    Pending,
    /// The member has left the view, or was never in it: it will not become known.
    Unknown,
}

/// Tells whom the messages up to a place have reached, by what is known to be stable and by the view in which the member is now.
/// A later view says nothing of it: a member that did not come along may lack the message, and one that came along may crash before it delivers it.
pub fn reach_of(at: &Place, stable: Option<Place>, now: Option<ViewId>) -> Reach
    ensures { result ≡ reach_of at.now stable now }
{
    if let Some(known) = stable {
        if (known.view == at.view) & (at.count <= known.count) {
            return Reach::Everybody;
        }
    }
    match now {
        Some(view) if view == at.view => Reach::Pending,
        _ => Reach::Unknown,
    }
}
