//! What the program runs: receivers whose messages have words, and whose state has a line of text. And what a node knows by the events of its member, and which ticket waits
//! for which of its own messages: a service stands on it that answers each message at the message's own place (docs/EMBEDDING.md, "What became of a write").
#![tactic(auto)]

ghost use Rattle.std.specs.Prelude.{◌≡◌, ◌++◌, ℕ, Bool, List, Option, Result, IfOk, OnOk, OnErr};
ghost use Rattle.address.specs.Ids.{Address as AddressValue, ViewId as ViewIdValue};
ghost use Rattle.view.specs.Members.{View as ViewValue};
ghost use Rattle.vsync_text.specs.declared.fault.Fault.{Fault as FaultValue};
ghost use Rattle.vsync_text.specs.Texts.{IsReadUnlessRefused};
ghost use Rattle.vsync_text.specs.TraceText.{GoesOnFrom};

mod followed;
mod replica;
mod waiting;

use address::{Address, Bytes, ViewId};
pub use followed::FollowedMember;
pub use replica::Replica;
use state_transfer::Receiver;
use std::alloc::{AllocError, Global};
use view::View;
use vsync_text::{Payloads, Unheard};
pub use waiting::{Waiting, take_ticket};

/// A receiver that the commands of `vsync` can run (docs/EMBEDDING.md, "A command of its own"): a `send` of a script says in words what its payload
/// asks, and the state of a copy is printed as a line.
pub trait Application: Receiver + Payloads {
    /// The line that shows a member and the state of its copy, with its line feed.
    ghost line_of: { AddressValue → Self → List ℕ };

    /// The payload that a text says at a member in the view of an id, or what is wrong with the text.
    ghost payload_within: { ViewIdValue → List ℕ → Result (List ℕ) FaultValue };

    /// The payload that the coordinator of a view sends when it has installed it, if it sends one.
    ghost first_said: { ViewValue → Option (List ℕ) };

    /// Whether a member says again what a view handed back to it.
    ghost is_said_again: { Bool };

    /// Puts that line at the end of a buffer. Where memory is refused, what stood before is kept, and a part may have been appended.
    fn put_line(&self, member: &Address, out: &mut Vec<u8>) -> Result<(), AllocError>
        ensures text { OnOk result (out.new.items ≡ out.old.items ++ line_of member.now self.now) }
        ensures kept { GoesOnFrom out.old.items out.new.items };

    /// The payload that a text says at a member that is in the view of an id: a text that is typed as time passes need not name the view.
    ///
    /// # Errors
    ///
    /// What is wrong with the text: a part of it is missing (42), or is not of its form (41). Or memory was refused.
    fn payload_in_view(alloc: Global, view: ViewId, text: &[u8]) -> Result<Bytes, Unheard>
        ensures { IsReadUnlessRefused (λ x. x) result (payload_within view text.now) };

    /// The payload that the coordinator of a view sends when it has installed it, if it sends one.
    fn first_message(alloc: Global, view: &View) -> Result<Option<Bytes>, AllocError>
        ensures { IfOk result (λ payload. payload ≡ first_said view.now) };

    /// Whether a member says again what a view handed back to it, in that view and before all else that it is to say: the same words, by `payload_in_view` of the view. A node
    /// that finds its group does so for every receiver (docs/RUNNER.md, "Giving way").
    fn says_again() -> bool
        ensures { result ≡ is_said_again };
}

/// Appends the line that shows a member and the state of its copy.
///
/// # Errors
///
/// Where memory is refused, the buffer is left as it was.
pub fn append_line<A: Application>(
    out: &mut Vec<u8>,
    member: &Address,
    state: &A,
) -> Result<(), AllocError>
    ensures text { OnOk result (out.new.items ≡ out.old.items ++ A.line_of member.now state.now) }
    ensures err { OnErr result (out.new.items ≡ out.old.items) }
{
    let before = out.len();
    let result = state.put_line(member, out);
    if result.is_err() {
        out.truncate(before);
    }
    result
}
