ghost use Rattle.std.specs.Prelude.{◌≡◌};
ghost use Rattle.member.specs.Sources.{about_of};

use address::{Address, ViewId};
use wire_values::Body;

/// What a packet was that a member was handed: from whom, of which kind, and about what.
#[derive(Clone, Copy)]
pub struct Heard {
    /// From whom it came.
    pub source: Address,
    /// The number of its kind, 1 to 14 (docs/WIRE.md, "The kinds").
    pub kind: u8,
    /// The id of the view or of the proposal that it was about; `None` of a JOIN, a REDIRECT and a LEAVE.
    pub about: Option<ViewId>,
}

// The view or the proposal that a packet is about.
pub(crate) fn about(body: &Body<'_>) -> Option<ViewId>
    ensures { result ≡ about_of body.now }
{
    match body {
        Body::Join | Body::Redirect(_) | Body::Leave => None,
        Body::Forward { view, .. }
        | Body::Order { view, .. }
        | Body::Nak { view, .. }
        | Body::Ack { view, .. }
        | Body::Status { view, .. } => Some(*view),
        Body::Flush(proposal) => Some(proposal.id()),
        Body::Behind { proposal, .. } | Body::Report { proposal, .. } => Some(*proposal),
        Body::Install(install) => Some(install.view().id()),
        Body::Merge(view) => Some(view.id()),
        Body::State { proposal, .. } => Some(*proposal),
    }
}
