use address::Address;

/// What a member is handed: a wish of its application, a datagram, a suspect or a hint, or that time passes. Payloads and bytes are lent. After its
/// end a member refuses all with 6. Where memory is refused the answer is 7, and it has ended. What is ignored leaves it as it was, and nothing comes
/// of it (docs/PROTOCOL.md, "Inputs and refusals").
#[derive(Clone, Copy)]
pub enum Input<'a> {
    /// Makes a group of itself alone, and installs its first view (docs/PROTOCOL.md, "Joining"). Refused with 5 unless it is idle.
    Create,
    /// Asks the member of this address to be let into its view, by a JOIN, now and at each tick until it is in (docs/PROTOCOL.md, "Joining"). Another contact
    /// takes the place of the one before. Refused with 5 in a view.
    Join(Address),
    /// Sends a message of these bytes in its view: the coordinator orders it, another member forwards it to the coordinator (docs/PROTOCOL.md, "Sending").
    /// Refused, in this order, with 1 without a view, 4 for more than `PAYLOAD` bytes, 2 while it is blocked, 3 where `OUTSTANDING` messages are outstanding, and 8 where
    /// `GREATEST_NUMBER` were sent in this view.
    Send(&'a [u8]),
    /// The bytes of a datagram that came (docs/WIRE.md). It does what the rule of the packet's kind says. Refused with 20 to 26 where they spell no packet.
    /// Ignored where the member is idle, where the packet is for another group or another address or names the member itself as its source, and where
    /// the rule of its kind says so (docs/PROTOCOL.md, "Which packets are ignored"). Refused with 6, and it has ended, where it would enter a view by it with
    /// a state that its receiver cannot read (docs/PROTOCOL.md, "State transfer").
    Datagram(&'a [u8]),
    /// Time passes: what may be lost is put out again (docs/PROTOCOL.md, "Ticks"). Ignored while it is idle. Never refused but with 6 and 7.
    Tick,
    /// Its failure detector says that the member of this address has failed: it is suspected, and a member that then leads its view begins what is
    /// due (docs/PROTOCOL.md, "Suspicion" and "Candidates"). Ignored without a view, for itself, and for an address that is neither in its view nor in the
    /// list that it promised. Never refused but with 6 and 7.
    Suspect(Address),
    /// A member of another view of the group may be reached at this address: this view is announced to it, so that the two merge (docs/PROTOCOL.md, "Merging").
    /// Ignored unless this member leads its view and is not blocked, and for an address in its view. Never refused but with 6 and 7.
    MergeHint(Address),
    /// Leaves the group, for good, and says so to the others of its view (docs/PROTOCOL.md, "Leaving"). Never refused but with 6 and 7.
    Leave,
}
