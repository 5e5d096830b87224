/// The rules of a trace, in the order in which a break of several is named (docs/GUARANTEES.md).
#[derive(Clone, Copy, Debug, PartialEq, Eq)]
pub enum Rule {
    /// What happens to a member happens while it runs, and in its current view.
    WellPlaced,
    /// A member installs views that have it, with rising ids, and all see the same members.
    RisingViews,
    /// Messages are numbered without a gap, and are delivered once, after they were sent, in the sender's order.
    SoundMessages,
    /// All members of a view deliver the same messages in the same order.
    OneOrder,
    /// Who goes from one view to the same next delivered the same messages.
    SameNext,
    /// Who enters is given who came from the same view.
    Together,
    /// Who enters gets back its own messages that it did not deliver.
    HandedBack,
    /// Who enters has the state of the view's coordinator.
    StateOfEntry,
}

/// What a check of a trace found.
#[derive(Clone, Copy, Debug, PartialEq, Eq)]
pub enum Verdict {
    /// The trace is virtually synchronous.
    Holds,
    /// The rule does not hold of the beginning of this length, the shortest of which not all rules hold;
    /// all rules before it do.
    Breaks { rule: Rule, place: u64 },
}
