use address::Address;

/// What one node does that runs by itself.
#[derive(Clone, Copy)]
pub struct MemberPlan<'a> {
    /// The address of its member.
    pub address: Address,
    /// How many rounds it runs, 0 to `ROUNDS`.
    pub rounds: u64,
    /// Whom it asks to be let into a group; `None` where it makes a group of itself alone.
    pub contact: Option<Address>,
    /// What it sends, once, in the first round in which it may.
    pub send: Option<&'a [u8]>,
}
