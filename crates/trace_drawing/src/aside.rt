use address::Node;
use address::limits::Refusal;

/// What stands between a trace's events: something that was refused, or a packet on its way.
#[derive(Clone, Copy)]
pub struct Aside {
    /// How many events had happened.
    pub place: usize,
    /// The node at which it was.
    pub node: Node,
    /// The node to which a packet goes that is put out; else the node at which it was.
    pub towards: Node,
    /// What it was.
    pub kind: AsideKind,
}

/// What an aside is.
#[derive(Clone, Copy)]
pub enum AsideKind {
    /// The event of a script's line was refused.
    Refused { line: u64, refusal: Refusal },
    /// The packet of a number was put out.
    PutOut(u64),
    /// The packet of a number was handed over.
    HandedOver(u64),
}

/// Where an aside is drawn.
#[derive(Clone, Copy)]
pub struct AsideRow {
    /// The column of its node's last member so far. None where nothing happened at the node before.
    pub column: Option<u32>,
    /// The column of the last member so far of the node to which it goes.
    pub towards: Option<u32>,
    /// How many events and asides stand above it.
    pub level: u32,
    /// What it is.
    pub kind: AsideKind,
}
