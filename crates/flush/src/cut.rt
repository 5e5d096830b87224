use wire_values::{Count, Entry};

/// The cut of a view: the entries with the numbers base + 1, base + 2, .. of its order, which lie in the reports of a flush
/// (docs/PROTOCOL.md, "Cut").
#[derive(Drop)]
pub struct Cut<'a> {
    /// The number before the first of the entries.
    pub base: Count,
    /// The entries.
    pub entries: Vec<Entry<'a>>,
}
