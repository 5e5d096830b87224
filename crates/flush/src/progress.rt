/// How far a flush has come.
#[derive(Clone, Copy, PartialEq, Eq)]
pub enum Progress {
    /// A report of one of the list or more is awaited.
    Waiting,
    /// All of the list have reported.
    Complete,
}
