use record_model::ListEntry;

/// What comes next in an attribute list.
#[derive(Debug, PartialEq, Eq, Drop)]
pub enum Step {
    /// The list ends here.
    End,
    /// No entry begins here: it has no room for its first 26 bytes and its name, or runs past the
    /// list.
    Fault,
    Entry(ListEntry),
}
