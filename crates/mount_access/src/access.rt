/// What a volume is mounted for.
#[derive(Clone, Copy, Debug, PartialEq, Eq)]
pub enum Access {
    /// To look at its tree, as a dump and a check do.
    Look,
    /// To read the records of its change journal.
    Journal,
    /// To be changed by operations.
    Change,
}
