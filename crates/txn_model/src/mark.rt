//! What is marked of a block.

/// What a store marks of a block. The pages of the log are numbered from the mount on.
#[derive(Clone, Copy, Debug, PartialEq, Eq)]
pub struct Mark {
    /// Changed since the last write-out that answered `Ok`.
    pub dirty: bool,
    /// Dirty when a rival was changed, and never to be written out.
    pub dead: bool,
    /// Written since the last sync that answered `Ok`.
    pub wet: bool,
    /// A checkpoint noted it, and it wasn't written out since.
    pub owed: bool,
    /// It was, or a noted rival of it left, with no sync since.
    pub due: bool,
    /// Its whole body stands in the log, from the noted page on where one is noted, and no change
    /// of a rival behind it.
    pub imaged: bool,
    /// The pages of the log before this one have all its updates.
    pub until: u64,
    /// The number of the last commit that changed it, and 0 where none did.
    pub commit: u64,
    /// Of a dead block: the pages of the log before this one have the change that killed it.
    pub killed: u64,
}
