use data_plan::Resized;
use file_record::FileRec;

/// What comes of the bitmap of a directory's index, in the record in which the index has its blocks.
#[derive(Debug, Drop)]
pub enum BitsChange {
    /// It stays in the record, as a value with zeros behind its bytes of before.
    Stays(FileRec),
    /// Its value leaves the record for clusters, into which all its bytes are to be put.
    Leaves(Resized),
    /// It has its new size in clusters, of which more may have come.
    Placed(Resized),
}

/// What comes of a directory's index that gets more blocks.
#[derive(Debug, Drop)]
pub struct IndexChange {
    /// The blocks, and the directory's record with them, in which the bitmap is as it was.
    pub blocks: Resized,
    /// Their bitmap, and the record with both.
    pub bits: BitsChange,
    /// The bytes that the record uses then, with the root that the index comes to have.
    pub used: u64,
}
