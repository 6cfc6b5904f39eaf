use file_record::FileRec;
use host_base::Bytes;
use state_model::Extents;

/// A directory whose index has blocks, as a plan has it: its number and record, the clusters and
/// sizes of the blocks, and the bytes of the bitmap that says which are in use, which stands in the
/// record (Linux-NTFS documentation, "$INDEX_ALLOCATION" and "$BITMAP", of the name `$I30`).
#[derive(Debug, Drop)]
pub struct IndexBlocks {
    pub number: u64,
    pub file: FileRec,
    pub extents: Extents,
    pub bits: Bytes,
}
