use disk_model::FileRef;

/// The fields of a file record's header (Linux-NTFS documentation, "FILE Record").
#[derive(Clone, Copy, Debug, PartialEq, Eq)]
pub struct RecHead {
    pub lsn: u64,
    pub seq: u16,
    /// The count of hard links.
    pub links: u16,
    /// 1 in use, 2 directory.
    pub flags: u16,
    /// The base record; number 0 and sequence 0 in a base record itself.
    pub base: FileRef,
    pub next_id: u16,
    pub number: u32,
}
