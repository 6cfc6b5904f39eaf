use disk_model::FileRef;
use utf16_name::Units;

/// An entry of an attribute list: the record in which an attribute stands (Linux-NTFS
/// documentation, "$ATTRIBUTE_LIST").
#[derive(Clone, Debug, PartialEq, Eq, Drop)]
pub struct ListEntry {
    /// The attribute's type, name and id.
    pub kind: u32,
    pub name: Units,
    pub id: u16,
    /// The first VCN of the piece; 0 where the value stands in the record.
    pub first: u64,
    pub holder: FileRef,
}
