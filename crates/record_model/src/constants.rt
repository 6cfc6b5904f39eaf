//! Words of the format: the types of attributes, the end mark, and the name of a directory's index.

/// The type of standard information (Linux-NTFS documentation, "$STANDARD_INFORMATION").
pub const STANDARD_INFORMATION: u32 = 0x10;

/// The type of an attribute list (Linux-NTFS documentation, "$ATTRIBUTE_LIST").
pub const ATTRIBUTE_LIST: u32 = 0x20;

/// The type of a file's name (Linux-NTFS documentation, "$FILE_NAME").
pub const FILE_NAME: u32 = 0x30;

/// The type of an object id (Linux-NTFS documentation, "$OBJECT_ID").
pub const OBJECT_ID: u32 = 0x40;

/// The type of a volume's label (Linux-NTFS documentation, "$VOLUME_NAME").
pub const VOLUME_NAME: u32 = 0x60;

/// The type of a volume's version and flags (Linux-NTFS documentation, "$VOLUME_INFORMATION").
pub const VOLUME_INFORMATION: u32 = 0x70;

/// The type of a stream of data (Linux-NTFS documentation, "$DATA").
pub const DATA: u32 = 0x80;

/// The type of the root node of an index (Linux-NTFS documentation, "$INDEX_ROOT").
pub const INDEX_ROOT: u32 = 0x90;

/// The type of the stream of index blocks (Linux-NTFS documentation, "$INDEX_ALLOCATION").
pub const INDEX_ALLOCATION: u32 = 0xa0;

/// The type of the bits of an index's blocks and of the file table's records (Linux-NTFS
/// documentation, "$BITMAP").
pub const BITMAP_TYPE: u32 = 0xb0;

/// The type of a reparse point (Linux-NTFS documentation, "$REPARSE_POINT").
pub const REPARSE_POINT: u32 = 0xc0;

/// What stands behind the last attribute of a record, in place of a type (Linux-NTFS documentation,
/// "FILE Record").
pub const END_MARK: u32 = 0xffff_ffff;

/// The most attributes of a record of 1,024 bytes: each has 0x18 bytes at least.
pub const MOST_ATTRIBUTES: u32 = 43;

/// `$I30`, the name of the attributes of a directory's index (Linux-NTFS documentation,
/// "$INDEX_ROOT").
pub const NAMES_INDEX: [u16; 4] = [0x24, 0x49, 0x33, 0x30];
