ghost use Rattle.std.specs.Prelude.{◌≡◌};
ghost use Rattle.record_model.specs.declared.values.ValueFault.TheVariants.{Memory as no_memory};

use disk_model::FileRef;
use std::alloc::AllocError;
use thiserror::Error;
use utf16_name::Name;

/// Standard information (Linux-NTFS documentation, "$STANDARD_INFORMATION"). Times are in units of
/// 100 ns since 1601-01-01.
#[derive(Clone, Copy, Debug, PartialEq, Eq)]
pub struct StdInfo {
    pub created: u64,
    pub modified: u64,
    /// When the file's record was changed last.
    pub changed: u64,
    pub read_at: u64,
    /// The file's flags, as 6 for hidden and system.
    pub flags: u32,
}

/// A file name (Linux-NTFS documentation, "$FILE_NAME"). Times are in units of 100 ns since
/// 1601-01-01, sizes in bytes.
#[derive(Clone, Debug, PartialEq, Eq, Drop)]
pub struct FileNameValue {
    /// The directory that the name stands in.
    pub parent: FileRef,
    pub created: u64,
    pub modified: u64,
    pub changed: u64,
    pub read_at: u64,
    pub allocated: u64,
    pub real: u64,
    /// The file's flags, 0x10000000 for a directory among them.
    pub flags: u32,
    /// The namespace: 0 POSIX, 1 Win32, 2 DOS, 3 Win32 and DOS.
    pub space: u8,
    pub name: Name,
}

/// Volume information (Linux-NTFS documentation, "$VOLUME_INFORMATION").
#[derive(Clone, Copy, Debug, PartialEq, Eq)]
pub struct VolumeInfo {
    pub major: u8,
    pub minor: u8,
    /// 1 for a dirty volume.
    pub flags: u16,
}

/// The limits of a change journal (Linux-NTFS documentation, "$UsnJrnl", the stream `$Max`).
#[derive(Clone, Copy, Debug, PartialEq, Eq)]
pub struct JournalMax {
    /// The maximum size, and the allocation delta, in bytes.
    pub max: u64,
    pub delta: u64,
    pub id: u64,
    /// The lowest USN that is valid.
    pub lowest: u64,
}

/// Why bytes are no value of their kind.
#[derive(Clone, Copy, Debug, PartialEq, Eq, Error)]
pub enum ValueFault {
    /// There are so many bytes, and the kind needs another number.
    #[error("a value of this kind can't have {len} bytes")]
    Length { len: u64 },
    /// The namespace of a file name is above 3, or its units are no name.
    #[error("the value is out of shape")]
    Shape,
    #[error("no memory")]
    Memory,
}

impl From<AllocError> for ValueFault {
    ghost from_gives = { λ _ e. e ≡ no_memory };

    fn from(_: AllocError) -> Self {
        ValueFault::Memory
    }
}
