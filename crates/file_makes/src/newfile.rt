use host_base::FileRef;
use utf16_name::Name;

/// A file without bytes that is to be made.
#[derive(Debug, Drop)]
pub struct NewFile {
    /// Its own reference.
    pub file: FileRef,
    /// The reference of its directory.
    pub parent: FileRef,
    /// Its one name, of POSIX.
    pub name: Name,
    /// All its times, in units of 100 ns since 1601-01-01.
    pub stamp: u64,
}
