use used_laws::Resized;

/// What comes of the unnamed data of a file that is written or cut.
#[derive(Debug, Drop)]
pub enum DataChange {
    /// It stays in its record, as a value of so many bytes.
    Stays { size: u64 },
    /// Its value leaves the record for clusters, into which all its bytes are to be put.
    Leaves(Resized),
    /// It takes clusters behind its own. Its sizes are as before: they and the bytes are to be put
    /// behind it.
    Grows(Resized),
    /// It is cut to its new size, and gives back the clusters past it.
    Cut(Resized),
    /// It has its new sizes, in its clusters of before.
    Sized(Resized),
}
