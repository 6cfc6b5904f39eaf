/// The VCN by which a fault names the root.
pub const ROOT_VCN: u64 = 18446744073709551615;

/// Where an entry of a node stands to a name that is sought.
#[derive(Clone, Copy, Debug, PartialEq, Eq)]
pub enum Side {
    /// It has no key: it is the last one.
    Unnamed,
    /// Its name stands before all names that are the same as the one that is sought.
    Before,
    /// Its name is the same.
    Same,
    /// Its name stands behind all names that are the same.
    Behind,
}
