use crate::cluster_size::ClusterSize;

/// Where a volume's file table is found, by its boot sector.
#[derive(Clone, Copy, Debug, PartialEq, Eq)]
pub struct Geometry {
    /// The sectors of a cluster.
    pub per_cluster: ClusterSize,
    /// The cluster at which the boot sector says that the file table begins.
    pub mft: u64,
}

/// What refuses the file table of a volume.
#[derive(Clone, Copy, Debug, PartialEq, Eq)]
pub enum MapRefusal {
    /// The record's update sequence fails.
    BadFixup { number: u64 },
    /// The record in use breaks this rule, and no lower one.
    BadRecord { number: u64, rule: u32 },
    /// Record 0 has an attribute list.
    MftList,
    /// The file table has more than 1,048,576 records.
    MftLarge { records: u64 },
}
