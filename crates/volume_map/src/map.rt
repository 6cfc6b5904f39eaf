//! A volume as its file table is loaded.
ghost use Rattle.std.specs.Prelude.{◌*◌, ◌^◌, ◌<◌};

use crate::head::Head;
use file_record::FileRec;
use state_model::{ClusterSize, Extents};
use volume_model::BitSet;

/// A volume as its file table is loaded, with what a check and a change ask of all its records and
/// clusters.
#[derive(Debug, Drop)]
pub struct VolumeMap {
    /// The sectors of a cluster.
    pub per_cluster: ClusterSize,
    /// How many clusters the volume has.
    pub clusters: u64,
    /// The cluster at which the boot sector says that the file table begins.
    pub mft: u64,
    /// The clusters of the file table, and its sizes.
    pub table: Extents,
    /// The files by number: the base records in use, each with all its attributes.
    pub files: Vec<Option<FileRec>>,
    /// The heads of all records, by number.
    pub heads: Vec<Head>,
    /// The bits of the records, set where one is in use: as many as there are records.
    pub record_bits: BitSet,
    /// The bits of the clusters, set where one is in use: as many as the volume has clusters.
    pub cluster_bits: BitSet,
    pub ghost place: { mft * per_cluster < 2 ^ 62 },
}
