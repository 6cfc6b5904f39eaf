//! Changes of a map.
ghost use Rattle.std.specs.Prelude.{◌≡◌, true};
ghost use Rattle.map_change.specs.Plain.{is_plain};

use crate::live::LiveMap;
use bit_set::BitSet;
use volume_map::{Extents, FileRec, Head};

/// What is put in the place of a record.
#[derive(Debug, Drop)]
pub struct RecordChange {
    /// The record's number.
    pub number: u64,
    /// The file that the record is, if it is one; it has no attribute list.
    pub file: Option<FileRec>,
    /// The record's head.
    pub head: Head,
    pub ghost listless: { is_plain file ≡ true },
}

/// Bits of one value, one behind the other.
#[derive(Clone, Copy, Debug, PartialEq, Eq)]
pub struct BitRun {
    /// The first of them.
    pub first: u64,
    /// How many they are.
    pub len: u64,
    /// Their value.
    pub value: bool,
}

/// What is put in the place of the bits of a bitmap.
#[derive(Debug, Drop)]
pub enum BitsChange {
    /// All of them.
    Whole(BitSet),
    /// Some of them; of two runs that have one bit the first one holds.
    Runs(Vec<BitRun>),
}

/// What is put in the place of parts of a map.
#[derive(Debug, Drop)]
pub struct PartsChange {
    /// The clusters of the file table, and its sizes.
    pub table: Extents,
    /// Some records; of two with one number the first one holds.
    pub records: Vec<RecordChange>,
    /// The bits of the records.
    pub record_bits: BitsChange,
    /// The bits of the clusters.
    pub cluster_bits: BitsChange,
}

/// What makes a map that of its volume after some changes.
#[derive(Debug, Drop)]
pub enum MapChange {
    /// The map, loaded anew.
    Anew(LiveMap),
    /// What is put in the place of parts of it.
    Parts(PartsChange),
}
