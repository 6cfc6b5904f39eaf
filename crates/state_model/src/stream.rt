use record_model::{Bytes, Runs};

/// The clusters of a stream, and its sizes in bytes.
#[derive(Debug, Drop)]
pub struct Extents {
    /// The runs of its attributes, one attribute after the other by rising first VCN.
    pub runs: Runs,
    pub allocated: u64,
    pub real: u64,
    /// The initialised size: bytes from it on are zeros.
    pub initialised: u64,
}

/// A stream: its bytes, where they stand in the record, or its clusters.
#[derive(Debug, Drop)]
pub enum Stream {
    Held(Bytes),
    Placed(Extents),
}
