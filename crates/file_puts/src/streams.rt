use record_times::Extents;

/// The streams of a volume that a plan of a file changes besides the file's own: where the records
/// lie, those of their mirror, and the bits of the clusters, in the clusters of the data of `$MFT`,
/// `$MFTMirr` and `$Bitmap`.
#[derive(Debug, Drop)]
pub struct VolumeStreams {
    pub table: Extents,
    pub mirror: Extents,
    pub bitmap: Extents,
}
