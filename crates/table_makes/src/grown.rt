use draft_growth::Extents;
use file_puts::VolumeStreams;

/// A file table that has grown: the volume's streams with the longer table, and where the bits of
/// its numbers stand.
#[derive(Debug, Drop)]
pub struct TableGrown {
    pub streams: VolumeStreams,
    pub numbers: Extents,
}
