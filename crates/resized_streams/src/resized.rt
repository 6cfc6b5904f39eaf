use plan_space::Run;
use record_streams::{Extents, FileRec};

/// A file of which a stream took clusters or gave some back: its record, the stream's clusters and
/// sizes, and the runs that came and went.
#[derive(Debug, Drop)]
pub struct Resized {
    pub file: FileRec,
    pub extents: Extents,
    pub taken: Vec<Run>,
    pub freed: Vec<Run>,
}
