use draft_resized::Stream;
use record_values::FileRec;

/// A bitmap of a volume as a plan has it: the unnamed stream of this type in the record of the file
/// with this number, as the data of `$Bitmap` (record 6) or the bitmap of `$MFT` (record 0).
#[derive(Debug, Drop)]
pub struct Bitmap {
    pub number: u64,
    pub kind: u32,
    pub file: FileRec,
    pub stream: Stream,
}
