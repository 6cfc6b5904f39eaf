//! What the rows share: bytes by their places, and records as they are written.
ghost use Rattle.std.specs.Prelude.{◌≡◌, true};
ghost use Rattle.record_streams.specs.Fitting.{FitsButRoom};

use draft_records::spelled_fits_but_room;
use record_writer::{FileRec, WrittenRecord};

/// Bytes that stand from this place on.
pub struct Edit(pub usize, pub &'static [u8]);

/// Writes the bytes of these edits. Those past the end are left out.
pub fn put(bytes: &mut [u8], edits: &[Edit]) {
    for Edit(at, new) in edits {
        for (i, byte) in new.iter().enumerate() {
            if let Some(place) = bytes.get_mut(at.saturating_add(i)) {
                *place = *byte;
            }
        }
    }
}

/// The bytes of a record, none where it has no spelling.
pub fn written(record: &FileRec) -> Option<[u8; 1024]> {
    if !record.has_spelling() {
        return None;
    }
    let mut out = [0xff; 1024];
    record.write(&mut out);
    Some(out)
}

/// Whether a record has a spelling, and so one but for its room.
pub fn fits(file: &FileRec) -> bool
    ensures { result ≡ true → FitsButRoom file.now }
{
    spelled_fits_but_room();
    file.has_spelling()
}
