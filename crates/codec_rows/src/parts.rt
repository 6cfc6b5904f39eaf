//! What bytes are made of in more than one file of rows.

/// Bytes that stand from this place on.
pub struct Edit(pub usize, pub &'static [u8]);

/// Writes the bytes of these edits. Those past the end are left out.
pub fn put(bytes: &mut [u8], edits: &[Edit]) {
    for Edit(at, new) in edits {
        for (i, byte) in new.iter().enumerate() {
            put_byte(bytes, at.saturating_add(i), *byte);
        }
    }
}

/// Writes a byte at a place. One past the end is left out.
pub fn put_byte(bytes: &mut [u8], at: usize, byte: u8) {
    if let Some(place) = bytes.get_mut(at) {
        *place = byte;
    }
}
