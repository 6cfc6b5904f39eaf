//! The laws of these definitions.
ghost use Rattle.bitmap_edits.specs.Bitmaps.{BitsAreEdit};
ghost use Rattle.bitmap_edits.specs.Streams.{ResizedWithBits};

/// Law: bits of clusters that nobody has, which a draft has put into their bitmap wherever it
/// stands, are an edit that leads from a state to a state with the same owners.
pub fn bits_are_edit()
    ensures { BitsAreEdit }
{}

/// Law: a file that a draft has put, of which a stream took clusters or was cut, with the bits of
/// these clusters wherever they stand, is an edit of a plan that leads from a state to a state.
pub fn resized_with_bits()
    ensures { ResizedWithBits }
{}
