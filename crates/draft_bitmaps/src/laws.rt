//! The laws of these definitions.
ghost use Rattle.draft_bitmaps.specs.Effects.{BitmapIsPut};

/// Law: bits that are put into a bitmap have their value there, wherever it stands, each other bit
/// stays, bytes past the initialised size among them, and no block is touched but its own.
pub fn bitmap_is_put()
    ensures { BitmapIsPut }
{}
