//! The laws of these definitions.
ghost use Rattle.draft_resized.specs.Effects.{ResizedIsPut, MovedIsPut};

/// Law: of a file that is put the record stands in its blocks, the clusters that came are set, and
/// those that went are clear.
pub fn resized_is_put()
    ensures { ResizedIsPut }
{}

/// Law: of a value that is put into clusters of its own the stream has the bytes, and all else is as
/// its file was put.
pub fn moved_is_put()
    ensures { MovedIsPut }
{}
