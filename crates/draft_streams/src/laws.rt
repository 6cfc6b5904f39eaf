//! The laws of these definitions.
ghost use Rattle.draft_streams.specs.Effects.{BytesArePut};

/// Law: bytes that are put into a stream whose sectors lie apart stand at their places, and nothing
/// else changes but zeros that come into fresh sectors.
pub fn bytes_are_put()
    ensures { BytesArePut }
{}
