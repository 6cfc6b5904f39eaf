//! The laws of these definitions.
ghost use Rattle.draft_bits.specs.Effects.{BitsArePut};

/// Law: bits that are put into a stream whose sectors lie apart have their value there, and each
/// other bit stays.
pub fn bits_are_put()
    ensures { BitsArePut }
{}
