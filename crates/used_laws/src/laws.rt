//! The laws of these definitions.
ghost use Rattle.used_laws.specs.Laws.{WrittenAsCounted, StreamsUsed, StreamsUsedTogether, SizesUsed};

/// Law: a record is written with as many used bytes as its attributes have as they stand, and is
/// refused exactly where these are above 1,024.
pub fn written_as_counted()
    ensures { WrittenAsCounted }
{}

/// Law: the record in which one stream has other clusters, or another value, is written with the
/// used bytes that the definition of an operation counts.
pub fn streams_used()
    ensures { StreamsUsed }
{}

/// Law: where several streams of a record change one after the other, each in the record that the
/// one before left, it is written with the used bytes that count them all at once.
pub fn streams_used_together()
    ensures { StreamsUsedTogether }
{}

/// Law: a stream whose clusters stay takes no more bytes with other sizes than it took.
pub fn sizes_used()
    ensures { SizesUsed }
{}
