//! The laws of these definitions.
ghost use Rattle.record_streams.specs.Laws.{PlacedFits, StreamsArePlaced};

/// Law: a record that was read has a spelling but for its room, as one that has a spelling; and where
/// it has room it has one.
pub fn placed_fits()
    ensures { PlacedFits }
{}

/// Law: a stream that is placed has these clusters and sizes, in one attribute, and the record's
/// other streams stay.
pub fn streams_are_placed()
    ensures { StreamsArePlaced }
{}
