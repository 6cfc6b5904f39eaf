//! The laws of mapping pairs, as contracts of empty functions.
ghost use Rattle.record_model.specs.PairsLaws.{SpelledIsRead, ReadIsSpelled, WrittenIsSpelled, WrittenIsRead, WrittenIsShortest, PairsVectors};

/// Law: bytes that spell runs, in whatever widths, are read as these runs.
pub fn spelled_pairs_are_read()
    ensures { SpelledIsRead }
{}

/// Law: bytes that are read spell the runs that were read.
pub fn read_pairs_are_spelled()
    ensures { ReadIsSpelled }
{}

/// Law: what is written spells its runs.
pub fn written_pairs_are_spelled()
    ensures { WrittenIsSpelled }
{}

/// Law: what is written is read again as the same runs.
pub fn written_pairs_are_read()
    ensures { WrittenIsRead }
{}

/// Law: no spelling of runs is shorter than what is written.
pub fn written_pairs_are_shortest()
    ensures { WrittenIsShortest }
{}

/// Law: examples of pairs that are read, that are refused and that are written.
pub fn pairs_vectors()
    ensures { PairsVectors }
{}
