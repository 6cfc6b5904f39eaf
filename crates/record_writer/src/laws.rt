//! The laws of writing and reading file records.
ghost use Rattle.record_writer.specs.WriteLaws.{WrittenIsRead};
ghost use Rattle.record_writer.specs.NormalLaws.{FilledIsRead, NormalStandsForSame, NormalFitsByRoom};

/// Law: the body that is written of a record is read as the record, also after it was protected by
/// a check word and undone.
pub fn written_is_read()
    ensures { WrittenIsRead }
{}

/// Law: mapping pairs with zeros behind them are read as the same runs.
pub fn filled_pairs_are_read()
    ensures { FilledIsRead }
{}

/// Law: an attribute that is made normal stands for the same link, information and stream, and so
/// does a record with each of its attributes.
pub fn normal_stands_for_same()
    ensures { NormalStandsForSame }
{}

/// Law: a record that was read, each of its attributes made normal, has a spelling exactly where it
/// uses at most 1,024 bytes.
pub fn normal_has_spelling()
    ensures { NormalFitsByRoom }
{}
