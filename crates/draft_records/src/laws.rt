//! The laws of these definitions.
ghost use Rattle.draft_records.specs.Records.{SpelledFitsByRoom, SpelledFitsButRoom, ReadsTheTable};

/// Law: a record that has a spelling has one exactly where it has room, as a record that was read
/// and made normal does.
pub fn spelled_fits_by_room()
    ensures { SpelledFitsByRoom }
{}

/// Law: a record that has a spelling has one but for its room, as a record that was read does.
pub fn spelled_fits_but_room()
    ensures { SpelledFitsButRoom }
{}

/// Law: what a file table has as a record in use is read as this record.
pub fn reads_the_table()
    ensures { ReadsTheTable }
{}
