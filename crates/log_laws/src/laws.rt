ghost use Rattle.log_laws.specs.NextLaps.{NextLapIsNew};
ghost use Rattle.log_laws.specs.Tables.{LiveLogIsTable, PageReadingIsTable, RingIsRound};

/// Law: what is read of a page from an offset on is the entries that stand there one behind the
/// other, up to the first free byte or to the first place where none stands.
pub fn page_reading_is_table()
    ensures { PageReadingIsTable }
{}

/// Law: the live log is the entries of whole pages that stand one behind the other in the ring,
/// from the oldest place up to the first page that isn't whole, or once round.
pub fn live_log_is_table()
    ensures { LiveLogIsTable }
{}

/// Law: the pages that stand behind one of the ring are met in order, each once in a round, and
/// their LSNs rise.
pub fn ring_is_round()
    ensures { RingIsRound }
{}

/// Law: the next lap is above the lap of each LSN that a page of the ring or the chosen restart
/// page says, so no page that stands in the ring is whole at it.
pub fn next_lap_is_new()
    ensures { NextLapIsNew }
{}
