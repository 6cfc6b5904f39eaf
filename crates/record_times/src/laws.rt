//! The laws of these definitions.
ghost use Rattle.record_times.specs.Laws.{TimesAreSet};

/// Law: a record whose file changed at a time has this time, in standard information that is written
/// anew or in an attribute that comes, and its node is that of before with this time.
pub fn times_are_set()
    ensures { TimesAreSet }
{}
