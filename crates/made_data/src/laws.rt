//! The laws of these definitions.
ghost use Rattle.made_data.specs.Laws.{MadeIsCounted};

use data_plan::data_made;

/// Law: what a step says of a file without unnamed data is what it says of the record with it, which
/// has all that a write or a cut of a file asks of its record.
pub fn made_is_counted()
    ensures { MadeIsCounted }
{
    data_made();
}
