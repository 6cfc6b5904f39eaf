//! The laws of these definitions.
ghost use Rattle.volume_core.specs.Staying.{ReadyStays};

use working_volume::needed_is_all;

/// Law: a content from which operations are planned stays one where the blocks stay from which it is
/// read as a state.
pub fn ready_stays()
    ensures { ReadyStays }
{
    needed_is_all();
}
