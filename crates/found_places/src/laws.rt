//! The laws of these definitions.
ghost use Rattle.found_places.specs.Laws.{PlacesAreThere, PlacesTakeSteps};

use draft_records::reads_the_table;
use index_places::indexes_are_laid_out;
use made_steps::{made_behind_are_steps, rises_where_needed};
use made_trees::{found_is_there, new_file_reads, times_are_set};
use state_streams::streams_of_states;

/// Law: where an operation was found to make a file, the directory has a record that is read of the
/// file table, the number is spare, and no name of the directory's index has equal units. The times
/// of the directory leave its index and the streams of the volume; so all that is asked of a state
/// is there where the file is put behind them.
pub fn places_are_there()
    ensures { PlacesAreThere }
{
    reads_the_table();
    streams_of_states();
    found_is_there();
    times_are_set();
    indexes_are_laid_out();
}

/// Law: a file that is put so, by a plan of nodes for the used bytes that the directory's record has,
/// in an index that is steady, is the step of the operation.
pub fn places_take_steps()
    ensures { PlacesTakeSteps }
{
    reads_the_table();
    streams_of_states();
    found_is_there();
    times_are_set();
    indexes_are_laid_out();
    new_file_reads();
    rises_where_needed();
    made_behind_are_steps();
}
