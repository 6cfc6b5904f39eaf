//! The law of these definitions.
ghost use Rattle.table_places.specs.Steps.{PlacesBehindAreSteps};

use index_edits::grown_is_edit;
use index_places::indexes_are_laid_out;
use made_steps::{indexes_move, made_behind_are_steps, rises_where_needed, times_keep_index};
use place_steps::{put_grows_next, puts_among};
use state_streams::streams_of_states;
use table_steps::{found_is_there, new_file_reads, times_are_set};

/// Law: where an operation was found to make a file, and a draft has let the file table grow and then
/// put the file in its place, with the blocks that its directory's index takes of the clusters that
/// the table left, the content is the step's.
pub fn places_behind_are_steps()
    ensures { PlacesBehindAreSteps }
{
    found_is_there();
    indexes_are_laid_out();
    streams_of_states();
    times_are_set();
    new_file_reads();
    grown_is_edit();
    put_grows_next();
    puts_among();
    indexes_move();
    times_keep_index();
    rises_where_needed();
    made_behind_are_steps();
}
