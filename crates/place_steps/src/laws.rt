//! The law of these definitions.
ghost use Rattle.place_steps.specs.Steps.{PlacesAreSteps};

use draft_records::reads_the_table;
use grown_indexes::{counts_among_all, put_grows_first, puts_as_counted};
use index_edits::grown_is_edit;
use index_places::indexes_are_laid_out;
use made_steps::{indexes_move, made_behind_are_steps, rises_where_needed, times_keep_index};
use place_makes::{
    found_is_there, new_file_reads, places_are_there, places_take_steps, times_are_set,
};
use state_streams::streams_of_states;

/// Law: where an operation was found to make a file, and a draft that touched nothing has put it in
/// its place, with the blocks that its directory's index takes, the content is the step's.
pub fn places_are_steps()
    ensures { PlacesAreSteps }
{
    reads_the_table();
    found_is_there();
    places_are_there();
    places_take_steps();
    indexes_are_laid_out();
    streams_of_states();
    times_are_set();
    new_file_reads();
    grown_is_edit();
    put_grows_first();
    puts_as_counted();
    counts_among_all();
    indexes_move();
    times_keep_index();
    rises_where_needed();
    made_behind_are_steps();
}
