//! The law of these definitions.
ghost use Rattle.raised_places.specs.Steps.{RaisedPlacesAreSteps};

use draft_records::reads_the_table;
use index_places::indexes_are_laid_out;
use place_steps::{
    counts_among_all, found_is_there, indexes_move, new_file_reads, places_are_there, put_raises,
    puts_as_counted, raised_is_edit, times_are_set, times_keep_grown,
};
use raised_steps::{never_needs_level, raised_are_steps, roots_are_loose, takes_alike};
use state_streams::streams_of_states;

/// Law: where an operation was found to make a file, and a draft that touched nothing has put it in
/// its place below a level more of its directory's index, which a step allows, the content is the
/// step's.
pub fn raised_places_are_steps()
    ensures { RaisedPlacesAreSteps }
{
    reads_the_table();
    found_is_there();
    places_are_there();
    indexes_are_laid_out();
    streams_of_states();
    times_are_set();
    new_file_reads();
    raised_is_edit();
    put_raises();
    puts_as_counted();
    counts_among_all();
    indexes_move();
    times_keep_grown();
    never_needs_level();
    takes_alike();
    roots_are_loose();
    raised_are_steps();
}
