//! The laws of these definitions.
ghost use Rattle.refused_places.specs.Refused.{DeepPlacesAreSteps, FullPlacesAreSteps, RaisedFullAreSteps};
ghost use Rattle.refused_places.specs.Topped.{LevelsTop};

use made_steps::{not_made_is_step, rises_where_needed};
use place_makes::{found_is_there, makings_are_steps, new_file_reads, places_are_there};

/// Law: an index that is spread without a level more is spread with one by the block into which the
/// root goes down as a whole.
pub fn levels_top()
    ensures { LevelsTop }
{}

/// Law: where a place is full, and no level may be added or the plan needs one, the operation is
/// refused with the used bytes that the directory's record would have.
pub fn full_places_are_steps()
    ensures { FullPlacesAreSteps }
{
    places_are_there();
    new_file_reads();
    not_made_is_step();
    rises_where_needed();
}

/// Law: so it is where the index may get a level, and the record would be too full with it.
pub fn raised_full_are_steps()
    ensures { RaisedFullAreSteps }
{
    places_are_there();
    new_file_reads();
    found_is_there();
    makings_are_steps();
}

/// Law: where a place is full and the record has no free bytes for an entry more, the index may get
/// a level; one of sixteen levels gets none, and the operation is refused with these.
pub fn deep_places_are_steps()
    ensures { DeepPlacesAreSteps }
{
    places_are_there();
    new_file_reads();
    not_made_is_step();
    rises_where_needed();
}
