//! The laws of these definitions.
ghost use Rattle.names_grow.specs.Grown.{GrownNamesTell, MoreIsTold};

use made_names::made_names;
use same_names::same_names;

/// Law: where the name of a file that has come is put with the names of the records of before, and
/// with empty places for those that have come, they are the names of the records behind it.
pub fn grown_names()
    ensures { GrownNamesTell }
{
    made_names();
    same_names();
}

/// Law: what is known of a file that is made, and of the names behind it, is what the rule of one
/// file more asks.
pub fn more_is_told()
    ensures { MoreIsTold }
{}
