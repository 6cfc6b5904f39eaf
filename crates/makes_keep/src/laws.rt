//! The laws of these definitions.
ghost use Rattle.makes_keep.specs.Makes.{MakesKeep};
ghost use Rattle.makes_keep.specs.Naming.{MakesKeepNames};
ghost use Rattle.makes_keep.specs.Growing.{NoneGrowsWell, IndexGrowsWell};
ghost use Rattle.makes_keep.specs.Welcoming.{MadeStaysWelcome};

use made_trees::{new_file_reads, times_are_set};
use plans_keep::plans_keep;
use record_model::{node_is_body, record_is_body};

/// Law: the changes of a draft that has put a new file in a directory, behind what it has put well
/// before, lead from the state before to the one behind as a volume asks.
pub fn makes_keep()
    ensures { MakesKeep }
{
    times_are_set();
    new_file_reads();
    plans_keep();
    record_is_body();
    node_is_body();
}

/// Law: the files behind a new file have the names that they had, and it has its one name.
pub fn makes_keep_names()
    ensures { MakesKeepNames }
{
    times_are_set();
    new_file_reads();
}

/// Law: a draft that touched nothing has put nothing but well.
pub fn none_grows_well()
    ensures { NoneGrowsWell }
{}

/// Law: what a draft's call puts of an index that gets more blocks is put well, behind what was put
/// well before.
pub fn index_grows_well()
    ensures { IndexGrowsWell }
{
    record_is_body();
}

/// Law: no file has more attribute lists behind a new file, and no name leads to a change journal
/// where none did.
pub fn made_stays_welcome()
    ensures { MadeStaysWelcome }
{
    times_are_set();
    new_file_reads();
}
