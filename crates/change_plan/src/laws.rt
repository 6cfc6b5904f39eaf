//! The laws of these definitions.
ghost use Rattle.change_plan.specs.Laws.{FilesAreRead};

use found_files::reads_the_table;

/// Law: in a state the record of a file that can be changed is read of the file table as it stands,
/// and its number is within the bounds of one.
pub fn files_are_read()
    ensures { FilesAreRead }
{
    reads_the_table();
}
