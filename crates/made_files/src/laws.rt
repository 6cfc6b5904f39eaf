//! The laws of these definitions.
ghost use Rattle.made_files.specs.Made.{MadeIsEdit};

use file_makes::new_file_reads;

/// Law: where a draft has put a new file, with its entry in the directory's index and the bit of its
/// number, what was put is the edit of a plan that makes the file.
pub fn made_is_edit()
    ensures { MadeIsEdit }
{
    new_file_reads();
}
