//! The laws of these definitions.
ghost use Rattle.writes_keep.specs.Writes.{WritesKeep};

use names_stay::made_is_counted;
use plans_keep::plans_keep;
use record_model::record_is_body;

/// Law: the changes of a draft that has put what comes of a file's data lead from the state before
/// to the one behind as a volume asks, keep the table of upper-case units and the attribute lists
/// of the other files, and stay off the clusters that the volume's own files have, but for the file
/// table and the bits of clusters. The next state has the streams that a draft asks for, and no
/// change journal. A file without unnamed data is put by its record with data that is empty.
pub fn writes_keep()
    ensures { WritesKeep }
{
    made_is_counted();
    plans_keep();
    record_is_body();
}
