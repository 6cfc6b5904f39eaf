//! The laws of these definitions.
ghost use Rattle.written_clusters.specs.Done.{GrowthIsDone, LeavingIsDone, LongerIsDone};

use written_values::times_are_set;

/// Law: where data got greater sizes in the clusters that it had, the operation is done.
pub fn longer_is_done()
    ensures { LongerIsDone }
{
    times_are_set();
}

/// Law: where data took clusters behind its own, and got its sizes and bytes in them, the operation
/// is done.
pub fn growth_is_done()
    ensures { GrowthIsDone }
{
    times_are_set();
}

/// Law: where a value left its record for clusters with the bytes after the operation, it is done.
pub fn leaving_is_done()
    ensures { LeavingIsDone }
{
    times_are_set();
}
