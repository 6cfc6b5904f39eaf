//! What a run begins with, and the laps of the log that it comes to.
ghost use Rattle.change_run.specs.Runs.{StartsNow, LapsBounded};

use sector_device::Device;
use volume_replies::Volume;

/// Law: a volume that was mounted, and each of whose operations is durable, is one on which a run may
/// begin at its present moment.
pub fn starts_now<D: Device>(volume: &Volume<D>)
    ensures { StartsNow D.gives D.sector_count D.changes_of D.moment_of volume.now }
{
    volume.left();
}

/// Law: where a log in which no page was begun yet begins at most so many times the pages of its
/// ring, as a run of so many commands does, the lap behind its next entry is at most so many behind
/// that of its first page, and one.
pub fn laps_bounded()
    ensures { LapsBounded }
{}
