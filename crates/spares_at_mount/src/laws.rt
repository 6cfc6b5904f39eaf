//! The laws of these definitions.
ghost use Rattle.spares_at_mount.specs.Mounts.{BlocksOffLog, LogsLieInVolumes, MountsSpare, StoresSpare};

use mount_laws::owned_once;

/// Law: a block by which a state is judged lies in no cluster of the log; and a block of the grid
/// that lies in none, and shares no sector with a block by which the log is found, may be changed
/// by a store whose log lies in these clusters.
pub fn blocks_off_log()
    ensures { BlocksOffLog }
{
    owned_once();
}

/// Law: a store at its start, on sectors that are a state in whose log its own log lies, spares each
/// block from which the state is read.
pub fn mounts_spare()
    ensures { MountsSpare }
{
    owned_once();
}

/// Law: the log of a mounted volume lies in the clusters of the volume's log, and so does the same log
/// by other runs.
pub fn logs_lie_in_volumes()
    ensures { LogsLieInVolumes }
{
    owned_once();
}

/// Law: a store that begins on a device spares the state that it shows, as a volume over it asks.
pub fn stores_spare()
    ensures { StoresSpare }
{
    owned_once();
}
