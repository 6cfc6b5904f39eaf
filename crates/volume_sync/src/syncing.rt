//! The operations of a volume become durable.
ghost use Rattle.std.specs.Prelude.{◌≡◌, OnOk};
ghost use Rattle.host_base.specs.Causes.{FailsByCause};
ghost use Rattle.txn_state.specs.States.{facts_of};
ghost use Rattle.volume_sync.specs.Runs.{RunsOn};
ghost use Rattle.volume_sync.specs.Syncs.{sync_step, KeepsDirty, LeavesNewest};

use crate::stepping::step_on;
use sector_device::Device;
use volume_core::{Failed, StoreStep, Volume};

// The step of a sync that comes next, if any.
fn next_of_sync<D: Device>(volume: &Volume<D>) -> Option<StoreStep>
    ensures step { result ≡ sync_step (facts_of volume.now.store.state) }
{
    let facts = volume.facts();
    if volume.durable() == volume.commits() {
        None
    } else if facts.filling {
        Some(StoreStep::SealPage)
    } else if facts.sealed == 0 {
        Some(StoreStep::SyncDevice)
    } else {
        Some(StoreStep::WritePage)
    }
}

/// Makes each operation of a volume durable: the page of its log that is filled is sealed, each sealed
/// page is written, and the device is synced. No block is written out, and no checkpoint begins or
/// ends. Where each operation is durable already, nothing is done.
///
/// The volume has the same tree, with the same map, and the same trees that a crash may bring back. At
/// `Ok` whatever a crash leaves mounts as the newest of them.
///
/// The error is a failure of the device: then nothing more is done, and it may be called again. It
/// takes no memory. At most two calls of the device for each sealed page that wasn't written, and one
/// sync.
pub fn sync<D: Device>(volume: &mut Volume<D>) -> Result<(), Failed>
    ensures durable { OnOk result (volume.new.store.state.durable ≡ volume.new.store.state.commits) }
    ensures idle { volume.old.store.state.durable ≡ volume.old.store.state.commits → volume.new ≡ volume.old }
    ensures dirty { KeepsDirty (facts_of volume.old.store.state) (facts_of volume.new.store.state) }
    ensures newest { OnOk result (LeavesNewest D.gives D.sector_count D.changes_of volume.new) }
    ensures runs { RunsOn D.gives D.sector_count D.moment_of D.changes_of volume.old volume.new }
    ensures cause { FailsByCause (D.fault_count volume.old.store.device) (D.fault_count volume.new.store.device) (D.moment_of volume.new.store.device) result }
{
    while let Some(step) = next_of_sync(volume) {
        match step_on(volume, step) {
            Ok(()) => {}
            Err(fault) => return Err(fault),
        }
    }
    volume.left();
    Ok(())
}
