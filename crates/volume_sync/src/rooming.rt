//! Room in the log of a volume.
ghost use Rattle.std.specs.Prelude.{◌≡◌};
ghost use Rattle.host_base.specs.Causes.{FailsByCause};
ghost use Rattle.txn_state.specs.States.{facts_of};
ghost use Rattle.volume_sync.specs.Runs.{RunsOn};
ghost use Rattle.volume_sync.specs.Rooms.{has_room, may_come, room_step, IsTelling, IsRoomMade};

use crate::stepping::step_on;
use flush_policy::{Facts, StoreStep, next_step};
use sector_device::Device;
use volume_core::{Failed, Volume};

// What the store of a volume tells.
fn told<D: Device>(volume: &Volume<D>) -> Facts
    ensures telling { IsTelling (facts_of volume.now.store.state) result }
{
    volume.known();
    volume.facts()
}

fn has_room(facts: &Facts, pages: u64) -> bool
    ensures { result ≡ has_room pages facts.now }
{
    pages <= facts.pages.saturating_sub(facts.pages_used)
}

// The step, unless it needs a restart page and none can be made.
fn may_come(next: bool, step: Option<StoreStep>) -> Option<StoreStep>
    ensures { result ≡ may_come next step }
{
    match step {
        None => None,
        Some(StoreStep::WriteRestart) => {
            if next {
                Some(StoreStep::WriteRestart)
            } else {
                None
            }
        }
        Some(step) => Some(step),
    }
}

// The step that comes next, where not so many pages are free.
fn room_step(pages: u64, next: bool, facts: &Facts) -> Option<StoreStep>
    ensures step { result ≡ room_step pages next facts.now }
{
    if has_room(facts, pages) {
        None
    } else {
        may_come(next, next_step(facts))
    }
}

/// Makes room in the log of a volume: takes the steps of its store, as
/// [`flush_policy::next_step`] chooses them, until so many pages of the log are free, or no step is
/// left. So many are free then, or they aren't: then no page of the log is used, or no restart page can
/// be made, since the log has no lap for a further entry, or its count of opens has come to its end.
///
/// The volume has the same tree, with the same map, and the same trees that a crash may bring back.
///
/// The error is a failure of the device: then nothing more is done, and it may be called again. It
/// takes no memory. At most two calls of the device for each page of the log that wasn't written and
/// each dirty block, and a few more.
pub fn make_room<D: Device>(volume: &mut Volume<D>, pages: u64) -> Result<bool, Failed>
    ensures made { IsRoomMade pages result (facts_of volume.new.store.state) }
    ensures runs { RunsOn D.gives D.sector_count D.moment_of D.changes_of volume.old volume.new }
    ensures cause { FailsByCause (D.fault_count volume.old.store.device) (D.fault_count volume.new.store.device) (D.moment_of volume.new.store.device) result }
{
    let mut facts = told(volume);
    let mut next = volume.has_next();
    while let Some(step) = room_step(pages, next, &facts) {
        match step_on(volume, step) {
            Ok(()) => {}
            Err(fault) => return Err(fault),
        }
        facts = told(volume);
        next = volume.has_next();
    }
    Ok(has_room(&facts, pages))
}
