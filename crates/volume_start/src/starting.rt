//! A volume is started.
ghost use Rattle.std.specs.Prelude.{◌≡◌, ◌<◌, length, IfOk, IfErr, IfSome, OnOk, OnErr};
ghost use Rattle.host_base.specs.Causes.{HasFailed, last_moment};
ghost use Rattle.sector_device.specs.Disks.{IsSettled};
ghost use Rattle.device_view.specs.Devices.{CountsOnDevice};
ghost use Rattle.mounted_states.specs.map_change.Parts.{live_parts};
ghost use Rattle.mounted_states.specs.volume_tree.Named.{AreNamesOf};
ghost use Rattle.volume_start.specs.Faults.{cause_of, device_behind};
ghost use Rattle.volume_start.specs.Plans.{PlansOn, FitsPlan};
ghost use Rattle.volume_start.specs.Starts.{StartsOn, BeginsAnywhere, IsUnwritten, FailsBehind, FailsStart, StaysStarted};

use crate::fault::StartFault;
use crate::plan::{StartPlan, prepare};
use file_puts::{VolumeStreams, state_has_bitmap};
use host_base::Failed;
use mounted_states::{
    LiveMap, Names, all_put_out, found_lie_off, mounts_hold_states, stores_begin,
    stores_keep_found, stores_may_be_changed, stores_show_mounted,
};
use sector_device::{Device, LAST_MOMENT};
use start_mounts::stopped_starts_mount;
use std::alloc::Global;
use txn_mount::Store;
use upcase_order::Upcase;

/// A volume that takes changes.
#[derive(Drop)]
pub struct Started<D: Device> {
    /// The store, at its start, on the device.
    pub store: Store<D>,
    /// The volume as it is loaded, which follows its changes.
    pub live: LiveMap,
    /// Its table of upper-case units.
    pub upper: Upcase,
    /// The names of its files.
    pub names: Names,
    /// The streams of its file table, of the table's mirror and of the bits of its clusters.
    pub streams: VolumeStreams,
    /// Room for a piece of the device.
    pub room: Vec<u8>,
}

// Syncs the device, so that nothing of it is unsynced, and tries that its last moment hasn't come.
fn settle<D: Device>(device: &mut D) -> Result<(), Failed>
    ensures settled { OnOk result (IfSome (D.changes_of device.new).disk IsSettled) }
    ensures before { OnOk result (D.moment_of device.new < last_moment) }
    ensures counted { OnOk result (D.fault_count device.new ≡ D.fault_count device.old) }
    ensures fault { OnErr result (HasFailed (D.fault_count device.old) (D.fault_count device.new) (D.moment_of device.new)) }
    ensures unwritten { IsUnwritten D.gives D.sector_count D.changes_of D.fault_count D.moment_of device.old device.new }
{
    device.sync()?;
    if device.moment() >= LAST_MOMENT {
        return Err(Failed);
    }
    Ok(())
}

// Mounts the store of a volume of which all else is in memory, on a device that was synced.
fn mount_store<D: Device>(
    alloc: Global,
    device: D,
    plan: StartPlan,
) -> Result<Started<D>, (StartFault, D)>
    requires settled { IfSome (D.changes_of device).disk IsSettled }
    requires before { D.moment_of device < last_moment }
    requires fits { FitsPlan (D.sector_count device) plan }
    requires on { IfSome (D.gives device) (λ first. PlansOn first plan) }
    ensures starts { IfOk result (λ s. StartsOn D.gives D.sector_count D.changes_of device s.store.device s.store.state (live_parts s.live) s.upper s.streams) }
    ensures anywhere { IfOk result (λ s. BeginsAnywhere (D.gives device) (D.gives s.store.device) s.store.state) }
    ensures named { IfOk result (λ s. AreNamesOf s.names s.live.map.files.items) }
    ensures sized { IfOk result (λ s. length s.room.items ≡ 65536) }
    ensures stays { IfSome (D.gives device) (λ first. StaysStarted (D.sector_count device) (D.moment_of device) first (D.changes_of device) (D.changes_of (device_behind result (λ s. s.store.device)))) }
    ensures sectors { D.sector_count (device_behind result (λ s. s.store.device)) ≡ D.sector_count device }
    ensures errors { IfErr result (FailsBehind D.gives D.sector_count D.changes_of D.fault_count D.moment_of device) }
    ensures counted { CountsOnDevice cause_of (D.fault_count device) (D.fault_count (device_behind result (λ s. s.store.device))) (D.moment_of (device_behind result (λ s. s.store.device))) result }
{
    all_put_out();
    found_lie_off();
    mounts_hold_states();
    state_has_bitmap();
    stopped_starts_mount();
    stores_begin();
    stores_keep_found(&device);
    stores_may_be_changed();
    stores_show_mounted();
    let StartPlan {
        place,
        kept,
        live,
        upper,
        names,
        streams,
        room,
    } = plan;
    match txn_mount::mount(alloc, device, place, kept) {
        Ok(mounted) => {
            let store = mounted.store;
            store.state().known();
            Ok(Started {
                store,
                live,
                upper,
                names,
                streams,
                room,
            })
        }
        Err((fault, device)) => Err((StartFault::from(fault), device)),
    }
}

// Syncs the device, and mounts the store of a volume of which all else is in memory.
fn begin<D: Device>(
    alloc: Global,
    mut device: D,
    plan: StartPlan,
) -> Result<Started<D>, (StartFault, D)>
    requires fits { FitsPlan (D.sector_count device) plan }
    requires on { IfSome (D.gives device) (λ first. PlansOn first plan) }
    ensures starts { IfOk result (λ s. StartsOn D.gives D.sector_count D.changes_of device s.store.device s.store.state (live_parts s.live) s.upper s.streams) }
    ensures anywhere { IfOk result (λ s. BeginsAnywhere (D.gives device) (D.gives s.store.device) s.store.state) }
    ensures named { IfOk result (λ s. AreNamesOf s.names s.live.map.files.items) }
    ensures sized { IfOk result (λ s. length s.room.items ≡ 65536) }
    ensures stays { IfSome (D.gives device) (λ first. StaysStarted (D.sector_count device) (D.moment_of device) first (D.changes_of device) (D.changes_of (device_behind result (λ s. s.store.device)))) }
    ensures sectors { D.sector_count (device_behind result (λ s. s.store.device)) ≡ D.sector_count device }
    ensures errors { IfErr result (FailsBehind D.gives D.sector_count D.changes_of D.fault_count D.moment_of device) }
    ensures counted { CountsOnDevice cause_of (D.fault_count device) (D.fault_count (device_behind result (λ s. s.store.device))) (D.moment_of (device_behind result (λ s. s.store.device))) result }
{
    match settle(&mut device) {
        Ok(()) => mount_store(alloc, device, plan),
        Err(Failed) => Err((StartFault::Device, device)),
    }
}

/// Starts the volume on the device: mounts it ([`volume_mount::mount`]), takes all memory that
/// operations need, syncs the device, and then mounts a store where the volume lies
/// ([`txn_mount::mount`]), which recovers it by its log and opens a session there.
///
/// It costs what both mounts do, and a sync. Each error gives the device back, to which nothing was
/// written unless the answer is [`StartFault::Device`]; a known one was only read, but where memory
/// is wanting behind the sync. Whatever is answered, an image that a crash leaves inside the start
/// or behind it could be left before, or mounts as the same tree, where the volume's log is sound.
/// - [`StartFault::Refused`]: the volume isn't mounted, with the mount's first refusal.
/// - [`StartFault::Device`]: the device failed.
/// - [`StartFault::Memory`]: want of memory.
/// - [`StartFault::Unfit`]: the bits of the volume's clusters don't all lie in clusters below their
///   initialised size, or the log has a torn block that has its recovered bytes already, for which
///   no bytes of a disk stand untorn.
/// - [`StartFault::Unknown`]: no session may be written where the log was found.
pub fn start<D: Device>(alloc: Global, mut device: D) -> Result<Started<D>, (StartFault, D)>
    ensures starts { IfOk result (λ s. StartsOn D.gives D.sector_count D.changes_of device s.store.device s.store.state (live_parts s.live) s.upper s.streams) }
    ensures anywhere { IfOk result (λ s. BeginsAnywhere (D.gives device) (D.gives s.store.device) s.store.state) }
    ensures named { IfOk result (λ s. AreNamesOf s.names s.live.map.files.items) }
    ensures sized { IfOk result (λ s. length s.room.items ≡ 65536) }
    ensures stays { IfSome (D.gives device) (λ first. StaysStarted (D.sector_count device) (D.moment_of device) first (D.changes_of device) (D.changes_of (device_behind result (λ s. s.store.device)))) }
    ensures sectors { D.sector_count (device_behind result (λ s. s.store.device)) ≡ D.sector_count device }
    ensures errors { IfErr result (FailsStart D.gives D.sector_count D.changes_of D.fault_count D.moment_of device) }
    ensures counted { D.moment_of device < last_moment → CountsOnDevice cause_of (D.fault_count device) (D.fault_count (device_behind result (λ s. s.store.device))) (D.moment_of (device_behind result (λ s. s.store.device))) result }
{
    match prepare(alloc, &mut device) {
        Ok(plan) => begin(alloc, device, plan),
        Err(fault) => Err((fault, device)),
    }
}
