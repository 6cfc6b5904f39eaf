//! A store is mounted.
ghost use Rattle.std.specs.Prelude.{◌≡◌, ◌*◌, ◌<◌, ◌≤◌, None, Ok, IfOk, IfErr, IfSome, replicate};
ghost use Rattle.disk_model.specs.Content.{content_of};
ghost use Rattle.disk_model.specs.Sectors.{sector_of};
ghost use Rattle.host_base.specs.Answers.{ExplainsOrFails};
ghost use Rattle.host_base.specs.Causes.{HasFailed, last_moment};
ghost use Rattle.log_recovery.specs.device_view.Devices.{CountsOnDevice};
ghost use Rattle.log_recovery.specs.log_reading.LogPages.{IsLogPlace};
ghost use Rattle.log_recovery.specs.log_reading.Rings.{IsRingPlace};
ghost use Rattle.log_recovery.specs.Writing.{to_write_in};
ghost use Rattle.txn_core.specs.log_area.Areas.{ring_size};
ghost use Rattle.txn_core.specs.txn_state.States.{facts_of};
ghost use Rattle.txn_core.specs.txn_model.Calls.{first_facts};
ghost use Rattle.txn_core.specs.Kept.{IsBegun};
ghost use Rattle.txn_core.specs.Openings.{StartsThen};
ghost use Rattle.txn_mount.specs.Faults.{store_cause, cause_of, device_behind};
ghost use Rattle.txn_mount.specs.Mounts.{IsMounted, StopsMount, ShadowsFound, ShowsDisk, ShowsRecovered, StaysRecovered};
ghost use Rattle.txn_mount.specs.Plans.{IsPlan, IsPlanOn, area_behind, WritesPlan, StopsWriting};

use crate::fault::StoreFault;
use crate::planning::plan;
use crate::room::MountPlan;
use crate::session::write_down;
use disk_model::Block;
use host_base::Failed;
use log_recovery::{LogPlace, Shadow};
use sector_device::Device;
use std::alloc::Global;
use txn_core::{LogArea, Store, StoreState};

/// A store as a mount leaves it.
#[derive(Drop)]
pub struct Mounted<D: Device> {
    /// The store, at its start, on the device.
    pub store: Store<D>,
    /// The shadowed blocks of the log as the mount found it: of these the device's bodies stay.
    pub shadows: Vec<Shadow>,
}

// A store on a device, over the log of a session that was opened there.
fn start_store<D: Device>(
    alloc: Global,
    device: D,
    place: LogPlace,
    log: LogArea,
    kept: Vec<Block>,
    ends: Vec<u64>,
) -> Store<D>
    requires inside { place.device ≤ D.sector_count device }
    requires pages { log.pages ≡ place.pages }
    requires sectors { log.sectors ≡ place.device }
    requires begun { IsBegun log }
    requires ends { ends.items ≡ replicate (ring_size log) 0 }
    requires starts { StartsThen D.changes_of place log device }
    ensures device { result.device ≡ device }
    ensures facts { facts_of result.state ≡ first_facts place log kept.items }
    ensures starts { ShowsDisk (D.changes_of result.device) (facts_of result.state) }
{
    let state = StoreState::over(alloc, place, log, kept, ends);
    Store::on(alloc, device, state)
}

// Writes what was planned, and starts the store.
fn carry_out<D: Device>(
    alloc: Global,
    mut device: D,
    place: LogPlace,
    kept: Vec<Block>,
    plan: MountPlan,
) -> Result<Mounted<D>, (StoreFault, D)>
    requires ring { IsRingPlace place }
    requires inside { place.device ≤ D.sector_count device }
    requires plan { IsPlan place (D.sector_count device) plan }
    requires on { IsPlanOn (D.changes_of device).disk place kept.items plan }
    ensures done { IfOk result (λ m. WritesPlan D.gives D.changes_of D.moment_of place plan (Ok tt) device m.store.device) }
    ensures facts { IfOk result (λ m. facts_of m.store.state ≡ first_facts place (area_behind place plan.found.recovered) kept.items) }
    ensures shadows { IfOk result (λ m. m.shadows ≡ plan.found.recovered.blocks.shadows) }
    ensures starts { IfOk result (λ m. ShowsDisk (D.changes_of m.store.device) (facts_of m.store.state)) }
    ensures stops { IfErr result (λ e. (e.0 ≡ StoreFault.Fault) × StopsWriting D.gives D.changes_of D.moment_of place plan device e.1) }
    ensures sectors { D.sector_count (device_behind result (λ m. m.store.device)) ≡ D.sector_count device }
    ensures ok { IfOk result (λ m. D.fault_count m.store.device ≡ D.fault_count device) }
    ensures fault { IfErr result (λ e. HasFailed (D.fault_count device) (D.fault_count e.1) (D.moment_of e.1)) }
{
    let MountPlan {
        found,
        keys,
        mut log,
        oldest,
        ends,
    } = plan;
    let blocks = found.recovered.blocks;
    match write_down(&mut device, &mut log, oldest, &blocks.bodies, &keys) {
        Ok(()) => {
            let store = start_store(alloc, device, place, log, kept, ends);
            let shadows = blocks.shadows;
            Ok(Mounted { store, shadows })
        }
        Err(Failed) => Err((StoreFault::Fault, device)),
    }
}

/// Mounts a store on a device: recovers it by its log, and opens a session there. The log lies at
/// this place, and is found by the `kept` blocks: of a volume the boot sector's and that of record
/// 2.
///
/// It takes all memory that it needs, and reads. Then it writes the blocks that
/// [`recover_to_write`](log_recovery::recover_to_write) says, by rising first sector, each under
/// the check word behind the one that stands there; it syncs; it writes a restart page, which names
/// the first page of a lap that no page of the ring says; and it syncs. So a crash inside it is
/// recovery again: whatever is left of a settled device, wherever the mount stopped, recovers to
/// the same content on known blocks that the log doesn't shadow. And the store that begins has that
/// content.
///
/// Each error gives the device back.
/// - [`StoreFault::Refused`]: the log is refused, exactly as `recover_to_write` says. Nothing was
///   written.
/// - [`StoreFault::Fault`]: the device failed; the call that failed is the last one.
/// - [`StoreFault::Memory`]: want of memory, before anything was written.
/// - [`StoreFault::Broken`]: what was read begins no session, before anything was written; never
///   where the disk is known.
///
/// The log is read once, in pieces of 64 KiB, and each body is written once, in one call behind a
/// read of its check word; a log without entries costs two writes' worth of calls: a read and a
/// write of the restart page, and two syncs. Time is that of `recover_to_write`, and linear in the
/// log's bytes; memory is 4,096 bytes for each page of the ring, and what recovery takes.
pub fn mount<D: Device>(
    alloc: Global,
    mut device: D,
    place: LogPlace,
    kept: Vec<Block>,
) -> Result<Mounted<D>, (StoreFault, D)>
    requires log { IsLogPlace place }
    requires ring { IsRingPlace place }
    requires inside { place.device ≤ D.sector_count device }
    requires whole { 8 * place.clusters ≤ D.sector_count device }
    ensures mounted { IfOk result (λ m. IsMounted D.gives D.sector_count D.changes_of D.fault_count D.moment_of place kept.items device m.store.device (facts_of m.store.state)) }
    ensures stops { IfErr result (λ e. StopsMount D.gives D.sector_count D.changes_of D.fault_count D.moment_of place kept.items e.0 device e.1) }
    ensures shadows { IfOk result (λ m. ShadowsFound place kept.items (D.changes_of device) m.shadows.items) }
    ensures shows { IfOk result (λ m. ShowsRecovered place kept.items (D.changes_of device) (D.changes_of m.store.device) (facts_of m.store.state)) }
    ensures starts { IfOk result (λ m. ShowsDisk (D.changes_of m.store.device) (facts_of m.store.state)) }
    ensures images { StaysRecovered (D.moment_of device) place kept.items (D.changes_of device) (D.changes_of (device_behind result (λ m. m.store.device))) }
    ensures refusals { IfSome (D.gives device) (λ disk. IfErr result (λ e. ExplainsOrFails (store_cause e.0) (to_write_in (content_of (sector_of disk)) place kept.items))) }
    ensures broken { IfErr result (λ e. (e.0 ≡ StoreFault.Broken) → D.gives device ≡ None) }
    ensures sectors { D.sector_count (device_behind result (λ m. m.store.device)) ≡ D.sector_count device }
    ensures fault { IfErr result (λ e. (e.0 ≡ StoreFault.Fault) → HasFailed (D.fault_count device) (D.fault_count e.1) (D.moment_of e.1)) }
    ensures counted { D.moment_of device < last_moment → CountsOnDevice cause_of (D.fault_count device) (D.fault_count (device_behind result (λ m. m.store.device))) (D.moment_of (device_behind result (λ m. m.store.device))) result }
{
    match plan(alloc, &mut device, &place, &kept) {
        Ok(plan) => carry_out(alloc, device, place, kept, plan),
        Err(fault) => Err((fault, device)),
    }
}
