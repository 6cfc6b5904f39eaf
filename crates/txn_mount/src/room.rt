//! All memory that a mount takes, before anything is written.
ghost use Rattle.std.specs.Prelude.{◌≡◌, ◌⊎◌, ◌^◌, ◌<◌, true, All, IfOk, IfErr};
ghost use Rattle.log_recovery.specs.log_reading.Rings.{IsRingPlace};
ghost use Rattle.log_recovery.specs.Recovering.{IsSized};
ghost use Rattle.txn_core.specs.log_area.Areas.{new_area};
ghost use Rattle.txn_mount.specs.Plans.{is_level, IsPlan, IsUnlevel};

use crate::fault::StoreFault;
use crate::keys::keys_of;
use crate::puts::PutOut;
use host_base::Memory;
use log_recovery::{LogPlace, Recovered, ToWrite, is_lap};
use std::alloc::{AllocError, Global};
use txn_core::LogArea;

/// What a mount needs before it writes: what was found of the log, the blocks that are put out, the
/// ring of the new session and its first LSN, and a 0 for each page of the ring.
#[derive(Drop)]
pub struct MountPlan {
    pub found: ToWrite,
    pub keys: Vec<PutOut>,
    pub log: LogArea,
    pub oldest: u64,
    pub ends: Vec<u64>,
}

// Whether a session may begin with what was found: with this lap, and with this place and open
// count of its restart page.
fn is_level(place: &LogPlace, found: &Recovered) -> bool
    requires pages { place.now.pages < 2 ^ 52 }
    ensures value { result ≡ is_level place.now.pages found.now }
{
    let lap = found.next_lap;
    1 <= lap && is_lap(place.pages, lap) && found.restart <= 1 && found.opens <= 0x8000_0000
}

// The ring of the new session.
fn start_area(alloc: Global, place: &LogPlace, found: &Recovered) -> Result<LogArea, AllocError>
    requires ring { IsRingPlace place.now }
    requires level { is_level place.now.pages found.now ≡ true }
    ensures area { IfOk result (λ log. log ≡ new_area place.now found.now.next_lap found.now.restart found.now.opens) }
{
    match LogArea::start(alloc, place, found.next_lap, found.restart, found.opens) {
        Ok(log) => Ok(log),
        Err(Memory) => Err(AllocError),
    }
}

// What a mount on a device of so many sectors needs, where a session may begin.
fn room_for(
    alloc: Global,
    place: &LogPlace,
    count: u64,
    found: ToWrite,
) -> Result<MountPlan, AllocError>
    requires ring { IsRingPlace place.now }
    requires sized { All IsSized found.recovered.blocks.bodies.items }
    requires level { is_level place.now.pages found.recovered ≡ true }
    ensures plan { IfOk result (IsPlan place.now count) }
    ensures found { IfOk result (λ p. p.found ≡ found) }
{
    let keys = keys_of(alloc, &found.recovered.blocks.bodies, count)?;
    let log = start_area(alloc, place, &found.recovered)?;
    let oldest = log.next(0x58);
    let ends = vec![in alloc; 0; log.size() as usize]?;
    Ok(MountPlan {
        found,
        keys,
        log,
        oldest,
        ends,
    })
}

/// What a mount on a device of so many sectors needs by what was found. Nothing is asked of the
/// device.
///
/// The errors are want of memory, and [`StoreFault::Broken`] where no session may begin with what
/// was found, as is never so where the disk is known.
pub fn plan_for(
    alloc: Global,
    place: &LogPlace,
    count: u64,
    found: ToWrite,
) -> Result<MountPlan, StoreFault>
    requires ring { IsRingPlace place.now }
    requires sized { All IsSized found.recovered.blocks.bodies.items }
    ensures plan { IfOk result (IsPlan place.now count) }
    ensures found { IfOk result (λ p. p.found ≡ found) }
    ensures fault { IfErr result (λ e. (e ≡ StoreFault.Memory) ⊎ IsUnlevel place.now.pages found.recovered e) }
{
    if !is_level(place, &found.recovered) {
        return Err(StoreFault::Broken);
    }
    Ok(room_for(alloc, place, count, found)?)
}
