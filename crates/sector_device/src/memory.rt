ghost use Rattle.std.specs.Prelude.{◌≡◌, ◌⊎◌, ◌+◌, ◌*◌, ◌/◌, ◌%◌, ◌^◌, ◌<◌, ◌≤◌, ◌↔◌, ◌++◌, ◌∷◌, [], Some, length, min, reverse, IsTrue, IsFalse, IsErr, OnOk, OnErr, IfOk, IfSome};
ghost use Rattle.std.specs.Option.{option_map};
ghost use Rattle.std.proofs.Common.{arith};
ghost use Rattle.disk_model.specs.Bytes.{part, written};
ghost use Rattle.disk_model.specs.Sectors.{sector_of, raw_from};
ghost use Rattle.disk_model.specs.host_base.Calls.{IsDue};
ghost use Rattle.disk_model.specs.host_base.Causes.{FailsByCause, HasCause, last_moment};
ghost use Rattle.sector_device.specs.Disks.{put, settled};
ghost use Rattle.sector_device.specs.Moments.{moment_after, DoesNothing, with_call, IsChanged, Writes, Syncs, MayLeaveNow, LeftSince};
ghost use Rattle.sector_device.specs.Sectors.{sectors_of, IsTornBy};
ghost use Rattle.sector_device.specs.WholeSectors.{IsDiskOf-sectors_of};
ghost use Rattle.sector_device.specs.Kept.{AreKept, AreKept-prop, disk_by, past_by, quiet_call, sync_call, write_call, Adds, KeepsRead, KeepsWrite, KeepsSync};
ghost use Rattle.sector_device.specs.KeptLaws.{seen_by, sized_by, ends_by, over_by};

use crate::choosing::leave;
use crate::device::{Call, Device, LAST_MOMENT, SECTOR_BYTES};
use disk_model::{Bytes, Failed};
use std::alloc::{AllocError, Global};

// Fills the buffer with the bytes from `at` on.
fn get(bytes: &[u8], at: usize, out: &mut [u8])
    requires { at + length out.old ≤ length bytes.now }
    ensures { out.new ≡ part at (length out.old) bytes.now }
{
    out.copy_from_slice(&bytes[at..at + out.len()]);
}

// Writes the new bytes over those from `at` on.
pub(crate) fn write_over(bytes: &mut [u8], at: usize, new: &[u8])
    requires { at + length new.now ≤ length bytes.old }
    ensures { bytes.new ≡ written at new.now bytes.old }
{
    bytes[at..at + new.len()].copy_from_slice(new);
}

// The bytes of the sectors that a write puts.
fn taken_of(fails: bool, tearing: usize, len: usize) -> usize
    requires { len % 512 ≡ 0 }
    ensures within { result ≤ len }
    ensures whole { result % 512 ≡ 0 }
    ensures all { IsFalse fails → result ≡ len }
    ensures torn { IsTrue fails → result ≡ 512 * min tearing (len / 512) }
{
    if fails {
        SECTOR_BYTES * tearing.min(len / SECTOR_BYTES)
    } else {
        len
    }
}

/// A call that a device in memory keeps.
#[derive(Drop)]
pub enum KeptCall {
    /// A read that went well.
    Read,
    /// A write, perhaps of fewer sectors than were asked for: the moment before it, the first
    /// sector, and the bytes that it wrote over.
    Write { at: u64, first: u64, old: Bytes },
    /// A sync that succeeded, and the moment before it.
    Sync { at: u64 },
    /// A read or a sync that failed because it was to fail.
    Failed,
}

/// A device in memory, with the numbers of the calls that are to fail. Reads, writes and syncs
/// are counted together, and the first call has the number 1. A call takes memory for what it
/// keeps, and fails and does nothing where there is none.
///
/// It keeps its calls, and of a write the bytes that it wrote over: from the newest call back they
/// say what was durable and what a crash may leave, at each moment. What it keeps grows by the
/// bytes that are written and by some words a call; each call takes time linear in its bytes.
#[derive(Drop)]
pub struct MemoryDevice {
    alloc: Global,
    bytes: Vec<u8>,
    /// The calls that are kept, the oldest first.
    pub done: Vec<KeptCall>,
    /// The numbers of the calls that fail.
    pub failing: Vec<u64>,
    /// How many of its first sectors a failing write writes.
    pub tearing: usize,
    /// The calls begun so far.
    pub calls: u64,
    /// The writes among them.
    pub writes: u64,
    /// The syncs among them.
    pub syncs: u64,
    moment: u64,
    faults: u64,
    ghost whole: { length bytes.items % 512 ≡ 0 },
    ghost few: { length bytes.items < 2 ^ 63 },
    ghost counted: { writes + syncs ≤ moment },
    ghost kept: { AreKept moment (length bytes.items / 512) (reverse done.items) } by { AreKept-prop moment (length bytes.items / 512) (reverse done.items) },
}

impl MemoryDevice {
    ghost use Rattle.sector_device.specs.Memory.{calls_after};

    /// A device of these bytes, whose calls with the numbers in `failing` fail; no call, no moment
    /// and no fault so far. It keeps both lists and takes no memory.
    pub fn new(alloc: Global, bytes: Vec<u8>, failing: Vec<u64>) -> Self
        requires { length bytes.items % 512 ≡ 0 }
        ensures gives { ⟦<MemoryDevice as Device>⟧.gives result ≡ Some (sectors_of bytes.items) }
        ensures sectors { ⟦<MemoryDevice as Device>⟧.sector_count result ≡ length bytes.items / 512 }
        ensures moment { ⟦<MemoryDevice as Device>⟧.moment_of result ≡ 0 }
        ensures changes { ⟦<MemoryDevice as Device>⟧.changes_of result ≡ record { writes = 0; syncs = 0; disk = Some (record { durable = sector_of (sectors_of bytes.items); written = λ _. [] }); past = [] } }
        ensures faults { ⟦<MemoryDevice as Device>⟧.fault_count result ≡ 0 }
        ensures failing { result.failing.items ≡ failing.items }
        ensures calls { result.calls ≡ 0 }
        ensures done { result.done.items ≡ [] }
        ensures tearing { result.tearing ≡ 0 }
    {
        MemoryDevice {
            alloc,
            bytes,
            done: Vec::new(alloc),
            failing,
            tearing: 0,
            calls: 0,
            writes: 0,
            syncs: 0,
            moment: 0,
            faults: 0,
        }
    }

    /// An image that a crash leaves after the first `calls` kept calls, or after all of them where
    /// there are fewer: the durable bytes of then, and of the writes since the sync before, sector
    /// by sector from the newest write back, those whose flag is set. The first flag is that of the
    /// newest write's first sector; past the end of `take` none is set. Of a sector that was
    /// written more than once the newest value that is taken stands. It takes time linear in the
    /// device, the calls, their bytes and the flags, and memory linear in the device.
    pub fn left_by(&self, alloc: Global, calls: usize, take: &[bool]) -> Result<Vec<u8>, AllocError>
        ensures since { IfOk result (λ image. LeftSince (⟦<MemoryDevice as Device>⟧.sector_count self.now) (⟦<MemoryDevice as Device>⟧.changes_of self.now) 0 (sectors_of image.items)) }
        ensures now { length self.now.done.items ≤ calls → IfOk result (λ image. MayLeaveNow (⟦<MemoryDevice as Device>⟧.sector_count self.now) (⟦<MemoryDevice as Device>⟧.changes_of self.now) (sectors_of image.items)) }
    {
        let mut image = Vec::from_slice(alloc, &self.bytes)?;
        let mut decided = vec![in alloc; false; self.bytes.len() / SECTOR_BYTES]?;
        let count = calls.min(self.done.len());
        leave(&self.done, count, take, &mut image, &mut decided);
        Ok(image)
    }

    // Begins a call, before the last moment: whether it is to fail.
    fn begin(&mut self, call: Call) -> bool
        requires { self.old.moment < last_moment }
        ensures bytes { self.new.bytes.items ≡ self.old.bytes.items }
        ensures done { self.new.done.items ≡ self.old.done.items }
        ensures moment { self.new.moment ≡ self.old.moment + 2 }
        ensures changes { ⟦<MemoryDevice as Device>⟧.changes_of self.new ≡ with_call call (⟦<MemoryDevice as Device>⟧.changes_of self.old) }
        ensures faults { self.new.faults ≡ self.old.faults }
        ensures failing { self.new.failing.items ≡ self.old.failing.items }
        ensures calls { self.new.calls ≡ calls_after self.old.moment self.old.calls }
        ensures tearing { self.new.tearing ≡ self.old.tearing }
        ensures due { IsTrue result ↔ IsDue self.old.failing.items self.old.calls }
    {
        self.moment += 2;
        match call {
            Call::Read => {}
            Call::Write => self.writes += 1,
            Call::Sync => self.syncs += 1,
        }
        let number = self.calls.saturating_add(1);
        self.calls = number;
        if self.failing.contains(&number) {
            return true;
        }
        false
    }

    // Keeps a call that changes nothing.
    fn keep(&mut self, fails: bool) -> Result<(), AllocError>
        ensures done { Adds (quiet_call fails) result self.old.done.items self.new.done.items }
        ensures gives { ⟦<MemoryDevice as Device>⟧.gives self.new ≡ ⟦<MemoryDevice as Device>⟧.gives self.old }
        ensures bytes { self.new.bytes.items ≡ self.old.bytes.items }
        ensures changes { ⟦<MemoryDevice as Device>⟧.changes_of self.new ≡ ⟦<MemoryDevice as Device>⟧.changes_of self.old }
        ensures moment { self.new.moment ≡ self.old.moment }
        ensures faults { self.new.faults ≡ self.old.faults }
        ensures failing { self.new.failing.items ≡ self.old.failing.items }
        ensures calls { self.new.calls ≡ self.old.calls }
        ensures tearing { self.new.tearing ≡ self.old.tearing }
    {
        self.done.push(if fails {
            KeptCall::Failed
        } else {
            KeptCall::Read
        })?;
        Ok(())
    }

    // Keeps a sync.
    fn settle(&mut self, at: u64) -> Result<(), AllocError>
        requires { at + 2 ≤ self.old.moment }
        ensures done { Adds (sync_call at) result self.old.done.items self.new.done.items }
        ensures ok { OnOk result (IsChanged (at + 1) settled (⟦<MemoryDevice as Device>⟧.changes_of self.old) (⟦<MemoryDevice as Device>⟧.changes_of self.new)) }
        ensures err { OnErr result (⟦<MemoryDevice as Device>⟧.changes_of self.new ≡ ⟦<MemoryDevice as Device>⟧.changes_of self.old) }
        ensures gives { ⟦<MemoryDevice as Device>⟧.gives self.new ≡ ⟦<MemoryDevice as Device>⟧.gives self.old }
        ensures bytes { self.new.bytes.items ≡ self.old.bytes.items }
        ensures moment { self.new.moment ≡ self.old.moment }
        ensures faults { self.new.faults ≡ self.old.faults }
        ensures failing { self.new.failing.items ≡ self.old.failing.items }
        ensures calls { self.new.calls ≡ self.old.calls }
        ensures tearing { self.new.tearing ≡ self.old.tearing }
    {
        self.done.push(KeptCall::Sync { at })?;
        Ok(())
    }

    // Keeps a write, and writes.
    fn lay(&mut self, at: u64, first: u64, bytes: &[u8]) -> Result<(), AllocError>
        requires over { at + 2 ≤ self.old.moment }
        requires whole { length bytes.now % 512 ≡ 0 }
        requires within { 512 * first + length bytes.now ≤ 512 * (length self.old.bytes.items / 512) }
        ensures done { Adds (write_call at first (part (512 * first) (length bytes.now) self.old.bytes.items)) result self.old.done.items self.new.done.items }
        ensures ok { OnOk result (IsChanged (at + 1) (put first (sectors_of bytes.now)) (⟦<MemoryDevice as Device>⟧.changes_of self.old) (⟦<MemoryDevice as Device>⟧.changes_of self.new)) }
        ensures written { OnOk result (sectors_of self.new.bytes.items ≡ written first (sectors_of bytes.now) (sectors_of self.old.bytes.items)) }
        ensures err { OnErr result (⟦<MemoryDevice as Device>⟧.changes_of self.new ≡ ⟦<MemoryDevice as Device>⟧.changes_of self.old) }
        ensures same { OnErr result (sectors_of self.new.bytes.items ≡ sectors_of self.old.bytes.items) }
        ensures count { length self.new.bytes.items ≡ length self.old.bytes.items }
        ensures moment { self.new.moment ≡ self.old.moment }
        ensures faults { self.new.faults ≡ self.old.faults }
        ensures failing { self.new.failing.items ≡ self.old.failing.items }
        ensures calls { self.new.calls ≡ self.old.calls }
        ensures tearing { self.new.tearing ≡ self.old.tearing }
    {
        let from = SECTOR_BYTES * first as usize;
        let end = from + bytes.len();
        let old = Bytes::copy_of(self.alloc, &self.bytes[from..end])?;
        self.done.push(KeptCall::Write { at, first, old })?;
        write_over(&mut self.bytes, from, bytes);
        Ok(())
    }

    // Counts a failure.
    fn answer(&mut self, fails: bool, done: Result<(), AllocError>) -> Result<(), Failed>
        ensures gives { ⟦<MemoryDevice as Device>⟧.gives self.new ≡ ⟦<MemoryDevice as Device>⟧.gives self.old }
        ensures bytes { self.new.bytes.items ≡ self.old.bytes.items }
        ensures changes { ⟦<MemoryDevice as Device>⟧.changes_of self.new ≡ ⟦<MemoryDevice as Device>⟧.changes_of self.old }
        ensures moment { self.new.moment ≡ self.old.moment }
        ensures failing { self.new.failing.items ≡ self.old.failing.items }
        ensures calls { self.new.calls ≡ self.old.calls }
        ensures tearing { self.new.tearing ≡ self.old.tearing }
        ensures cause { HasCause self.old.faults self.new.faults result }
        ensures fails { IsTrue fails → IsErr result }
        ensures failed { IsErr done → IsErr result }
        ensures only { IsErr result → IsTrue fails ⊎ IsErr done }
        ensures done { self.new.done.items ≡ self.old.done.items }
    {
        if fails || done.is_err() {
            self.faults = self.faults.saturating_add(1);
            return Err(Failed);
        }
        Ok(())
    }
}

impl Device for MemoryDevice {
    ghost use Rattle.std.specs.Prelude.{reverse};
    ghost use Rattle.sector_device.specs.Kept.{disk_by, past_by};
    ghost use Rattle.sector_device.specs.Memory.{calls_after};

    ghost gives = { λ d. Some (sectors_of d.bytes.items) };

    ghost sector_count = { λ d. length d.bytes.items / 512 };

    ghost moment_of = { λ d. d.moment };

    ghost fault_count = { λ d. d.faults };

    ghost changes_of = { λ d. record { writes = d.writes; syncs = d.syncs; disk = Some (disk_by (sectors_of d.bytes.items) (reverse d.done.items)); past = past_by (sectors_of d.bytes.items) (reverse d.done.items) } };

    fn sectors(&self) -> u64 {
        (self.bytes.len() / SECTOR_BYTES) as u64
    }

    fn moment(&self) -> u64 {
        self.moment
    }

    fn faults(&self) -> u64 {
        self.faults
    }

    /// Fails from `LAST_MOMENT` on, where the call's number is among those that are to fail, and
    /// where there is no memory to keep the call.
    fn read(&mut self, first: u64, out: &mut [u8]) -> Result<(), Failed>
        requires whole { length out.old % 512 ≡ 0 }
        requires within { 512 * first + length out.old ≤ 512 * ⟦<MemoryDevice as Device>⟧.sector_count self.old }
        ensures bytes { OnOk result (IfSome (⟦<MemoryDevice as Device>⟧.gives self.old) (λ disk. out.new ≡ raw_from (sector_of disk) first (length out.old / 512))) }
        ensures gives { ⟦<MemoryDevice as Device>⟧.gives self.new ≡ ⟦<MemoryDevice as Device>⟧.gives self.old }
        ensures sectors { ⟦<MemoryDevice as Device>⟧.sector_count self.new ≡ ⟦<MemoryDevice as Device>⟧.sector_count self.old }
        ensures moment { ⟦<MemoryDevice as Device>⟧.moment_of self.new ≡ moment_after (⟦<MemoryDevice as Device>⟧.moment_of self.old) }
        ensures changes { ⟦<MemoryDevice as Device>⟧.changes_of self.new ≡ ⟦<MemoryDevice as Device>⟧.changes_of self.old }
        ensures cause { FailsByCause (⟦<MemoryDevice as Device>⟧.fault_count self.old) (⟦<MemoryDevice as Device>⟧.fault_count self.new) (⟦<MemoryDevice as Device>⟧.moment_of self.new) result }
        ensures ended { last_moment ≤ ⟦<MemoryDevice as Device>⟧.moment_of self.old → DoesNothing (⟦<MemoryDevice as Device>⟧.gives self.old) (⟦<MemoryDevice as Device>⟧.gives self.new) (⟦<MemoryDevice as Device>⟧.fault_count self.old) (⟦<MemoryDevice as Device>⟧.fault_count self.new) result }
        ensures untouched { last_moment ≤ ⟦<MemoryDevice as Device>⟧.moment_of self.old → out.new ≡ out.old }
        ensures due { IsDue self.old.failing.items self.old.calls → IsErr result }
        ensures failing { self.new.failing.items ≡ self.old.failing.items }
        ensures calls { self.new.calls ≡ calls_after (⟦<MemoryDevice as Device>⟧.moment_of self.old) self.old.calls }
        ensures tearing { self.new.tearing ≡ self.old.tearing }
        ensures kept { KeepsRead result self.old.done.items self.new.done.items }
    {
        if self.moment >= LAST_MOMENT {
            return Err(Failed);
        }
        let fails = self.begin(Call::Read);
        let done = self.keep(fails);
        self.answer(fails, done)?;
        get(&self.bytes, SECTOR_BYTES * first as usize, out);
        Ok(())
    }

    /// Fails where a read does; then it writes the first `tearing` sectors, where there is memory.
    fn write(&mut self, first: u64, bytes: &[u8]) -> Result<(), Failed>
        requires whole { length bytes.now % 512 ≡ 0 }
        requires within { 512 * first + length bytes.now ≤ 512 * ⟦<MemoryDevice as Device>⟧.sector_count self.old }
        ensures written { OnOk result (⟦<MemoryDevice as Device>⟧.gives self.new ≡ option_map (written first (sectors_of bytes.now)) (⟦<MemoryDevice as Device>⟧.gives self.old)) }
        ensures torn { OnErr result (IsTornBy first (sectors_of bytes.now) (⟦<MemoryDevice as Device>⟧.gives self.old) (⟦<MemoryDevice as Device>⟧.gives self.new)) }
        ensures sectors { ⟦<MemoryDevice as Device>⟧.sector_count self.new ≡ ⟦<MemoryDevice as Device>⟧.sector_count self.old }
        ensures moment { ⟦<MemoryDevice as Device>⟧.moment_of self.new ≡ moment_after (⟦<MemoryDevice as Device>⟧.moment_of self.old) }
        ensures changes { Writes (⟦<MemoryDevice as Device>⟧.moment_of self.old) first (sectors_of bytes.now) result (⟦<MemoryDevice as Device>⟧.changes_of self.old) (⟦<MemoryDevice as Device>⟧.changes_of self.new) }
        ensures cause { FailsByCause (⟦<MemoryDevice as Device>⟧.fault_count self.old) (⟦<MemoryDevice as Device>⟧.fault_count self.new) (⟦<MemoryDevice as Device>⟧.moment_of self.new) result }
        ensures ended { last_moment ≤ ⟦<MemoryDevice as Device>⟧.moment_of self.old → DoesNothing (⟦<MemoryDevice as Device>⟧.gives self.old) (⟦<MemoryDevice as Device>⟧.gives self.new) (⟦<MemoryDevice as Device>⟧.fault_count self.old) (⟦<MemoryDevice as Device>⟧.fault_count self.new) result }
        ensures due { IsDue self.old.failing.items self.old.calls → IsErr result }
        ensures failing { self.new.failing.items ≡ self.old.failing.items }
        ensures calls { self.new.calls ≡ calls_after (⟦<MemoryDevice as Device>⟧.moment_of self.old) self.old.calls }
        ensures tearing { self.new.tearing ≡ self.old.tearing }
        ensures kept { IfSome (⟦<MemoryDevice as Device>⟧.gives self.old) (λ disk. KeepsWrite (⟦<MemoryDevice as Device>⟧.moment_of self.old) first (length bytes.now / 512) self.old.tearing disk result self.old.done.items self.new.done.items) }
    {
        if self.moment >= LAST_MOMENT {
            return Err(Failed);
        }
        let at = self.moment;
        let fails = self.begin(Call::Write);
        let taken = taken_of(fails, self.tearing, bytes.len());
        let done = self.lay(at, first, &bytes[..taken]);
        self.answer(fails, done)
    }

    /// Fails where a read does.
    fn sync(&mut self) -> Result<(), Failed>
        ensures gives { ⟦<MemoryDevice as Device>⟧.gives self.new ≡ ⟦<MemoryDevice as Device>⟧.gives self.old }
        ensures sectors { ⟦<MemoryDevice as Device>⟧.sector_count self.new ≡ ⟦<MemoryDevice as Device>⟧.sector_count self.old }
        ensures moment { ⟦<MemoryDevice as Device>⟧.moment_of self.new ≡ moment_after (⟦<MemoryDevice as Device>⟧.moment_of self.old) }
        ensures changes { Syncs (⟦<MemoryDevice as Device>⟧.moment_of self.old) result (⟦<MemoryDevice as Device>⟧.changes_of self.old) (⟦<MemoryDevice as Device>⟧.changes_of self.new) }
        ensures cause { FailsByCause (⟦<MemoryDevice as Device>⟧.fault_count self.old) (⟦<MemoryDevice as Device>⟧.fault_count self.new) (⟦<MemoryDevice as Device>⟧.moment_of self.new) result }
        ensures ended { last_moment ≤ ⟦<MemoryDevice as Device>⟧.moment_of self.old → DoesNothing (⟦<MemoryDevice as Device>⟧.gives self.old) (⟦<MemoryDevice as Device>⟧.gives self.new) (⟦<MemoryDevice as Device>⟧.fault_count self.old) (⟦<MemoryDevice as Device>⟧.fault_count self.new) result }
        ensures due { IsDue self.old.failing.items self.old.calls → IsErr result }
        ensures failing { self.new.failing.items ≡ self.old.failing.items }
        ensures calls { self.new.calls ≡ calls_after (⟦<MemoryDevice as Device>⟧.moment_of self.old) self.old.calls }
        ensures tearing { self.new.tearing ≡ self.old.tearing }
        ensures kept { KeepsSync (⟦<MemoryDevice as Device>⟧.moment_of self.old) result self.old.done.items self.new.done.items }
    {
        if self.moment >= LAST_MOMENT {
            return Err(Failed);
        }
        let at = self.moment;
        let fails = self.begin(Call::Sync);
        let done = if fails {
            self.keep(true)
        } else {
            self.settle(at)
        };
        self.answer(fails, done)
    }

    ghost whole = { λ d. IsDiskOf-sectors_of d.bytes.items };

    ghost seen = { λ d. seen_by (sectors_of d.bytes.items) (reverse d.done.items) };

    ghost values = { λ d. sized_by (sectors_of d.bytes.items) (reverse d.done.items) (IsDiskOf-sectors_of d.bytes.items).whole };

    ghost beyond = { λ d s. ends_by d.moment (length d.bytes.items / 512) s (sector_of (sectors_of d.bytes.items) s) (reverse d.done.items) d.kept };

    ghost over = { λ d. over_by d.moment (length d.bytes.items / 512) (sectors_of d.bytes.items) (reverse d.done.items) d.kept };

    ghost few = { λ d. Prim.omega (arith, d.few) };
}
