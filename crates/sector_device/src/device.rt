ghost use Rattle.std.specs.Prelude.{◌≡◌, ◌+◌, ◌*◌, ◌/◌, ◌%◌, ◌^◌, ◌<◌, ◌≤◌, ℕ, List, Option, length, OnOk, OnErr, IfSome};
ghost use Rattle.std.specs.Option.{option_map};
ghost use Rattle.disk_model.specs.Bytes.{written};
ghost use Rattle.disk_model.specs.Sectors.{sector_of, raw_from};
ghost use Rattle.disk_model.specs.host_base.Causes.{FailsByCause, last_moment};
ghost use Rattle.sector_device.specs.Disks.{SeesDisk, IsSized, EndsAt, AreOver};
ghost use Rattle.sector_device.specs.Moments.{moment_after, DoesNothing, Changes, Writes, Syncs};
ghost use Rattle.sector_device.specs.Sectors.{sectors_of, IsDiskOf, IsTornBy};

use disk_model::Failed;

/// The bytes of a sector.
pub const SECTOR_BYTES: usize = 512;

/// From this moment on a device answers `Failed` and does nothing else.
pub const LAST_MOMENT: u64 = 1 << 62;

// The calls that a device counts.
#[derive(Clone, Copy)]
pub(crate) enum Call {
    Read,
    Write,
    Sync,
}

/// A list of 512-byte sectors.
///
/// Each read, write and sync begins a moment, and its return begins another. From `LAST_MOMENT`
/// on each of the three answers `Failed`, does nothing else and begins no moment. A call that
/// returns before it answers `Failed` only where the count of faults rose in this call, or stood
/// at its end; the one call that returns at `LAST_MOMENT` may fail without that.
pub trait Device {
    /// The sectors that reads give, where they are known.
    ghost gives: { Self → Option (List (List ℕ)) };

    /// Stays for the device's life.
    ghost sector_count: { Self → ℕ };

    /// The calls begun and the calls returned.
    ghost moment_of: { Self → ℕ };

    /// Never falls.
    ghost fault_count: { Self → ℕ };

    /// The writes and the syncs begun; and of each sector, where the device is known, the durable
    /// value and those written since the last sync that succeeded, now and at earlier moments: what
    /// a crash may leave. While this stays, nothing was written or synced, and a crash leaves what
    /// it might have left before.
    ///
    /// A crash inside a call leaves nothing else. While a write runs the values written only grow,
    /// so each image that it may leave on the way may be left at its end or was before it; while a
    /// sync runs, the images are those of before. A disk of before counts until the moment inside
    /// the call that changed it, so that what is left since the call's return leaves it out.
    ghost changes_of: { Self → Changes };

    /// The number of sectors; the offset of each of their bytes fits a `u64`.
    fn sectors(&self) -> u64
        ensures { result ≡ sector_count self.now };

    /// The calls of `read`, `write` and `sync` begun, and those returned.
    fn moment(&self) -> u64
        ensures { result ≡ moment_of self.now };

    /// The failures so far. The count stops at `u64::MAX`.
    fn faults(&self) -> u64
        ensures { result ≡ fault_count self.now };

    /// Fills the buffer, a whole number of sectors, from the sector with the number `first` on.
    /// After `Failed` any bytes may stand in it, and those of before where the call was begun from
    /// `LAST_MOMENT` on.
    fn read(&mut self, first: u64, out: &mut [u8]) -> Result<(), Failed>
        requires whole { length out.old % 512 ≡ 0 }
        requires within { 512 * first + length out.old ≤ 512 * sector_count self.old }
        ensures bytes { OnOk result (IfSome (gives self.old) (λ disk. out.new ≡ raw_from (sector_of disk) first (length out.old / 512))) }
        ensures gives { gives self.new ≡ gives self.old }
        ensures sectors { sector_count self.new ≡ sector_count self.old }
        ensures moment { moment_of self.new ≡ moment_after (moment_of self.old) }
        ensures changes { changes_of self.new ≡ changes_of self.old }
        ensures cause { FailsByCause (fault_count self.old) (fault_count self.new) (moment_of self.new) result }
        ensures ended { last_moment ≤ moment_of self.old → DoesNothing (gives self.old) (gives self.new) (fault_count self.old) (fault_count self.new) result }
        ensures untouched { last_moment ≤ moment_of self.old → out.new ≡ out.old };

    /// Writes the bytes, a whole number of sectors, from the sector with the number `first` on.
    /// After `Failed` each of those sectors, by itself, has its old bytes or the new ones.
    fn write(&mut self, first: u64, bytes: &[u8]) -> Result<(), Failed>
        requires whole { length bytes.now % 512 ≡ 0 }
        requires within { 512 * first + length bytes.now ≤ 512 * sector_count self.old }
        ensures written { OnOk result (gives self.new ≡ option_map (written first (sectors_of bytes.now)) (gives self.old)) }
        ensures torn { OnErr result (IsTornBy first (sectors_of bytes.now) (gives self.old) (gives self.new)) }
        ensures sectors { sector_count self.new ≡ sector_count self.old }
        ensures moment { moment_of self.new ≡ moment_after (moment_of self.old) }
        ensures changes { Writes (moment_of self.old) first (sectors_of bytes.now) result (changes_of self.old) (changes_of self.new) }
        ensures cause { FailsByCause (fault_count self.old) (fault_count self.new) (moment_of self.new) result }
        ensures ended { last_moment ≤ moment_of self.old → DoesNothing (gives self.old) (gives self.new) (fault_count self.old) (fault_count self.new) result };

    /// Makes durable what was written. After `Failed` nothing more is durable.
    fn sync(&mut self) -> Result<(), Failed>
        ensures gives { gives self.new ≡ gives self.old }
        ensures sectors { sector_count self.new ≡ sector_count self.old }
        ensures moment { moment_of self.new ≡ moment_after (moment_of self.old) }
        ensures changes { Syncs (moment_of self.old) result (changes_of self.old) (changes_of self.new) }
        ensures cause { FailsByCause (fault_count self.old) (fault_count self.new) (moment_of self.new) result }
        ensures ended { last_moment ≤ moment_of self.old → DoesNothing (gives self.old) (gives self.new) (fault_count self.old) (fault_count self.new) result };

    /// Law: what reads give is `sector_count` sectors of 512 bytes each.
    ghost whole: { (d : Self) → IfSome (gives d) (IsDiskOf (sector_count d)) };

    /// Law: what reads give is the newest of what was written, or else what is durable.
    ghost seen: { (d : Self) → SeesDisk (gives d) (changes_of d).disk };

    /// Law: each value has 512 bytes.
    ghost values: { (d : Self) → IfSome (changes_of d).disk IsSized };

    /// Law: no sector past the end is ever written.
    ghost beyond: { (d : Self) → IfSome (changes_of d).disk (EndsAt (sector_count d)) };

    /// Law: what was before is over.
    ghost over: { (d : Self) → AreOver (moment_of d) (changes_of d).past };

    /// Law: the offset of each byte fits a `u64`.
    ghost few: { (d : Self) → sector_count d < 2 ^ 55 };
}
