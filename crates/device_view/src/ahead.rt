ghost use Rattle.std.specs.Prelude.{◌≡◌, ◌+◌, ◌*◌, ◌/◌, ◌%◌, ◌^◌, ◌≤◌, None, Some, length, OnOk, OnErr, IfSome};
ghost use Rattle.std.specs.Option.{option_map};
ghost use Rattle.disk_model.specs.Bytes.{part, written};
ghost use Rattle.disk_model.specs.Content.{content_of};
ghost use Rattle.disk_model.specs.Sectors.{sector_of, sectors, raw_from};
ghost use Rattle.disk_model.specs.host_base.Causes.{FailsByCause, last_moment};
ghost use Rattle.sector_device.specs.Moments.{moment_after, DoesNothing, Writes};
ghost use Rattle.sector_device.specs.Sectors.{sectors_of, IsTornBy};
ghost use Rattle.device_view.specs.Devices.{KeepsDevice, IsHeld};

use crate::reading::read_sectors;
use crate::room::PIECE_BYTES;
use crate::undoing::set_body;
use disk_model::{Block, BlockKind, Body, Failed};
use sector_device::{Device, SECTOR_BYTES};

const PIECE_SECTORS: u64 = 128;

// How many sectors a walk may pass over: fewer than these.
const STEP_SECTORS: u64 = 8;

/// Which piece of 128 sectors of a device is held, the one that was read last, and where a walk over
/// blocks would go on. It has neither the device nor the room for the piece: each call is given
/// both, and has what is held as a condition. So a device's owner keeps it beside the device, and
/// empties it where it writes.
#[derive(Clone, Copy, Drop)]
pub struct ReadAhead {
    /// The number of the piece, none where nothing is held.
    pub piece: Option<u64>,
    // The sector behind the block that was read last, none where none was.
    next: Option<u64>,
}

// Copies the bytes from this place on.
fn copy_part(room: &[u8], at: usize, out: &mut [u8])
    requires { at + length out.old ≤ length room.now }
    ensures { out.new ≡ part at (length out.old) room.now }
{
    let end = at + out.len();
    out.copy_from_slice(&room[at..end]);
}

impl ReadAhead {
    /// Nothing is held.
    pub fn empty() -> Self
        ensures empty { result.piece ≡ None }
    {
        ReadAhead {
            piece: None,
            next: None,
        }
    }

    // Says whether a block that begins there goes on a walk, where blocks rise and fewer than 8
    // sectors are passed over, and notes where the walk would go on behind it.
    fn goes_on(&mut self, first: u64, count: usize) -> bool
        ensures { self.new.piece ≡ self.old.piece }
    {
        let next = self.next;
        self.next = first.checked_add(count as u64);
        match next {
            Some(next) => first >= next && first - next < STEP_SECTORS,
            None => false,
        }
    }

    // Reads the piece, unless it stands in the room.
    fn load<D: Device>(&mut self, room: &mut [u8], device: &mut D, piece: u64) -> Result<(), Failed>
        requires sized { length room.old ≡ PIECE_BYTES }
        requires place { 128 * piece + 128 ≤ 2 ^ 64 }
        requires held { IsHeld self.old.piece room.old (D.gives device.old) }
        ensures loaded { OnOk result (self.new.piece ≡ Some piece) }
        ensures held { IsHeld self.new.piece room.new (D.gives device.new) }
        ensures kept { KeepsDevice D.gives D.sector_count D.changes_of D.fault_count D.moment_of device.old device.new }
        ensures one_call { D.moment_of device.new ≤ D.moment_of device.old + 2 }
        ensures cause { FailsByCause (D.fault_count device.old) (D.fault_count device.new) (D.moment_of device.new) result }
    {
        if self.piece == Some(piece) {
            return Ok(());
        }
        self.piece = None;
        read_sectors(device, PIECE_SECTORS * piece, room)?;
        self.piece = Some(piece);
        Ok(())
    }

    // Fills the buffer from the sector with the number `first` on, with zeros past the end: out of
    // the piece where they begin, if it is held or a walk goes on there, or by a call of their own.
    fn fill<D: Device>(
        &mut self,
        room: &mut [u8],
        device: &mut D,
        first: u64,
        raw: &mut [u8],
    ) -> Result<(), Failed>
        requires sized { length room.old ≡ PIECE_BYTES }
        requires whole { length raw.old % 512 ≡ 0 }
        requires held { IsHeld self.old.piece room.old (D.gives device.old) }
        ensures bytes { OnOk result (IfSome (D.gives device.old) (λ disk. raw.new ≡ raw_from (sector_of disk) first (length raw.old / 512))) }
        ensures not_asked { D.sector_count device.old ≤ first → D.moment_of device.new ≡ D.moment_of device.old }
        ensures held { IsHeld self.new.piece room.new (D.gives device.new) }
        ensures kept { KeepsDevice D.gives D.sector_count D.changes_of D.fault_count D.moment_of device.old device.new }
        ensures one_call { D.moment_of device.new ≤ D.moment_of device.old + 2 }
        ensures cause { FailsByCause (D.fault_count device.old) (D.fault_count device.new) (D.moment_of device.new) result }
    {
        let at = (first % PIECE_SECTORS) as usize;
        let count = raw.len() / SECTOR_BYTES;
        let piece = first / PIECE_SECTORS;
        let ahead = self.goes_on(first, count) || self.piece == Some(piece);
        if first >= device.sectors() || PIECE_SECTORS as usize - at < count || !ahead {
            return read_sectors(device, first, raw);
        }
        self.load(room, device, piece)?;
        copy_part(room, SECTOR_BYTES * at, raw);
        Ok(())
    }

    // Reads the body of a block through a buffer of its size.
    fn read_through<D: Device>(
        &mut self,
        room: &mut [u8],
        device: &mut D,
        block: Block,
        raw: &mut [u8],
        out: &mut Body,
    ) -> Result<(), Failed>
        requires sized { length room.old ≡ PIECE_BYTES }
        requires size { length raw.old ≡ 512 * sectors block.kind }
        requires held { IsHeld self.old.piece room.old (D.gives device.old) }
        ensures body { OnOk result (IfSome (D.gives device.old) (λ disk. out.new ≡ content_of (sector_of disk) block)) }
        ensures size { OnOk result (length out.new.bytes ≡ 512 * sectors block.kind) }
        ensures not_asked { D.sector_count device.old ≤ block.first → D.moment_of device.new ≡ D.moment_of device.old }
        ensures held { IsHeld self.new.piece room.new (D.gives device.new) }
        ensures kept { KeepsDevice D.gives D.sector_count D.changes_of D.fault_count D.moment_of device.old device.new }
        ensures one_call { D.moment_of device.new ≤ D.moment_of device.old + 2 }
        ensures cause { FailsByCause (D.fault_count device.old) (D.fault_count device.new) (D.moment_of device.new) result }
    {
        self.fill(room, device, block.first, raw)?;
        set_body(block.kind, raw, out);
        Ok(())
    }

    /// Reads the body of a block: out of the piece that is held, or by one call of the device. That
    /// call reads the whole piece where the block lies in one piece and goes on a walk, which is
    /// where it begins behind the block that was read last, or fewer than 8 sectors further on; else
    /// it reads the block alone. A sector at or past the device's end counts as zeros, and the
    /// device isn't asked for it. Linear in the sectors read.
    ///
    /// The error is a failure of the device; the body may be any then.
    pub fn body<D: Device>(
        &mut self,
        room: &mut [u8],
        device: &mut D,
        block: Block,
        out: &mut Body,
    ) -> Result<(), Failed>
        requires sized { length room.old ≡ PIECE_BYTES }
        requires held { IsHeld self.old.piece room.old (D.gives device.old) }
        ensures body { OnOk result (IfSome (D.gives device.old) (λ disk. out.new ≡ content_of (sector_of disk) block)) }
        ensures size { OnOk result (length out.new.bytes ≡ 512 * sectors block.kind) }
        ensures not_asked { D.sector_count device.old ≤ block.first → D.moment_of device.new ≡ D.moment_of device.old }
        ensures held { IsHeld self.new.piece room.new (D.gives device.new) }
        ensures kept { KeepsDevice D.gives D.sector_count D.changes_of D.fault_count D.moment_of device.old device.new }
        ensures one_call { D.moment_of device.new ≤ D.moment_of device.old + 2 }
        ensures cause { FailsByCause (D.fault_count device.old) (D.fault_count device.new) (D.moment_of device.new) result }
    {
        match block.kind {
            BlockKind::Plain => self.read_through(room, device, block, &mut [0; 512], out),
            BlockKind::FileRec => self.read_through(room, device, block, &mut [0; 1024], out),
            BlockKind::Index => self.read_through(room, device, block, &mut [0; 4096], out),
        }
    }

    /// Writes the bytes, a whole number of sectors, from the sector with the number `first` on, as
    /// the device does. Nothing is held then, so that no read shows what stood there before.
    pub fn write<D: Device>(
        &mut self,
        device: &mut D,
        first: u64,
        bytes: &[u8],
    ) -> Result<(), Failed>
        requires whole { length bytes.now % 512 ≡ 0 }
        requires within { 512 * first + length bytes.now ≤ 512 * D.sector_count device.old }
        ensures empty { self.new.piece ≡ None }
        ensures written { OnOk result (D.gives device.new ≡ option_map (written first (sectors_of bytes.now)) (D.gives device.old)) }
        ensures torn { OnErr result (IsTornBy first (sectors_of bytes.now) (D.gives device.old) (D.gives device.new)) }
        ensures sectors { D.sector_count device.new ≡ D.sector_count device.old }
        ensures moment { D.moment_of device.new ≡ moment_after (D.moment_of device.old) }
        ensures changes { Writes (D.moment_of device.old) first (sectors_of bytes.now) result (D.changes_of device.old) (D.changes_of device.new) }
        ensures cause { FailsByCause (D.fault_count device.old) (D.fault_count device.new) (D.moment_of device.new) result }
        ensures ended { last_moment ≤ D.moment_of device.old → DoesNothing (D.gives device.old) (D.gives device.new) (D.fault_count device.old) (D.fault_count device.new) result }
    {
        *self = ReadAhead::empty();
        device.write(first, bytes)
    }
}
