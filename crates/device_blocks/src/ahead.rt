//! A device of which a piece is held in memory.
ghost use Rattle.std.specs.Prelude.{◌≡◌, ◌⊎◌, ◌+◌, ◌*◌, ◌/◌, ◌%◌, ◌^◌, ◌<◌, ◌≤◌, ◌↔◌, ℕ, None, Some, length, OnOk, OnErr, IfOk, IfSome, IsTrue};
ghost use Rattle.std.specs.Option.{option_map, ForSome};
ghost use Rattle.disk_model.specs.Bytes.{part, written};
ghost use Rattle.disk_model.specs.Content.{content_of};
ghost use Rattle.disk_model.specs.Sectors.{sector_of, sectors, raw_from};
ghost use Rattle.host_base.specs.Causes.{FailsByCause, last_moment};
ghost use Rattle.log_area.specs.sector_device.Moments.{moment_after, DoesNothing, Writes, Syncs};
ghost use Rattle.log_area.specs.sector_device.Sectors.{sectors_of, IsTornBy};
ghost use Rattle.device_view.specs.Devices.{IsHeld, KeepsDevice};
ghost use Rattle.device_blocks.specs.Words.{IsToldOf, IsFitWord};
ghost use Rattle.device_blocks.specs.Pieces.{MeetsPiece};

use crate::undoing::word_in;
use crate::word::CheckWord;
use device_view::{PIECE_BYTES, ReadAhead};
use disk_model::{Block, BlockKind, Body};
use host_base::Failed;
use log_area::{Device, SECTOR_BYTES};

const PIECE_SECTORS: u64 = 128;

// Whether a write of so many bytes from this sector on meets a piece.
fn meets(piece: u64, first: u64, len: usize) -> bool
    requires { first + len / 512 < 2 ^ 63 }
    ensures { IsTrue result ↔ MeetsPiece piece first (len / 512) }
{
    let end = first + (len / SECTOR_BYTES) as u64;
    first / PIECE_SECTORS <= piece && piece < end.div_ceil(PIECE_SECTORS)
}

// Copies the bytes from this place on.
fn copy_part(room: &[u8], at: usize, out: &mut [u8])
    requires { at + length out.old ≤ length room.now }
    ensures { out.new ≡ part at (length out.old) room.now }
{
    let end = at + out.len();
    out.copy_from_slice(&room[at..end]);
}

/// A device of which the piece of 64 KiB is held that was read last, so that blocks that lie one
/// behind the other are read by a call for each piece. It is a device too: what it is and does is
/// what the device is and does, and a write that meets the piece empties it, so that no read shows
/// what stood there before.
#[derive(Drop)]
pub struct AheadDevice<D: Device> {
    device: D,
    // The bytes of the piece.
    room: Vec<u8>,
    // Which piece that is.
    ahead: ReadAhead,
    ghost sized: { length room.items ≡ 65536 },
    ghost filled: { IsHeld ahead.piece room.items (D.gives device) },
}

impl<D: Device> AheadDevice<D> {
    /// The device, with room for a piece ([`device_view::piece_room`]). Nothing is held.
    pub fn new(device: D, room: Vec<u8>) -> Self
        requires { length room.items ≡ PIECE_BYTES }
        ensures device { result.device ≡ device }
    {
        AheadDevice {
            device,
            room,
            ahead: ReadAhead::empty(),
        }
    }

    /// The device.
    pub fn device(&self) -> &D
        ensures { result.now ≡ self.now.device }
    {
        &self.device
    }

    /// The device alone, as it stands.
    pub fn into_device(self) -> D
        ensures { result ≡ self.device }
    {
        let AheadDevice { device, .. } = self;
        device
    }

    // Whether all sectors of a block stand in the piece.
    fn holds(&self, block: Block) -> bool
        ensures piece { IsTrue result → self.now.ahead.piece ≡ Some (block.first / 128) }
        ensures within { IsTrue result → block.first % 128 + sectors block.kind ≤ 128 }
    {
        let at = block.first % PIECE_SECTORS;
        at + block.kind.sectors() as u64 <= PIECE_SECTORS
            && self.ahead.piece == Some(block.first / PIECE_SECTORS)
    }

    // The check word of a block where all its sectors stand in the piece, through a buffer.
    fn word_through(&self, block: Block, raw: &mut [u8]) -> CheckWord
        requires { length raw.old ≡ 512 * sectors block.kind }
        ensures word { IfSome (D.gives self.now.device) (IsToldOf result block) }
        ensures fit { IsFitWord result }
    {
        if self.holds(block) {
            let at = SECTOR_BYTES * (block.first % PIECE_SECTORS) as usize;
            copy_part(&self.room, at, raw);
            word_in(block.kind, raw)
        } else {
            CheckWord::Unread
        }
    }

    // The check word of a block where the piece says it.
    fn held_word(&self, block: Block) -> CheckWord
        ensures word { IfSome (D.gives self.now.device) (IsToldOf result block) }
        ensures fit { IsFitWord result }
    {
        match block.kind {
            BlockKind::Plain => CheckWord::Missing,
            BlockKind::FileRec => self.word_through(block, &mut [0; 1024]),
            BlockKind::Index => self.word_through(block, &mut [0; 4096]),
        }
    }

    /// Reads the body of a block, as [`ReadAhead::body`] does: out of the piece that is held, or by
    /// one call of the device, which reads the whole piece where blocks are walked over, else the
    /// block alone. A sector at or past the device's end counts as zeros, and the device isn't asked
    /// for it. It answers the check word that stands there too, where the block lies in the piece
    /// that is held then. It takes no memory; linear in the sectors read.
    ///
    /// The error is a failure of the device; the body may be any then.
    pub fn body(&mut self, block: Block, out: &mut Body) -> Result<CheckWord, Failed>
        ensures body { OnOk result (IfSome (D.gives self.old.device) (λ disk. out.new ≡ content_of (sector_of disk) block)) }
        ensures size { OnOk result (length out.new.bytes ≡ 512 * sectors block.kind) }
        ensures word { IfOk result (λ word. IfSome (D.gives self.old.device) (IsToldOf word block)) }
        ensures fit { IfOk result IsFitWord }
        ensures not_asked { D.sector_count self.old.device ≤ block.first → D.moment_of self.new.device ≡ D.moment_of self.old.device }
        ensures kept { KeepsDevice D.gives D.sector_count D.changes_of D.fault_count D.moment_of self.old.device self.new.device }
        ensures one_call { D.moment_of self.new.device ≤ D.moment_of self.old.device + 2 }
        ensures cause { FailsByCause (D.fault_count self.old.device) (D.fault_count self.new.device) (D.moment_of self.new.device) result }
    {
        self.ahead
            .body(&mut self.room, &mut self.device, block, out)?;
        Ok(self.held_word(block))
    }

    // Empties the piece where a write of so many bytes from this sector on meets it.
    fn empty(&mut self, first: u64, len: usize)
        requires { first + len / 512 < 2 ^ 63 }
        ensures device { self.new.device ≡ self.old.device }
        ensures apart { ForSome self.new.ahead.piece (λ p. MeetsPiece p first (len / 512) → ⊥) }
    {
        if let Some(piece) = self.ahead.piece
            && meets(piece, first, len)
        {
            self.ahead = ReadAhead::empty();
        }
    }
}

impl<D: Device> Device for AheadDevice<D> {
    ghost gives = { λ d. D.gives d.device };

    ghost sector_count = { λ d. D.sector_count d.device };

    ghost moment_of = { λ d. D.moment_of d.device };

    ghost fault_count = { λ d. D.fault_count d.device };

    ghost changes_of = { λ d. D.changes_of d.device };

    fn sectors(&self) -> u64 {
        self.device.sectors()
    }

    fn moment(&self) -> u64 {
        self.device.moment()
    }

    fn faults(&self) -> u64 {
        self.device.faults()
    }

    /// One call of the device, whatever is held.
    fn read(&mut self, first: u64, out: &mut [u8]) -> Result<(), Failed> {
        self.device.read(first, out)
    }

    fn write(&mut self, first: u64, bytes: &[u8]) -> Result<(), Failed> {
        self.empty(first, bytes.len());
        self.device.write(first, bytes)
    }

    fn sync(&mut self) -> Result<(), Failed> {
        self.device.sync()
    }

    ghost whole = { λ d. D.whole d.device };

    ghost seen = { λ d. D.seen d.device };

    ghost values = { λ d. D.values d.device };

    ghost beyond = { λ d. D.beyond d.device };

    ghost over = { λ d. D.over d.device };

    ghost few = { λ d. D.few d.device };
}
