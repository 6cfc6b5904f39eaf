//! The bits of sectors, as runs of one value.
ghost use Rattle.std.specs.Prelude.{◌≡◌, ℕ, ◌+◌, ◌*◌, ◌/◌, ◌^◌, ◌<◌, ◌≤◌, Bool, [], ◌∷◌, ◌++◌, length, IfOk, IfSome, OnOk};
ghost use Rattle.bit_set.specs.Words.{byte_bit};
ghost use Rattle.volume_map.specs.state_model.Streams.{stream_bytes};
ghost use Rattle.volume_map.specs.block_view.Views.{AsksView};
ghost use Rattle.volume_map.specs.Errors.{map_cause, NeverRefused};
ghost use Rattle.map_change.specs.Marking.{TellsMore, TellsSector};
ghost use Rattle.map_change.specs.Reading.{TellBits};

use crate::change::BitRun;
use disk_model::Body;
use std::alloc::{AllocError, Global};
use volume_map::{ClusterSize, MapFault, Stream, View, front};

// The bits of a sector.
const SECTOR_BITS: u64 = 4096;

// The bit at this place.
fn is_set(bytes: &[u8], at: u64) -> bool
    requires { at < 8 * length bytes.now }
    ensures { result ≡ byte_bit bytes.now at }
{
    bytes[(at / 8) as usize] >> (at % 8) & 1 == 1
}

// Up to which place below the end the bits are as the one at this place.
fn same_until(bytes: &[u8], at: u64, end: u64) -> u64
    requires some { at < end }
    requires inside { end ≤ 8 * length bytes.now }
    ensures some { at < result }
    ensures most { result ≤ end }
    ensures same { (i : ℕ) → at ≤ i → i < result → byte_bit bytes.now i ≡ byte_bit bytes.now at }
{
    let value = is_set(bytes, at);
    let mut to = at + 1;
    while to < end && is_set(bytes, to) == value {
        to += 1;
    }
    to
}

fn push(runs: &mut Vec<BitRun>, run: BitRun) -> Result<(), AllocError>
    ensures { OnOk result (runs.new.items ≡ runs.old.items ++ run ∷ []) }
{
    runs.push(run)?;
    Ok(())
}

// Appends runs of the first so many bits of some bytes, of which the first one is this bit of the
// bitmap.
fn push_bits(bytes: &[u8], first: u64, count: u64, runs: &mut Vec<BitRun>) -> Result<(), AllocError>
    requires inside { count ≤ 8 * length bytes.now }
    requires fits { first + count < 2 ^ 64 }
    ensures { OnOk result ((bits : ℕ → Bool) → ((i : ℕ) → i < count → bits (first + i) ≡ byte_bit bytes.now i)
        → TellsMore bits first (first + count) runs.old.items runs.new.items) }
{
    let mut at = 0;
    while at < count {
        let end = same_until(bytes, at, count);
        let run = BitRun {
            first: first + at,
            len: end - at,
            value: is_set(bytes, at),
        };
        push(runs, run)?;
        at = end;
    }
    Ok(())
}

// Appends runs of those of the first so many bits of a stream that lie in this sector. `room` is
// room for its bytes.
fn push_sector<V: View>(
    view: &mut V,
    per: ClusterSize,
    stream: &Stream,
    count: u64,
    sector: u64,
    body: &mut Body,
    room: &mut [u8],
    runs: &mut Vec<BitRun>,
) -> Result<(), MapFault>
    requires room { length room.old ≡ 512 }
    ensures room { length room.new ≡ 512 }
    ensures value { IfSome (V.content view.old) (λ d. OnOk result (TellsSector (byte_bit (stream_bytes d per stream.now)) count sector runs.old.items runs.new.items)) }
    ensures kept { AsksView V.content V.kept V.faults map_cause view.old view.new result }
    ensures certain { NeverRefused result }
{
    if sector >= count.div_ceil(SECTOR_BITS) {
        return Ok(());
    }
    let first = SECTOR_BITS * sector;
    front(view, per, stream, 512 * sector, body, room)?;
    push_bits(room, first, SECTOR_BITS.min(count - first), runs)?;
    Ok(())
}

// The same of several sectors.
fn push_sectors<V: View>(
    view: &mut V,
    per: ClusterSize,
    stream: &Stream,
    count: u64,
    sectors: &[u64],
    body: &mut Body,
    room: &mut [u8],
    runs: &mut Vec<BitRun>,
) -> Result<(), MapFault>
    requires room { length room.old ≡ 512 }
    requires none { runs.old.items ≡ [] }
    ensures value { IfSome (V.content view.old) (λ d. OnOk result (TellBits (byte_bit (stream_bytes d per stream.now)) count sectors.now runs.new.items)) }
    ensures kept { AsksView V.content V.kept V.faults map_cause view.old view.new result }
    ensures certain { NeverRefused result }
{
    for sector in sectors {
        push_sector(view, per, stream, count, *sector, body, room, runs)?;
    }
    Ok(())
}

/// Runs that tell those of the first so many bits of a stream that lie in these sectors. `body` is
/// room for a body. It reads each of the sectors once, and takes time linear in them.
pub fn sector_runs<V: View>(
    alloc: Global,
    view: &mut V,
    per: ClusterSize,
    stream: &Stream,
    count: u64,
    sectors: &[u64],
    body: &mut Body,
) -> Result<Vec<BitRun>, MapFault>
    ensures value { IfSome (V.content view.old) (λ d. IfOk result (λ runs. TellBits (byte_bit (stream_bytes d per stream.now)) count sectors.now runs.items)) }
    ensures kept { AsksView V.content V.kept V.faults map_cause view.old view.new result }
    ensures certain { NeverRefused result }
{
    let mut room = vec![in alloc; 0u8; 512]?;
    let mut runs = Vec::new(alloc);
    match push_sectors(
        view, per, stream, count, sectors, body, &mut room, &mut runs,
    ) {
        Ok(()) => Ok(runs),
        Err(fault) => Err(fault),
    }
}
