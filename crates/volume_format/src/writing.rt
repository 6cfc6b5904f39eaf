ghost use Rattle.std.specs.Prelude.{◌≡◌, ℕ, ◌+◌, ◌*◌, ◌/◌, ◌%◌, ◌≤◌, [], ◌∷◌, OnOk, OnErr, length};
ghost use Rattle.std.specs.Option.{option_map};
ghost use Rattle.host_base.specs.Causes.{FailsByCause};
ghost use Rattle.disk_model.specs.Bytes.{written};
ghost use Rattle.sector_device.specs.Moments.{Begins};
ghost use Rattle.sector_device.specs.Sectors.{sectors_of, IsTornBy};
ghost use Rattle.volume_format.specs.Layouts.{IsLayout, upper_case_first, log_first, cluster_bits_first, block_first, used_clusters, piece_calls, device_calls, device_writes, table_first, mirror_first, record_bits_first};
ghost use Rattle.volume_format.specs.Images.{Puts, upper_case_bytes, log_bytes, cluster_bits};
ghost use Rattle.volume_format.specs.Stopping.{PutsFront, PutsTorn, KeepsOthers};
ghost use Rattle.volume_format.specs.Crashing.{IsSettledNow, StaysFrom};
ghost use Rattle.volume_format.specs.Fillings.{filling_bytes, IsInside};
ghost use Rattle.volume_format.specs.Parts.{HaveSizes, regions_of};

use crate::filling::Filling;
use crate::layout::Layout;
use crate::parts::Parts;
use host_base::Failed;
use sector_device::Device;

/// The bytes that are written at once: 64 KiB.
pub const PIECE_BYTES: u64 = 65_536;

// Writes bytes from the front of a cluster on.
fn put<D: Device>(device: &mut D, cluster: u64, bytes: &[u8]) -> Result<(), Failed>
    requires whole { length bytes.now % 512 ≡ 0 }
    requires within { 4096 * cluster + length bytes.now ≤ 512 * D.sector_count device.old }
    ensures image { OnOk result (Puts (record { cluster = cluster; bytes = bytes.now } ∷ []) (D.gives device.old) (D.gives device.new)) }
    ensures torn { OnErr result (PutsTorn (record { cluster = cluster; bytes = bytes.now }) (D.gives device.old) (D.gives device.new)) }
    ensures moment { OnOk result (D.moment_of device.new ≡ D.moment_of device.old + 2) }
    ensures changes { OnOk result (Begins 1 0 (D.changes_of device.old) (D.changes_of device.new)) }
    ensures above { StaysFrom (8 * cluster + length bytes.now / 512) (D.moment_of device.old) (D.changes_of device.old) (D.changes_of device.new) }
    ensures sectors { D.sector_count device.new ≡ D.sector_count device.old }
    ensures cause { FailsByCause (D.fault_count device.old) (D.fault_count device.new) (D.moment_of device.new) result }
{
    device.write(8 * cluster, bytes)
}

// Fills a piece of a region from its byte `at` on, and writes it.
fn put_piece<D: Device>(
    device: &mut D,
    filling: Filling,
    cluster: u64,
    at: u64,
    piece: &mut [u8],
) -> Result<(), Failed>
    requires inside { IsInside filling at (length piece.old) }
    requires place { at % 512 ≡ 0 }
    requires whole { length piece.old % 512 ≡ 0 }
    requires within { 4096 * cluster + at + length piece.old ≤ 512 * D.sector_count device.old }
    ensures image { OnOk result (D.gives device.new ≡ option_map (written (8 * cluster + at / 512) (sectors_of (filling_bytes filling at (length piece.old)))) (D.gives device.old)) }
    ensures torn { OnErr result (IsTornBy (8 * cluster + at / 512) (sectors_of (filling_bytes filling at (length piece.old))) (D.gives device.old) (D.gives device.new)) }
    ensures moment { OnOk result (D.moment_of device.new ≡ D.moment_of device.old + 2) }
    ensures changes { OnOk result (Begins 1 0 (D.changes_of device.old) (D.changes_of device.new)) }
    ensures above { StaysFrom (8 * cluster + at / 512 + length piece.old / 512) (D.moment_of device.old) (D.changes_of device.old) (D.changes_of device.new) }
    ensures sectors { D.sector_count device.new ≡ D.sector_count device.old }
    ensures cause { FailsByCause (D.fault_count device.old) (D.fault_count device.new) (D.moment_of device.new) result }
{
    filling.fill(at, piece);
    device.write(8 * cluster + at / 512, piece)
}

// Writes the front of a region, so many pieces that fill the room.
fn put_pieces<D: Device>(
    device: &mut D,
    filling: Filling,
    cluster: u64,
    count: u64,
    room: &mut [u8],
) -> Result<(), Failed>
    requires inside { IsInside filling 0 (65536 * count) }
    requires within { 4096 * cluster + 65536 * count ≤ 512 * D.sector_count device.old }
    requires room { length room.old ≡ 65536 }
    ensures image { OnOk result (Puts (record { cluster = cluster; bytes = filling_bytes filling 0 (65536 * count) } ∷ []) (D.gives device.old) (D.gives device.new)) }
    ensures torn { OnErr result (PutsTorn (record { cluster = cluster; bytes = filling_bytes filling 0 (65536 * count) }) (D.gives device.old) (D.gives device.new)) }
    ensures moment { OnOk result (D.moment_of device.new ≡ D.moment_of device.old + 2 * count) }
    ensures changes { OnOk result (Begins count 0 (D.changes_of device.old) (D.changes_of device.new)) }
    ensures above { StaysFrom (8 * cluster + 128 * count) (D.moment_of device.old) (D.changes_of device.old) (D.changes_of device.new) }
    ensures sectors { D.sector_count device.new ≡ D.sector_count device.old }
    ensures cause { FailsByCause (D.fault_count device.old) (D.fault_count device.new) (D.moment_of device.new) result }
{
    for piece in 0..count {
        put_piece(device, filling, cluster, PIECE_BYTES * piece, room)?;
    }
    Ok(())
}

// Writes a region in pieces that fill the room, the last of which may be shorter.
fn put_filled<D: Device>(
    device: &mut D,
    filling: Filling,
    cluster: u64,
    bytes: u64,
    room: &mut [u8],
) -> Result<(), Failed>
    requires inside { IsInside filling 0 bytes }
    requires whole { bytes % 512 ≡ 0 }
    requires within { 4096 * cluster + bytes ≤ 512 * D.sector_count device.old }
    requires room { length room.old ≡ 65536 }
    ensures image { OnOk result (Puts (record { cluster = cluster; bytes = filling_bytes filling 0 bytes } ∷ []) (D.gives device.old) (D.gives device.new)) }
    ensures torn { OnErr result (PutsTorn (record { cluster = cluster; bytes = filling_bytes filling 0 bytes }) (D.gives device.old) (D.gives device.new)) }
    ensures moment { OnOk result (D.moment_of device.new ≡ D.moment_of device.old + 2 * ((bytes + 65535) / 65536)) }
    ensures changes { OnOk result (Begins ((bytes + 65535) / 65536) 0 (D.changes_of device.old) (D.changes_of device.new)) }
    ensures above { StaysFrom (8 * cluster + bytes / 512) (D.moment_of device.old) (D.changes_of device.old) (D.changes_of device.new) }
    ensures sectors { D.sector_count device.new ≡ D.sector_count device.old }
    ensures cause { FailsByCause (D.fault_count device.old) (D.fault_count device.new) (D.moment_of device.new) result }
{
    let count = bytes / PIECE_BYTES;
    put_pieces(device, filling, cluster, count, room)?;
    let at = PIECE_BYTES * count;
    if at == bytes {
        return Ok(());
    }
    put_piece(
        device,
        filling,
        cluster,
        at,
        room.split_at_mut((bytes - at) as usize).0,
    )
}

// Writes the table of upper-case units.
fn put_upper_case<D: Device>(device: &mut D, room: &mut [u8]) -> Result<(), Failed>
    requires within { 512 ≤ D.sector_count device.old }
    requires room { length room.old ≡ 65536 }
    ensures image { OnOk result (Puts (record { cluster = upper_case_first; bytes = upper_case_bytes } ∷ []) (D.gives device.old) (D.gives device.new)) }
    ensures torn { OnErr result (PutsTorn (record { cluster = upper_case_first; bytes = upper_case_bytes }) (D.gives device.old) (D.gives device.new)) }
    ensures moment { OnOk result (D.moment_of device.new ≡ D.moment_of device.old + 2 * piece_calls 32) }
    ensures changes { OnOk result (Begins (piece_calls 32) 0 (D.changes_of device.old) (D.changes_of device.new)) }
    ensures above { StaysFrom (8 * log_first) (D.moment_of device.old) (D.changes_of device.old) (D.changes_of device.new) }
    ensures sectors { D.sector_count device.new ≡ D.sector_count device.old }
    ensures cause { FailsByCause (D.fault_count device.old) (D.fault_count device.new) (D.moment_of device.new) result }
{
    put_filled(device, Filling::UpperCase, 20, 131_072, room)
}

// Writes the log.
fn put_log<D: Device>(device: &mut D, v: Layout, room: &mut [u8]) -> Result<(), Failed>
    requires layout { IsLayout v }
    requires within { 8 * v.clusters ≤ D.sector_count device.old }
    requires room { length room.old ≡ 65536 }
    ensures image { OnOk result (Puts (record { cluster = log_first; bytes = log_bytes v } ∷ []) (D.gives device.old) (D.gives device.new)) }
    ensures torn { OnErr result (PutsTorn (record { cluster = log_first; bytes = log_bytes v }) (D.gives device.old) (D.gives device.new)) }
    ensures moment { OnOk result (D.moment_of device.new ≡ D.moment_of device.old + 2 * piece_calls v.log_pages) }
    ensures changes { OnOk result (Begins (piece_calls v.log_pages) 0 (D.changes_of device.old) (D.changes_of device.new)) }
    ensures above { StaysFrom (8 * cluster_bits_first v) (D.moment_of device.old) (D.changes_of device.old) (D.changes_of device.new) }
    ensures sectors { D.sector_count device.new ≡ D.sector_count device.old }
    ensures cause { FailsByCause (D.fault_count device.old) (D.fault_count device.new) (D.moment_of device.new) result }
{
    put_filled(device, Filling::Log, 52, 4096 * v.log_pages, room)
}

// Writes the bitmap of the clusters.
fn put_cluster_bits<D: Device>(device: &mut D, v: Layout, room: &mut [u8]) -> Result<(), Failed>
    requires layout { IsLayout v }
    requires within { 8 * v.clusters ≤ D.sector_count device.old }
    requires room { length room.old ≡ 65536 }
    ensures image { OnOk result (Puts (record { cluster = cluster_bits_first v; bytes = cluster_bits v } ∷ []) (D.gives device.old) (D.gives device.new)) }
    ensures torn { OnErr result (PutsTorn (record { cluster = cluster_bits_first v; bytes = cluster_bits v }) (D.gives device.old) (D.gives device.new)) }
    ensures moment { OnOk result (D.moment_of device.new ≡ D.moment_of device.old + 2 * piece_calls v.bitmap_clusters) }
    ensures changes { OnOk result (Begins (piece_calls v.bitmap_clusters) 0 (D.changes_of device.old) (D.changes_of device.new)) }
    ensures above { StaysFrom (8 * block_first v) (D.moment_of device.old) (D.changes_of device.old) (D.changes_of device.new) }
    ensures sectors { D.sector_count device.new ≡ D.sector_count device.old }
    ensures cause { FailsByCause (D.fault_count device.old) (D.fault_count device.new) (D.moment_of device.new) result }
{
    let bits = Filling::ClusterBits(v);
    put_filled(
        device,
        bits,
        v.cluster_bits_first(),
        4096 * v.bitmap_clusters,
        room,
    )
}

// Writes the records and their bitmap.
fn put_records<D: Device>(device: &mut D, parts: &Parts) -> Result<(), Failed>
    requires sizes { HaveSizes parts.now }
    requires within { 160 ≤ D.sector_count device.old }
    ensures image { OnOk result (Puts (record { cluster = table_first; bytes = parts.now.table.items } ∷ record { cluster = mirror_first; bytes = parts.now.mirror.items } ∷ record { cluster = record_bits_first; bytes = parts.now.record_bits.items } ∷ []) (D.gives device.old) (D.gives device.new)) }
    ensures stopped { OnErr result (PutsFront (record { cluster = table_first; bytes = parts.now.table.items } ∷ record { cluster = mirror_first; bytes = parts.now.mirror.items } ∷ record { cluster = record_bits_first; bytes = parts.now.record_bits.items } ∷ []) (D.gives device.old) (D.gives device.new)) }
    ensures moment { OnOk result (D.moment_of device.new ≡ D.moment_of device.old + 6) }
    ensures changes { OnOk result (Begins 3 0 (D.changes_of device.old) (D.changes_of device.new)) }
    ensures above { StaysFrom (8 * upper_case_first) (D.moment_of device.old) (D.changes_of device.old) (D.changes_of device.new) }
    ensures sectors { D.sector_count device.new ≡ D.sector_count device.old }
    ensures cause { FailsByCause (D.fault_count device.old) (D.fault_count device.new) (D.moment_of device.new) result }
{
    put(device, 4, &parts.table)?;
    put(device, 2, &parts.mirror)?;
    put(device, 3, &parts.record_bits)
}

// Writes the table of upper-case units, the log and the bitmap of the clusters.
fn put_long<D: Device>(device: &mut D, v: Layout, room: &mut [u8]) -> Result<(), Failed>
    requires layout { IsLayout v }
    requires within { 8 * v.clusters ≤ D.sector_count device.old }
    requires room { length room.old ≡ 65536 }
    ensures image { OnOk result (Puts (record { cluster = upper_case_first; bytes = upper_case_bytes } ∷ record { cluster = log_first; bytes = log_bytes v } ∷ record { cluster = cluster_bits_first v; bytes = cluster_bits v } ∷ []) (D.gives device.old) (D.gives device.new)) }
    ensures stopped { OnErr result (PutsFront (record { cluster = upper_case_first; bytes = upper_case_bytes } ∷ record { cluster = log_first; bytes = log_bytes v } ∷ record { cluster = cluster_bits_first v; bytes = cluster_bits v } ∷ []) (D.gives device.old) (D.gives device.new)) }
    ensures moment { OnOk result (D.moment_of device.new ≡ D.moment_of device.old + 2 * (piece_calls 32 + piece_calls v.log_pages + piece_calls v.bitmap_clusters)) }
    ensures changes { OnOk result (Begins (piece_calls 32 + piece_calls v.log_pages + piece_calls v.bitmap_clusters) 0 (D.changes_of device.old) (D.changes_of device.new)) }
    ensures above { StaysFrom (8 * block_first v) (D.moment_of device.old) (D.changes_of device.old) (D.changes_of device.new) }
    ensures sectors { D.sector_count device.new ≡ D.sector_count device.old }
    ensures cause { FailsByCause (D.fault_count device.old) (D.fault_count device.new) (D.moment_of device.new) result }
{
    put_upper_case(device, room)?;
    put_log(device, v, room)?;
    put_cluster_bits(device, v, room)
}

// Syncs.
#[tactic(auto, using(crate::proofs::Calls::went_on, crate::proofs::Calls::began_sync, crate::proofs::Crashing::synced_now, crate::proofs::Crashing::sync_stays))]
fn finish<D: Device>(device: &mut D) -> Result<(), Failed>
    ensures gives { D.gives device.new ≡ D.gives device.old }
    ensures moment { OnOk result (D.moment_of device.new ≡ D.moment_of device.old + 2) }
    ensures changes { OnOk result (Begins 0 1 (D.changes_of device.old) (D.changes_of device.new)) }
    ensures settled { OnOk result (IsSettledNow (D.changes_of device.new)) }
    ensures above { (first : ℕ) → StaysFrom first (D.moment_of device.old) (D.changes_of device.old) (D.changes_of device.new) }
    ensures sectors { D.sector_count device.new ≡ D.sector_count device.old }
    ensures cause { FailsByCause (D.fault_count device.old) (D.fault_count device.new) (D.moment_of device.new) result }
{
    device.sync()
}

/// Writes all regions, the boot sector last, and syncs. The error is a failure of the device; then
/// some regions stand, in their order, of the next one any sectors may, and nothing else changed.
/// After the sync nothing is unsynced; whatever is answered, a crash leaves of the sectors behind
/// the regions what it might have left before.
pub fn put_image<D: Device>(
    device: &mut D,
    v: Layout,
    parts: &Parts,
    room: &mut [u8],
) -> Result<(), Failed>
    requires layout { IsLayout v }
    requires within { 8 * v.clusters ≤ D.sector_count device.old }
    requires sizes { HaveSizes parts.now }
    requires room { length room.old ≡ 65536 }
    ensures image { OnOk result (Puts (regions_of v parts.now) (D.gives device.old) (D.gives device.new)) }
    ensures stopped { OnErr result (PutsFront (regions_of v parts.now) (D.gives device.old) (D.gives device.new)) }
    ensures others { KeepsOthers v (D.gives device.old) (D.gives device.new) }
    ensures moment { OnOk result (D.moment_of device.new ≡ D.moment_of device.old + 2 * device_calls v) }
    ensures changes { OnOk result (Begins (device_writes v) 1 (D.changes_of device.old) (D.changes_of device.new)) }
    ensures settled { OnOk result (IsSettledNow (D.changes_of device.new)) }
    ensures above { StaysFrom (8 * used_clusters v) (D.moment_of device.old) (D.changes_of device.old) (D.changes_of device.new) }
    ensures sectors { D.sector_count device.new ≡ D.sector_count device.old }
    ensures cause { FailsByCause (D.fault_count device.old) (D.fault_count device.new) (D.moment_of device.new) result }
{
    put_records(device, parts)?;
    put_long(device, v, room)?;
    put(device, v.block_first(), &parts.block)?;
    put(device, 0, &parts.boot)?;
    finish(device)
}
