ghost use Rattle.std.specs.Prelude.{◌≡◌, ◌+◌, ◌-◌, ◌/◌, ◌%◌, ◌^◌, ◌≤◌, ◌++◌, length, take, drop, map, min, OnOk, IsOk, IfErr, IfSome};
ghost use Rattle.std.specs.List.{range_with_len};
ghost use Rattle.disk_model.specs.host_base.Causes.{HasCause};
ghost use Rattle.disk_model.specs.Bytes.{zeros};
ghost use Rattle.disk_model.specs.declared.block.BlockKind.TheVariants.{Plain};
ghost use Rattle.block_view.specs.declared.fault.ViewFault.TheVariants.{Fault};
ghost use Rattle.state_model.specs.Streams.{byte_at, extent_bytes, stream_bytes};
ghost use Rattle.stream_map.specs.Reads.{placed_bytes, IsResident};

use super::places::block_at;
use block_view::{Block, BlockKind, Body, View, ViewFault};
use record_model::Runs;
use state_model::{ClusterSize, Extents, Stream};

#[tactic(auto, unfolding(disk_model::specs::Bytes::zeros))]
fn clear(bytes: &mut [u8])
    ensures { bytes.new ≡ zeros (length bytes.old) }
{
    bytes.fill(0);
}

/// Puts zeros over the bytes from `known` on.
fn clear_from(bytes: &mut [u8], known: usize)
    requires { known ≤ length bytes.old }
    ensures { bytes.new ≡ take known bytes.old ++ zeros (length bytes.old - known) }
{
    clear(bytes.split_at_mut(known).1);
}

/// How many of `count` bytes from `at` on lie below `end`.
fn bytes_below(end: u64, at: u64, count: usize) -> usize
    ensures { result ≡ min (end - at) count }
{
    let below = end.saturating_sub(at);
    below.min(count as u64) as usize
}

/// How many of `count` bytes from `place` on lie in its sector.
fn bytes_in_sector(place: u64, count: usize) -> usize
    ensures { result ≡ min (512 - place % 512) count }
{
    bytes_below(512, place % 512, count)
}

fn copy_part(bytes: &[u8], from: usize, out: &mut [u8])
    requires { from + length out.old ≤ length bytes.now }
    ensures { out.new ≡ take (length out.old) (drop from bytes.now) }
{
    let end = from + out.len();
    out.copy_from_slice(&bytes[from..end]);
}

/// Reads bytes of a sector from `from` on.
fn read_part<V: View>(
    v: &mut V,
    block: Block,
    from: usize,
    body: &mut Body,
    out: &mut [u8],
) -> Result<(), ViewFault>
    requires plain { block.kind ≡ Plain }
    requires inside { from + length out.old ≤ 512 }
    ensures bytes { IfSome (V.content v.old)
        (λ c. OnOk result (out.new ≡ take (length out.old) (drop from (c block).bytes))) }
    ensures fault { IfErr result (λ e. e ≡ Fault) }
    ensures same { V.content v.new ≡ V.content v.old }
    ensures kept { V.kept v.new ≡ V.kept v.old }
    ensures cause { HasCause (V.faults v.old) (V.faults v.new) result }
{
    v.body(block, body)?;
    copy_part(body.bytes(), from, out);
    Ok(())
}

/// Fills `out` with bytes of one sector of a stream, from the place `at` on.
fn fill_part<V: View>(
    v: &mut V,
    per: ClusterSize,
    runs: &Runs,
    at: u64,
    body: &mut Body,
    out: &mut [u8],
) -> Result<(), ViewFault>
    requires sector { at % 512 + length out.old ≤ 512 }
    ensures bytes { IfSome (V.content v.old)
        (λ c. OnOk result (out.new ≡ placed_bytes c per runs.now at (length out.old))) }
    ensures fault { IfErr result (λ e. e ≡ Fault) }
    ensures same { V.content v.new ≡ V.content v.old }
    ensures kept { V.kept v.new ≡ V.kept v.old }
    ensures cause { HasCause (V.faults v.old) (V.faults v.new) result }
{
    match block_at(per, runs.as_slice(), BlockKind::Plain, at / 512) {
        None => {
            clear(out);
            Ok(())
        }
        Some(block) => read_part(v, block, (at % 512) as usize, body, out),
    }
}

/// Fills `out` with the bytes of a stream's sectors from the place `at` on.
fn fill_placed<V: View>(
    v: &mut V,
    per: ClusterSize,
    runs: &Runs,
    at: u64,
    body: &mut Body,
    out: &mut [u8],
) -> Result<(), ViewFault>
    requires place { at + length out.old ≤ 2 ^ 64 }
    ensures bytes { IfSome (V.content v.old)
        (λ c. OnOk result (out.new ≡ placed_bytes c per runs.now at (length out.old))) }
    ensures fault { IfErr result (λ e. e ≡ Fault) }
    ensures same { V.content v.new ≡ V.content v.old }
    ensures kept { V.kept v.new ≡ V.kept v.old }
    ensures cause { HasCause (V.faults v.old) (V.faults v.new) result }
{
    let mut done = 0;
    while done < out.len() {
        let place = at + done as u64;
        let end = done + bytes_in_sector(place, out.len() - done);
        fill_part(v, per, runs, place, body, &mut out[done..end])?;
        done = end;
    }
    Ok(())
}

/// Fills `out` with the bytes of a stream in clusters from the place `at` on, whether or not they
/// lie below its real size: zeros from the initialised size on, in sparse runs, and where no run
/// is. A volume has `per` sectors a cluster. `body` is room for a sector; this takes no memory.
///
/// It reads one block for each sector that it touches below the initialised size, with one pass
/// over the runs each.
///
/// - [`ViewFault::Fault`]: the view failed, and counts it; any bytes may stand in `out` then. There
///   is no other error.
#[tactic(auto, unfolding(state_model::specs::Streams::byte_at))]
pub fn fill<V: View>(
    v: &mut V,
    per: ClusterSize,
    extents: &Extents,
    at: u64,
    body: &mut Body,
    out: &mut [u8],
) -> Result<(), ViewFault>
    requires place { at + length out.old ≤ 2 ^ 64 }
    ensures bytes { IfSome (V.content v.old)
        (λ c. OnOk result (out.new
        ≡ map (byte_at c per extents.now) (range_with_len at (length out.old)))) }
    ensures fault { IfErr result (λ e. e ≡ Fault) }
    ensures same { V.content v.new ≡ V.content v.old }
    ensures kept { V.kept v.new ≡ V.kept v.old }
    ensures cause { HasCause (V.faults v.old) (V.faults v.new) result }
{
    let known = bytes_below(extents.initialised, at, out.len());
    fill_placed(v, per, &extents.runs, at, body, &mut out[..known])?;
    clear_from(out, known);
    Ok(())
}

/// Makes `out` the bytes of a value from `at` on, and zeros behind its end.
fn copy_front(value: &[u8], at: u64, out: &mut [u8])
    ensures { out.new ≡ take (length out.old) (drop at value.now ++ zeros (length out.old)) }
{
    let known = bytes_below(value.len() as u64, at, out.len());
    let from = bytes_below(at, 0, value.len());
    copy_part(value, from, &mut out[..known]);
    clear_from(out, known);
}

/// The same of a stream in clusters.
fn fill_front<V: View>(
    v: &mut V,
    per: ClusterSize,
    extents: &Extents,
    at: u64,
    body: &mut Body,
    out: &mut [u8],
) -> Result<(), ViewFault>
    ensures bytes { IfSome (V.content v.old)
        (λ c. OnOk result (out.new
        ≡ take (length out.old) (drop at (extent_bytes c per extents.now) ++ zeros (length out.old)))) }
    ensures fault { IfErr result (λ e. e ≡ Fault) }
    ensures same { V.content v.new ≡ V.content v.old }
    ensures kept { V.kept v.new ≡ V.kept v.old }
    ensures cause { HasCause (V.faults v.old) (V.faults v.new) result }
{
    let known = bytes_below(extents.real, at, out.len());
    fill(v, per, extents, at, body, &mut out[..known])?;
    clear_from(out, known);
    Ok(())
}

/// Makes `out` the bytes of a stream from the place `at` on, and zeros behind its real size. A
/// volume has `per` sectors a cluster. `body` is room for a sector; this takes no memory.
///
/// Linear in `out` for a value in the record, of which the view isn't asked; for a stream in
/// clusters as long as [`fill`] takes.
///
/// - [`ViewFault::Fault`]: the view failed, and counts it; any bytes may stand in `out` then. There
///   is no other error.
pub fn front<V: View>(
    v: &mut V,
    per: ClusterSize,
    stream: &Stream,
    at: u64,
    body: &mut Body,
    out: &mut [u8],
) -> Result<(), ViewFault>
    ensures bytes { IfSome (V.content v.old)
        (λ c. OnOk result (out.new
        ≡ take (length out.old) (drop at (stream_bytes c per stream.now) ++ zeros (length out.old)))) }
    ensures fault { IfErr result (λ e. e ≡ Fault) }
    ensures same { V.content v.new ≡ V.content v.old }
    ensures kept { V.kept v.new ≡ V.kept v.old }
    ensures cause { HasCause (V.faults v.old) (V.faults v.new) result }
    ensures unasked { IsResident stream.now → IsOk result × (v.new ≡ v.old) }
{
    match stream {
        Stream::Held(value) => {
            copy_front(value.as_slice(), at, out);
            Ok(())
        }
        Stream::Placed(extents) => fill_front(v, per, extents, at, body, out),
    }
}
