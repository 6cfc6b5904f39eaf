//! The table of upper-case units.
ghost use Rattle.std.specs.Prelude.{◌≡◌, length, IfOk, IfErr, IfSome};
ghost use Rattle.record_rules.specs.state_model.Streams.{stream_bytes, real_size};
ghost use Rattle.volume_model.specs.upcase_order.Tables.{upcase_of, standard_table};
ghost use Rattle.volume_map.specs.Maps.{volume_in};
ghost use Rattle.system_files.specs.Errors.{upper_cause};
ghost use Rattle.block_view.specs.Views.{AsksView};
ghost use Rattle.volume_model.specs.Volumes.{table_or_standard, upper_of};

use block_view::{View, ViewFault};
use disk_model::Body;
use std::alloc::{AllocError, Global};
use volume_map::{
    ClusterSize, DATA, Stream, VolumeMap, file_stream, front, real_size, stream_or_empty,
};
use volume_model::{Upcase, UpcaseFault};

const UPCASE_FILE: u64 = 10;

const TABLE_BYTES: usize = 131_072;

fn table_room(alloc: Global) -> Result<Vec<u8>, AllocError>
    ensures { IfOk result (λ room. length room.items ≡ TABLE_BYTES) }
{
    vec![in alloc; 0u8; TABLE_BYTES]
}

// The table of the format.
fn standard(alloc: Global) -> Result<Upcase, ViewFault>
    ensures value { IfOk result (λ table. table ≡ standard_table) }
    ensures memory { IfErr result (λ e. e ≡ ViewFault.Memory) }
{
    Upcase::standard(alloc).or(Err(ViewFault::Memory))
}

// The table that these bytes spell, or the standard one.
fn table_or_standard(alloc: Global, bytes: &[u8]) -> Result<Upcase, ViewFault>
    ensures value { IfOk result (λ table. table ≡ table_or_standard (upcase_of bytes.now)) }
    ensures memory { IfErr result (λ e. e ≡ ViewFault.Memory) }
{
    match Upcase::read(alloc, bytes) {
        Ok(table) => Ok(table),
        Err(UpcaseFault::Length { .. }) => standard(alloc),
        Err(UpcaseFault::Memory) => Err(ViewFault::Memory),
    }
}

// The table that a stream of as many bytes as a table has spells; `room` is room for them.
fn front_table<V: View>(
    alloc: Global,
    view: &mut V,
    per: ClusterSize,
    stream: &Stream,
    body: &mut Body,
    room: &mut [u8],
) -> Result<Upcase, ViewFault>
    requires long { real_size stream.now ≡ length room.old }
    ensures value { IfSome (V.content view.old) (λ c. IfOk result (λ table. table ≡ table_or_standard (upcase_of (stream_bytes c per stream.now)))) }
    ensures kept { AsksView V.content V.kept V.faults upper_cause view.old view.new result }
{
    front(view, per, stream, 0, body, room)?;
    Ok(table_or_standard(alloc, room)?)
}

// The table of a stream.
fn stream_table<V: View>(
    alloc: Global,
    view: &mut V,
    per: ClusterSize,
    stream: &Stream,
    body: &mut Body,
) -> Result<Upcase, ViewFault>
    ensures value { IfSome (V.content view.old) (λ c. IfOk result (λ table. table ≡ table_or_standard (upcase_of (stream_bytes c per stream.now)))) }
    ensures kept { AsksView V.content V.kept V.faults upper_cause view.old view.new result }
{
    if real_size(stream) != TABLE_BYTES as u64 {
        return Ok(standard(alloc)?);
    }
    let mut room = table_room(alloc)?;
    front_table(alloc, view, per, stream, body, &mut room)
}

/// The volume's table of upper-case units: the data of `$UpCase`, or that of the format where this
/// hasn't 131,072 bytes. `body` is room for a body. It reads no more than these bytes.
///
/// - [`ViewFault::Fault`]: the view failed.
/// - [`ViewFault::Memory`]: want of memory.
#[tactic(auto, unfolding(volume_model::specs::Volumes::upper_of))]
pub fn upper_table<V: View>(
    alloc: Global,
    view: &mut V,
    map: &VolumeMap,
    body: &mut Body,
) -> Result<Upcase, ViewFault>
    ensures value { IfSome (V.content view.old) (λ c. IfOk result (λ table. table ≡ upper_of c (volume_in map.now))) }
    ensures kept { AsksView V.content V.kept V.faults upper_cause view.old view.new result }
{
    let found = file_stream(alloc, &map.files, UPCASE_FILE, DATA).or(Err(ViewFault::Memory))?;
    let stream = stream_or_empty(alloc, found);
    stream_table(alloc, view, map.per_cluster, &stream, body)
}
