ghost use Rattle.std.specs.Prelude.{◌≡◌, ◌≤◌, OnErr, IfOk, IfSome};
ghost use Rattle.state_model.specs.Streams.{real_size, stream_bytes};
ghost use Rattle.stream_map.specs.ListSteps.{IsStep, Moves, ViewCause};

use super::list_front::{FRONT_BYTES, FirstEntry, first_entry};
use super::list_step::Step;
use crate::real_size;
use block_view::{Body, View, ViewFault};
use state_model::{ClusterSize, Stream};
use std::alloc::Global;

/// The next step over a stream that is an attribute list (Linux-NTFS documentation,
/// "$ATTRIBUTE_LIST"), from the byte `at` on: the entry that begins there, and `at` then stands
/// after it; or the list's end or a fault, and `at` stays. A volume has `per` sectors a cluster;
/// `body` is room for a sector.
///
/// It reads three blocks at most, with one pass over the runs each, and takes memory for the name
/// of the entry alone.
///
/// - [`ViewFault::Fault`]: the view failed, and counts it; `at` stays.
/// - [`ViewFault::Memory`]: there is no memory left; `at` stays.
pub fn next_entry<V: View>(
    alloc: Global,
    v: &mut V,
    per: ClusterSize,
    stream: &Stream,
    at: &mut u64,
    body: &mut Body,
) -> Result<Step, ViewFault>
    requires place { at.old ≤ real_size stream.now }
    ensures step { IfSome (V.content v.old) (λ c. IfOk result (IsStep (stream_bytes c per stream.now) at.old at.new)) }
    ensures moves { IfOk result (Moves (real_size stream.now) at.old at.new) }
    ensures inside { at.new ≤ real_size stream.now }
    ensures stays { OnErr result (at.new ≡ at.old) }
    ensures same { V.content v.new ≡ V.content v.old }
    ensures kept { V.kept v.new ≡ V.kept v.old }
    ensures cause { ViewCause (V.faults v.old) (V.faults v.new) result }
{
    let left = real_size(stream) - *at;
    if left == 0 {
        return Ok(Step::End);
    }
    let mut front = [0; FRONT_BYTES];
    crate::front(v, per, stream, *at, body, &mut front)?;
    match first_entry(alloc, &front, left)? {
        Some(FirstEntry { entry, length }) => {
            *at += u64::from(length);
            Ok(Step::Entry(entry))
        }
        None => Ok(Step::Fault),
    }
}
