//! The bytes of the data that a node shows.
ghost use Rattle.std.specs.Prelude.{◌≡◌, [], Ok, Some, None, length, IfSome};
ghost use Rattle.host_base.specs.Answers.{GivesOrFails};
ghost use Rattle.disk_model.specs.Bytes.{zeros};
ghost use Rattle.block_view.specs.Views.{AsksView};
ghost use Rattle.volume_tree.specs.volume_model.Volumes.{bytes_or};
ghost use Rattle.volume_tree.specs.volume_map.Maps.{volume_in};
ghost use Rattle.tree_model.specs.Fronts.{front_of};
ghost use Rattle.tree_lookup.specs.Asked.{lookup_cause};
ghost use Rattle.volume_lookup.specs.Fronts.{front_shown};

use block_view::View;
use disk_model::Body;
use std::alloc::Global;
use tree_lookup::LookupFault;
use volume_tree::{ClusterSize, NamedVolume, Stream, front, shown_at};

#[tactic(auto, unfolding(disk_model::specs::Bytes::zeros))]
fn clear(out: &mut [u8])
    ensures { out.new ≡ zeros (length out.old) }
{
    out.fill(0);
}

// The bytes of no data from a place on.
fn clear_front(out: &mut [u8], at: u64)
    ensures { out.new ≡ front_of [] at (length out.old) }
{
    let _ = at;
    clear(out);
}

// The bytes of a stream from a place on.
#[tactic(auto, unfolding(tree_model::specs::Fronts::front_of, disk_model::specs::Bytes::zeros))]
fn stream_front<V: View>(
    alloc: Global,
    view: &mut V,
    per: ClusterSize,
    stream: &Stream,
    at: u64,
    out: &mut [u8],
) -> Result<(), LookupFault>
    ensures value { IfSome (V.content view.old) (λ c. GivesOrFails (λ _. out.new) lookup_cause result (Ok (front_of (bytes_or c per (Some stream.now)) at (length out.old)))) }
    ensures asks { AsksView V.content V.kept V.faults lookup_cause view.old view.new result }
{
    let mut body = Body::empty(alloc)?;
    match front(view, per, stream, at, &mut body, out) {
        Ok(()) => Ok(()),
        Err(_) => Err(LookupFault::Outside),
    }
}

/// Makes `out` the bytes of the data that the node with this number shows, from a place on, and
/// zeros behind its end. It reads the sectors that it touches.
#[tactic(auto, unfolding(crate::specs::Fronts::front_shown))]
pub fn front_shown<V: View>(
    alloc: Global,
    view: &mut V,
    volume: &NamedVolume,
    number: u64,
    at: u64,
    out: &mut [u8],
) -> Result<(), LookupFault>
    ensures value { IfSome (V.content view.old) (λ c. GivesOrFails (λ _. out.new) lookup_cause result (Ok (front_shown c (volume_in volume.now.map.now) number at (length out.old)))) }
    ensures asks { AsksView V.content V.kept V.faults lookup_cause view.old view.new result }
{
    match shown_at(alloc, volume, number)? {
        Some(stream) => stream_front(alloc, view, volume.map.per_cluster, &stream, at, out),
        None => {
            clear_front(out, at);
            Ok(())
        }
    }
}
