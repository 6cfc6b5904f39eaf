//! The levels of an index.
ghost use Rattle.std.specs.Prelude.{◌≡◌, ◌+◌, ◌≤◌, IfOk, IfSome};
ghost use Rattle.index_model.specs.Indexes.{node_of_block};
ghost use Rattle.index_tree.specs.Faults.{FailsAsView};
ghost use Rattle.index_tree.specs.Places.{place_of};
ghost use Rattle.index_change.specs.Heights.{tallest, height_below, height_of};

use block_view::{View, ViewFault};
use index_tree::{DirPlace, LEVELS_BELOW, node_if_any};
use record_model::Entry;
use std::alloc::Global;

// The levels below an entry, so many at most.
#[cycle(height)]
fn height_below<V: View>(
    alloc: Global,
    v: &mut V,
    dir: &DirPlace,
    levels: u32,
    down: Option<u64>,
) -> Result<u32, ViewFault>
    requires { levels ≤ 15 }
    ensures value { IfSome (V.content v.old) (λ c. IfOk result (λ h. h ≡ height_below (node_of_block c (place_of dir.now)) levels down)) }
    ensures few { IfOk result (λ h. h ≤ levels) }
    ensures same { V.content v.new ≡ V.content v.old }
    ensures kept { V.kept v.new ≡ V.kept v.old }
    ensures cause { FailsAsView (V.faults v.old) (V.faults v.new) result }
{
    let Some(child) = down else {
        return Ok(0);
    };
    if levels == 0 {
        return Ok(0);
    }
    match node_if_any(alloc, v, dir, child)? {
        None => Ok(0),
        Some(node) => tallest(alloc, v, dir, levels - 1, node.entries().as_slice()),
    }
}

// The levels of a node with these entries, so many below it at most.
#[cycle(height)]
fn tallest<V: View>(
    alloc: Global,
    v: &mut V,
    dir: &DirPlace,
    levels: u32,
    entries: &[Entry],
) -> Result<u32, ViewFault>
    requires { levels ≤ 15 }
    ensures value { IfSome (V.content v.old) (λ c. IfOk result (λ h. h ≡ tallest (height_below (node_of_block c (place_of dir.now)) levels) entries.now)) }
    ensures few { IfOk result (λ h. h ≤ levels + 1) }
    ensures same { V.content v.new ≡ V.content v.old }
    ensures kept { V.kept v.new ≡ V.kept v.old }
    ensures cause { FailsAsView (V.faults v.old) (V.faults v.new) result }
{
    let mut most = 1;
    for entry in entries {
        let below = height_below(alloc, v, dir, levels, entry.down)?;
        if most < below + 1 {
            most = below + 1;
        }
    }
    Ok(most)
}

/// The levels of an index with these entries in its root, as far as its nodes break no rule. It
/// reads each node; linear in their bytes.
///
/// - [`ViewFault::Fault`]: the view failed and counts it.
/// - [`ViewFault::Memory`]: there is no memory left.
pub fn height_of<V: View>(
    alloc: Global,
    v: &mut V,
    dir: &DirPlace,
    root: &[Entry],
) -> Result<u32, ViewFault>
    ensures value { IfSome (V.content v.old) (λ c. IfOk result (λ h. h ≡ height_of (node_of_block c (place_of dir.now)) root.now)) }
    ensures same { V.content v.new ≡ V.content v.old }
    ensures kept { V.kept v.new ≡ V.kept v.old }
    ensures cause { FailsAsView (V.faults v.old) (V.faults v.new) result }
{
    tallest(alloc, v, dir, LEVELS_BELOW, root)
}
