ghost use Rattle.std.specs.Prelude.{◌≡◌, ◌+◌, ◌++◌, ◌∷◌, [], ◌≤◌, ◌<◌, IfOk, IfErr, IfSome, OnOk, min};
ghost use Rattle.index_tree.specs.block_view.declared.fault.ViewFault.TheVariants.{Memory as no_memory};
ghost use Rattle.index_tree.specs.index_model.Indexes.{node_of_block};
ghost use Rattle.index_tree.specs.Faults.{FailsAsView};
ghost use Rattle.index_tree.specs.Places.{place_of};
ghost use Rattle.index_change.specs.Amounts.{key_before, keys_in, keys_below, keys_of, blocks_in, blocks_below, blocks_of};

use index_tree::{DirPlace, LEVELS_BELOW, View, ViewFault, node_if_any};
use record_model::Entry;
use std::alloc::{AllocError, Global};

// Whether an index has one key at most, and in which blocks it then lies. Two keys are met on two
// ways down, so that this reads thirty nodes at most.

fn push(blocks: &mut Vec<u64>, vcn: u64) -> Result<(), ViewFault>
    ensures pushed { OnOk result (blocks.new.items ≡ blocks.old.items ++ vcn ∷ []) }
    ensures fault { IfErr result (λ e. e ≡ no_memory) }
{
    match blocks.push(vcn) {
        Ok(()) => Ok(()),
        Err(e) => Err(ViewFault::from(AllocError::from(e))),
    }
}

// The keys of an entry before these: the last one of a node has none.
fn key_before(rest: &[Entry]) -> u32
    ensures { result ≡ key_before rest.now }
{
    match rest.first() {
        None => 0,
        Some(_) => 1,
    }
}

// The keys below an entry, two at most; and its blocks, where there are fewer.
#[cycle(few)]
fn few_below<V: View>(
    alloc: Global,
    v: &mut V,
    dir: &DirPlace,
    levels: u32,
    down: Option<u64>,
    blocks: &mut Vec<u64>,
) -> Result<u32, ViewFault>
    requires { levels ≤ 15 }
    ensures keys { IfSome (V.content v.old) (λ c. IfOk result (λ n. n ≡ min 2 (keys_below (node_of_block c (place_of dir.now)) levels down))) }
    ensures blocks { IfSome (V.content v.old) (λ c. IfOk result (λ n. n < 2 → blocks.new.items ≡ blocks.old.items ++ blocks_below (node_of_block c (place_of dir.now)) levels down)) }
    ensures few { IfOk result (λ n. n ≤ 2) }
    ensures same { V.content v.new ≡ V.content v.old }
    ensures kept { V.kept v.new ≡ V.kept v.old }
    ensures cause { FailsAsView (V.faults v.old) (V.faults v.new) result }
{
    let Some(child) = down else {
        return Ok(0);
    };
    if levels == 0 {
        return Ok(0);
    }
    let Some(node) = node_if_any(alloc, v, dir, child)? else {
        return Ok(0);
    };
    push(blocks, child)?;
    few_in(alloc, v, dir, levels - 1, node.entries().as_slice(), blocks)
}

// The keys of a node with these entries and below it, two at most; and the blocks below it, where
// there are fewer.
#[cycle(few)]
fn few_in<V: View>(
    alloc: Global,
    v: &mut V,
    dir: &DirPlace,
    levels: u32,
    entries: &[Entry],
    blocks: &mut Vec<u64>,
) -> Result<u32, ViewFault>
    requires { levels ≤ 15 }
    ensures keys { IfSome (V.content v.old) (λ c. IfOk result (λ n. n ≡ min 2 (keys_in (keys_below (node_of_block c (place_of dir.now)) levels) entries.now))) }
    ensures blocks { IfSome (V.content v.old) (λ c. IfOk result (λ n. n < 2 → blocks.new.items ≡ blocks.old.items ++ blocks_in (blocks_below (node_of_block c (place_of dir.now)) levels) entries.now)) }
    ensures few { IfOk result (λ n. n ≤ 2) }
    ensures same { V.content v.new ≡ V.content v.old }
    ensures kept { V.kept v.new ≡ V.kept v.old }
    ensures cause { FailsAsView (V.faults v.old) (V.faults v.new) result }
{
    let mut keys = 0;
    for (i, entry) in entries.iter().enumerate() {
        let below = few_below(alloc, v, dir, levels, entry.down, blocks)?;
        keys += below + key_before(entries.split_at(i + 1).1);
        if 2 <= keys {
            return Ok(2);
        }
    }
    Ok(keys)
}

/// The keys of an index with these entries in its root, two at most; and the VCNs of its blocks,
/// where there are fewer. It reads the nodes on two ways down at most.
pub fn few_of<V: View>(
    alloc: Global,
    v: &mut V,
    dir: &DirPlace,
    root: &[Entry],
    blocks: &mut Vec<u64>,
) -> Result<u32, ViewFault>
    ensures keys { IfSome (V.content v.old) (λ c. IfOk result (λ n. n ≡ min 2 (keys_of (node_of_block c (place_of dir.now)) root.now))) }
    ensures blocks { IfSome (V.content v.old) (λ c. IfOk result (λ n. n < 2 → blocks.new.items ≡ blocks.old.items ++ blocks_of (node_of_block c (place_of dir.now)) root.now)) }
    ensures same { V.content v.new ≡ V.content v.old }
    ensures kept { V.kept v.new ≡ V.kept v.old }
    ensures cause { FailsAsView (V.faults v.old) (V.faults v.new) result }
{
    few_in(alloc, v, dir, LEVELS_BELOW, root, blocks)
}
