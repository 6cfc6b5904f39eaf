ghost use Rattle.std.specs.Prelude.{◌≡◌, ◌≤◌, ◌*◌, ◌++◌, ◌∷◌, [], All, IfOk, IfErr, IfSome, OnOk, length};
ghost use Rattle.index_tree.specs.block_view.declared.fault.ViewFault.TheVariants.{Memory as no_memory};
ghost use Rattle.index_tree.specs.block_view.Changes.{Fits};
ghost use Rattle.record_model.specs.disk_model.Sectors.{sectors};
ghost use Rattle.record_model.specs.Nodes.{node_spelling, FitsNode};
ghost use Rattle.index_node.specs.Roots.{new_node, HaveSpelling};
ghost use Rattle.index_change.specs.Changing.{PutsNode, PutNodes, WasOld, AllWereOld};
ghost use Rattle.index_tree.specs.Faults.{FailsAsView};
ghost use Rattle.index_tree.specs.Places.{place_of};

use index_node::{EntryList, Node, have_spelling};
use index_plan::Write;
use index_tree::{Block, Body, Bytes, Change, DirPlace, View, ViewFault};
use std::alloc::{AllocError, Global};

// Nodes that are written, as changes of their blocks.

// The bytes of an index block.
const BLOCK_BYTES: usize = 4096;

// The body of a block.
fn body_of<V: View>(alloc: Global, v: &mut V, block: Block) -> Result<Body, ViewFault>
    ensures body { IfSome (V.content v.old) (λ c. IfOk result (λ body. body ≡ c block)) }
    ensures size { IfOk result (λ body. length body.bytes ≡ 512 * sectors block.kind) }
    ensures same { V.content v.new ≡ V.content v.old }
    ensures kept { V.kept v.new ≡ V.kept v.old }
    ensures cause { FailsAsView (V.faults v.old) (V.faults v.new) result }
{
    let mut body = Body::empty(alloc)?;
    v.body(block, &mut body)?;
    Ok(body)
}

/// The bytes of a node in a block.
#[tactic(auto, using(index_node::proofs::RootSpelled::each_block))]
pub fn node_bytes(alloc: Global, vcn: u64, entries: EntryList) -> Result<Bytes, AllocError>
    requires { HaveSpelling entries }
    ensures spelled { IfOk result (λ bytes. bytes ≡ node_spelling (new_node vcn entries)) }
    ensures fits { FitsNode (new_node vcn entries) }
{
    let mut bytes = vec![in alloc; 0u8; BLOCK_BYTES]?;
    Node::new(vcn, entries).write(&mut bytes);
    Ok(Bytes::from(bytes))
}

// The change that puts a node into its block, which has this body.
fn change_over(alloc: Global, block: Block, write: Write, body: &Body) -> Result<Change, AllocError>
    requires { length body.now.bytes ≡ 512 * sectors block.kind }
    ensures block { IfOk result (λ change. change.block ≡ block) }
    ensures old { IfOk result (λ change. change.old ≡ body.now.bytes) }
    ensures whole { IfOk result (λ change. change.offset ≡ 0) }
    ensures fits { IfOk result (λ change. FitsNode (new_node write.vcn write.entries)) }
    ensures new { IfOk result (λ change. change.new ≡ node_spelling (new_node write.vcn write.entries)) }
    ensures size { IfOk result (λ change. length change.old ≡ 4096) }
    ensures inside { IfOk result (λ change. 4096 ≤ 512 * sectors block.kind) }
{
    let old = body.bytes();
    if old.len() != BLOCK_BYTES {
        return Err(AllocError);
    }
    let Write { vcn, entries } = write;
    if !have_spelling(&entries) {
        return Err(AllocError);
    }
    let new = node_bytes(alloc, vcn, entries)?;
    Ok(Change {
        block,
        offset: 0,
        old: Bytes::copy_of(alloc, old)?,
        new,
    })
}

// The change that puts a node into its block.
fn change_of<V: View>(
    alloc: Global,
    v: &mut V,
    dir: &DirPlace,
    write: Write,
) -> Result<Change, ViewFault>
    ensures put { IfOk result (PutsNode (place_of dir.now) write) }
    ensures old { IfSome (V.content v.old) (λ c. IfOk result (WasOld c)) }
    ensures same { V.content v.new ≡ V.content v.old }
    ensures kept { V.kept v.new ≡ V.kept v.old }
    ensures cause { FailsAsView (V.faults v.old) (V.faults v.new) result }
{
    let Some(block) = dir.node_block(write.vcn) else {
        return Err(ViewFault::Memory);
    };
    let body = body_of(alloc, v, block)?;
    Ok(change_over(alloc, block, write, &body)?)
}

fn push(changes: &mut Vec<Change>, change: Change) -> Result<(), ViewFault>
    ensures pushed { OnOk result (changes.new.items ≡ changes.old.items ++ change ∷ []) }
    ensures fault { IfErr result (λ e. e ≡ no_memory) }
{
    match changes.push(change) {
        Ok(()) => Ok(()),
        Err(e) => Err(ViewFault::from(AllocError::from(e))),
    }
}

/// The changes that put nodes into their blocks, in order, each with the body that the view gives.
///
/// - `Fault`: the view failed.
/// - `Memory`: there is no memory left. This comes too where a node has no block or no spelling.
pub fn changes_of<V: View>(
    alloc: Global,
    v: &mut V,
    dir: &DirPlace,
    writes: Vec<Write>,
) -> Result<Vec<Change>, ViewFault>
    ensures put { IfOk result (λ changes. PutNodes (place_of dir.now) writes.items changes.items) }
    ensures fits { IfOk result (λ changes. All Fits changes.items) }
    ensures old { IfSome (V.content v.old) (λ c. IfOk result (λ changes. AllWereOld c changes.items)) }
    ensures same { V.content v.new ≡ V.content v.old }
    ensures kept { V.kept v.new ≡ V.kept v.old }
    ensures cause { FailsAsView (V.faults v.old) (V.faults v.new) result }
{
    let mut changes = Vec::new(alloc);
    for write in writes {
        let change = change_of(alloc, v, dir, write)?;
        push(&mut changes, change)?;
    }
    Ok(changes)
}
