ghost use Rattle.std.specs.Prelude.{◌≡◌, ℕ, IfOk, IfSome, OnOk};
ghost use Rattle.index_tree.specs.index_model.Indexes.{node_of_block, entry_link};
ghost use Rattle.index_tree.specs.index_model.Walks.{below, beside, entry_sought, kid_sought, root_vcn, side_of, sought_in};
ghost use Rattle.index_change.specs.Holding.{AllHeld, HoldsNodesOf, StayHeld};
ghost use Rattle.index_tree.specs.Places.{place_of};
ghost use Rattle.index_tree.specs.Faults.{FailsAsView};

use crate::holding::{Held, hold};
use index_tree::{
    DirPlace, LEVELS_BELOW, Side, Upcase, View, ViewFault, entry_link, node_if_any, side_of,
};
use record_model::{Entry, EntryList};
use std::alloc::Global;
use std::collections::BTreeMap;

// Holding of the nodes that a search for a name meets.

#[derive(Clone, Copy)]
struct Gatherer<'a> {
    alloc: Global,
    dir: &'a DirPlace,
    up: &'a Upcase,
    name: &'a [u16],
}

impl<'a> Gatherer<'a> {
    // Holds a node, and those below it that a search meets.
    #[cycle(gathering)]
    fn child<V: View>(
        &self,
        v: &mut V,
        levels: u32,
        child: u64,
        held: &mut Held,
    ) -> Result<(), ViewFault>
        ensures right { OnOk result (IfSome (V.content v.old) (λ c. HoldsNodesOf (node_of_block c (place_of self.now.dir.now)) held.old → HoldsNodesOf (node_of_block c (place_of self.now.dir.now)) held.new)) }
        ensures stay { OnOk result (StayHeld held.old held.new) }
        ensures met { OnOk result (IfSome (V.content v.old) (λ c. (above : ℕ) → AllHeld (node_of_block c (place_of self.now.dir.now)) (kid_sought self.now.up.now self.now.name.now (node_of_block c (place_of self.now.dir.now)) levels above child) held.new)) }
        ensures same { V.content v.new ≡ V.content v.old }
        ensures kept { V.kept v.new ≡ V.kept v.old }
        ensures cause { FailsAsView (V.faults v.old) (V.faults v.new) result }
    {
        if levels == 0 {
            return Ok(());
        }
        let Some(node) = node_if_any(self.alloc, v, self.dir, child)? else {
            return Ok(());
        };
        self.entries(v, levels - 1, node.entries().as_slice(), held)?;
        hold(held, child, node)?;
        Ok(())
    }

    // Holds what hangs below an entry, if anything does.
    #[cycle(gathering)]
    fn below<V: View>(
        &self,
        v: &mut V,
        levels: u32,
        down: Option<u64>,
        held: &mut Held,
    ) -> Result<(), ViewFault>
        ensures right { OnOk result (IfSome (V.content v.old) (λ c. HoldsNodesOf (node_of_block c (place_of self.now.dir.now)) held.old → HoldsNodesOf (node_of_block c (place_of self.now.dir.now)) held.new)) }
        ensures stay { OnOk result (StayHeld held.old held.new) }
        ensures met { OnOk result (IfSome (V.content v.old) (λ c. (above : ℕ) → AllHeld (node_of_block c (place_of self.now.dir.now)) (below (kid_sought self.now.up.now self.now.name.now (node_of_block c (place_of self.now.dir.now)) levels above) down) held.new)) }
        ensures same { V.content v.new ≡ V.content v.old }
        ensures kept { V.kept v.new ≡ V.kept v.old }
        ensures cause { FailsAsView (V.faults v.old) (V.faults v.new) result }
    {
        match down {
            None => Ok(()),
            Some(child) => self.child(v, levels, child, held),
        }
    }

    // Holds what hangs below an entry that stands at this side, unless that is before the name.
    #[cycle(gathering)]
    fn beside<V: View>(
        &self,
        v: &mut V,
        levels: u32,
        side: Side,
        down: Option<u64>,
        held: &mut Held,
    ) -> Result<(), ViewFault>
        ensures right { OnOk result (IfSome (V.content v.old) (λ c. HoldsNodesOf (node_of_block c (place_of self.now.dir.now)) held.old → HoldsNodesOf (node_of_block c (place_of self.now.dir.now)) held.new)) }
        ensures stay { OnOk result (StayHeld held.old held.new) }
        ensures met { OnOk result (IfSome (V.content v.old) (λ c. (above : ℕ) → AllHeld (node_of_block c (place_of self.now.dir.now)) (beside side (below (kid_sought self.now.up.now self.now.name.now (node_of_block c (place_of self.now.dir.now)) levels above) down)) held.new)) }
        ensures same { V.content v.new ≡ V.content v.old }
        ensures kept { V.kept v.new ≡ V.kept v.old }
        ensures cause { FailsAsView (V.faults v.old) (V.faults v.new) result }
    {
        if side == Side::Before {
            return Ok(());
        }
        self.below(v, levels, down, held)
    }

    // Holds what a search meets below an entry, and answers where the entry stands.
    #[cycle(gathering)]
    fn entry<V: View>(
        &self,
        v: &mut V,
        levels: u32,
        entry: &Entry,
        held: &mut Held,
    ) -> Result<Side, ViewFault>
        ensures right { OnOk result (IfSome (V.content v.old) (λ c. HoldsNodesOf (node_of_block c (place_of self.now.dir.now)) held.old → HoldsNodesOf (node_of_block c (place_of self.now.dir.now)) held.new)) }
        ensures stay { OnOk result (StayHeld held.old held.new) }
        ensures met { OnOk result (IfSome (V.content v.old) (λ c. (above : ℕ) → AllHeld (node_of_block c (place_of self.now.dir.now)) (entry_sought (side_of self.now.up.now self.now.name.now (entry_link entry.now)) (entry_link entry.now) (below (kid_sought self.now.up.now self.now.name.now (node_of_block c (place_of self.now.dir.now)) levels above) entry.now.down)) held.new)) }
        ensures side { IfOk result (λ side. side ≡ side_of self.now.up.now self.now.name.now (entry_link entry.now)) }
        ensures same { V.content v.new ≡ V.content v.old }
        ensures kept { V.kept v.new ≡ V.kept v.old }
        ensures cause { FailsAsView (V.faults v.old) (V.faults v.new) result }
    {
        let link = entry_link(self.alloc, entry)?;
        let side = side_of(self.up, self.name, &link);
        self.beside(v, levels, side, entry.down, held)?;
        Ok(side)
    }

    // Holds what a search meets below the entries of a node, below which so many levels may lie.
    #[cycle(gathering)]
    fn entries<V: View>(
        &self,
        v: &mut V,
        levels: u32,
        entries: &[Entry],
        held: &mut Held,
    ) -> Result<(), ViewFault>
        ensures right { OnOk result (IfSome (V.content v.old) (λ c. HoldsNodesOf (node_of_block c (place_of self.now.dir.now)) held.old → HoldsNodesOf (node_of_block c (place_of self.now.dir.now)) held.new)) }
        ensures stay { OnOk result (StayHeld held.old held.new) }
        ensures met { OnOk result (IfSome (V.content v.old) (λ c. (above : ℕ) → AllHeld (node_of_block c (place_of self.now.dir.now)) (sought_in self.now.up.now self.now.name.now (node_of_block c (place_of self.now.dir.now)) levels above entries.now) held.new)) }
        ensures same { V.content v.new ≡ V.content v.old }
        ensures kept { V.kept v.new ≡ V.kept v.old }
        ensures cause { FailsAsView (V.faults v.old) (V.faults v.new) result }
    {
        for entry in entries {
            let side = self.entry(v, levels, entry, held)?;
            match side {
                Side::Behind => return Ok(()),
                _ => {}
            }
        }
        Ok(())
    }
}

/// The nodes below the root that a search for a name meets and that break no rule, each read once
/// more. Linear in their bytes.
pub fn gather<V: View>(
    alloc: Global,
    v: &mut V,
    dir: &DirPlace,
    up: &Upcase,
    name: &[u16],
    root: &EntryList,
) -> Result<Held, ViewFault>
    ensures right { IfSome (V.content v.old) (λ c. IfOk result (HoldsNodesOf (node_of_block c (place_of dir.now)))) }
    ensures met { IfSome (V.content v.old) (λ c. IfOk result (AllHeld (node_of_block c (place_of dir.now)) (sought_in up.now name.now (node_of_block c (place_of dir.now)) 15 root_vcn root.now))) }
    ensures same { V.content v.new ≡ V.content v.old }
    ensures kept { V.kept v.new ≡ V.kept v.old }
    ensures cause { FailsAsView (V.faults v.old) (V.faults v.new) result }
{
    let mut held = BTreeMap::new(alloc);
    let over = Gatherer {
        alloc,
        dir,
        up,
        name,
    };
    over.entries(v, LEVELS_BELOW, root.as_slice(), &mut held)?;
    Ok(held)
}
