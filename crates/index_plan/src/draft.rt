ghost use Rattle.std.specs.Prelude.{◌≡◌, ◌∷◌, [], OnOk, IfOk, MatchOption, reverse};
ghost use Rattle.index_plan.specs.Lists.{settle, step, rise};
ghost use Rattle.index_plan.specs.Takings.{drawn, key_of, plan_with};

use crate::frame::Frame;
use crate::node::{cut, fits, middle};
use crate::numbers::Numbers;
use crate::write::Write;
use index_model::Key;
use record_model::{Entry, EntryList};
use std::alloc::{AllocError, Global};
use std::marker::Model;

/// A plan while it is made: the nodes that it writes, and the fresh numbers that it may still take.
#[derive(Debug, Drop)]
pub struct Draft {
    writes: Vec<Write>,
    fresh: Vec<u64>,
}

impl Model for Draft {
    ghost use Rattle.std.specs.Prelude.{reverse};
    ghost use Rattle.index_plan.specs.Plans.{Plan};

    ghost Value = { Plan };

    ghost view = { λ d. record { writes = reverse d.writes.items; fresh = reverse d.fresh.items } };
}

impl Draft {
    /// A plan that writes nothing yet. The fresh VCNs, of blocks that aren't in use, are taken from
    /// the end.
    pub fn new(alloc: Global, fresh: Vec<u64>) -> Draft
        ensures { result ≡ record { writes = []; fresh = reverse fresh.items } }
    {
        Draft {
            writes: Vec::new(alloc),
            fresh,
        }
    }

    /// The nodes that are written, the last one at the end, and the fresh VCNs that are left.
    pub fn into_parts(self) -> (Vec<Write>, Vec<u64>)
        ensures writes { reverse result.0.items ≡ self.writes }
        ensures fresh { reverse result.1.items ≡ self.fresh }
    {
        let Draft { writes, fresh } = self;
        (writes, fresh)
    }

    pub(crate) fn write(&mut self, vcn: u64, entries: EntryList) -> Result<(), AllocError>
        ensures { OnOk result (self.new ≡ record { writes = record { vcn = vcn; entries = entries } ∷ self.old.writes; fresh = self.old.fresh }) }
    {
        self.writes.push(Write { vcn, entries })?;
        Ok(())
    }

    pub(crate) fn take_fresh(&mut self) -> Option<u64>
        ensures { MatchOption result ((self.old.fresh ≡ []) × (self.new ≡ self.old)) (λ f. (self.old.fresh ≡ f ∷ self.new.fresh) × (self.new.writes ≡ self.old.writes)) }
    {
        self.fresh.pop()
    }

    /// Gives a node its new entries: the node is written, or cut in two; then the node above takes
    /// an entry.
    #[tactic(auto, unfolding(crate::specs::Lists::settle))]
    pub(crate) fn settle(
        &mut self,
        alloc: Global,
        vcn: u64,
        node: EntryList,
    ) -> Result<Option<Entry>, AllocError>
        ensures { IfOk result (λ pending. settle vcn node self.old ≡ record { pending = pending; plan = self.new }) }
    {
        let mut node = node;
        let at = middle(&node);
        if fits(&node) || node.len() <= at + 1 {
            self.write(vcn, node)?;
            return Ok(None);
        }
        match self.take_fresh() {
            None => {
                self.write(vcn, node)?;
                Ok(None)
            }
            Some(fresh) => {
                let (left, key) = cut(alloc, &mut node, at)?;
                self.write(vcn, node)?;
                self.write(fresh, left)?;
                Ok(Some(Entry {
                    child: key.child,
                    key: key.value,
                    down: Some(fresh),
                }))
            }
        }
    }

    /// A node on the way takes what is pending.
    fn step(
        &mut self,
        alloc: Global,
        frame: Frame,
        pending: Option<Entry>,
    ) -> Result<Option<Entry>, AllocError>
        ensures { IfOk result (λ left. step frame (record { pending = pending; plan = self.old }) ≡ record { pending = left; plan = self.new }) }
    {
        let Some(entry) = pending else {
            return Ok(None);
        };
        let (vcn, mut node, at) = frame.into_parts();
        node.insert(at, entry)?;
        self.settle(alloc, vcn, node)
    }

    /// Takes what is pending up the way below the root.
    pub(crate) fn climb(
        &mut self,
        alloc: Global,
        path: Vec<Frame>,
        pending: Option<Entry>,
    ) -> Result<Option<Entry>, AllocError>
        ensures { IfOk result (λ left. rise path.items (record { pending = pending; plan = self.old }) ≡ record { pending = left; plan = self.new }) }
    {
        let mut path = path;
        let mut pending = pending;
        while let Some(frame) = path.pop() {
            pending = self.step(alloc, frame, pending)?;
        }
        Ok(pending)
    }

    /// Pulls the last key out of a chain of nodes, each of which hangs below the last entry of the
    /// one before it.
    pub(crate) fn pull(
        &mut self,
        alloc: Global,
        chain: Vec<Write>,
        freed: &mut Numbers,
    ) -> Result<Option<Key>, AllocError>
        ensures key { IfOk result (λ key. key ≡ key_of (drawn (record { taken = None; freed = freed.old }) chain.items).taken) }
        ensures plan { OnOk result (self.new ≡ plan_with self.old (drawn (record { taken = None; freed = freed.old }) chain.items).taken) }
        ensures freed { OnOk result (freed.new ≡ (drawn (record { taken = None; freed = freed.old }) chain.items).freed) }
    {
        let mut chain = chain;
        while let Some(link) = chain.pop() {
            let Write { vcn, mut entries } = link;
            if 1 < entries.len() {
                let at = entries.len() - 2;
                let (left, key) = cut(alloc, &mut entries, at)?;
                self.write(vcn, left)?;
                return Ok(Some(key));
            }
            freed.put(vcn)?;
        }
        Ok(None)
    }
}
