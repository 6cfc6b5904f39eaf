//! Bytes that a draft puts into blocks and streams.
ghost use Rattle.std.specs.Prelude.{◌≡◌, ◌+◌, ◌*◌, ◌<◌, ◌≤◌, ◌^◌, IfSome, OnOk, OnErr, length};
ghost use Rattle.plan_bodies.specs.disk_model.Bytes.{written};
ghost use Rattle.plan_bodies.specs.disk_model.Sectors.{sectors};
ghost use Rattle.block_view.specs.Views.{AsksView};
ghost use Rattle.plan_draft.specs.Touching.{bodies_of, touch};
ghost use Rattle.plan_draft.specs.Writing.{present, put_part};
ghost use Rattle.plan_draft.specs.Faults.{fault_cause};

use crate::draft::Draft;
use block_view::{Block, Body, View, ViewFault};
use std::alloc::Global;

impl<'a, V: View> Draft<'a, V> {
    // What a block has for the plan: a fresh one has zeros until it is put.
    fn present(&mut self, block: Block, fresh: bool, out: &mut Body) -> Result<(), ViewFault>
        ensures bytes { OnOk result (IfSome (V.content self.old.view.now) (λ c. out.new.bytes ≡ present c (bodies_of self.old.touched.items) block fresh)) }
        ensures size { OnOk result (length out.new.bytes ≡ 512 * sectors block.kind) }
        ensures touched { self.new.touched.items ≡ self.old.touched.items }
        ensures asks { AsksView V.content V.kept V.faults fault_cause self.old.view.now self.new.view.now result }
        ensures reference { self.new.view.ghost_name ≡ self.old.view.ghost_name }
    {
        if fresh && !self.is_touched(block) {
            out.set_zeros(512 * block.kind.sectors());
            return Ok(());
        }
        self.body(block, out)
    }

    /// Puts these bytes over those of a block from `offset` on, over zeros where it is fresh and
    /// wasn't touched; `fresh` as in [`Draft::put`].
    ///
    /// - [`ViewFault::Fault`]: the view failed, which is asked where the block wasn't touched.
    /// - [`ViewFault::Memory`]: want of memory.
    ///
    /// After an error the draft is as it was. It takes a look-up, a [`Draft::put`], and time linear
    /// in the body.
    pub fn put_part(
        &mut self,
        alloc: Global,
        block: Block,
        fresh: bool,
        offset: usize,
        bytes: &[u8],
    ) -> Result<(), ViewFault>
        requires inside { offset + length bytes.now ≤ 512 * sectors block.kind }
        ensures touched { OnOk result (IfSome (V.content self.old.view.now) (λ c. self.new.touched.items ≡ touch block fresh (written offset bytes.now (present c (bodies_of self.old.touched.items) block fresh)) (c block) self.old.touched.items)) }
        ensures bodies { OnOk result (IfSome (V.content self.old.view.now) (λ c. bodies_of self.new.touched.items ≡ put_part c block fresh offset bytes.now (bodies_of self.old.touched.items))) }
        ensures unchanged { OnErr result (self.new.touched.items ≡ self.old.touched.items) }
        ensures asks { AsksView V.content V.kept V.faults fault_cause self.old.view.now self.new.view.now result }
        ensures reference { self.new.view.ghost_name ≡ self.old.view.ghost_name }
    {
        let mut body = Body::empty(alloc)?;
        self.present(block, fresh, &mut body)?;
        body.put(offset, bytes);
        self.put(alloc, block, fresh, body.bytes())
    }
}
