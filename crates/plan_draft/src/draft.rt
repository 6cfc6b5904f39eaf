//! A draft of a plan as a view.
ghost use Rattle.std.specs.Prelude.{◌≡◌, ◌*◌, [], true, All, IfErr, IfOk, IfSome, IsOk, OnOk, OnErr, is_some, length};
ghost use Rattle.std.specs.Option.{option_map, ForSome};
ghost use Rattle.block_view.specs.host_base.Causes.{HasCause};
ghost use Rattle.plan_bodies.specs.disk_model.Sectors.{sectors};
ghost use Rattle.block_view.specs.declared.fault.ViewFault.TheVariants.{Fault};
ghost use Rattle.block_view.specs.Changes.{Fits, content_after};
ghost use Rattle.block_view.specs.Views.{AsksView};
ghost use Rattle.plan_draft.specs.Touching.{keys_of, rises, IsWhole, IsOldOf, WouldStandAt, touched_at, touch, bodies_of, put_in_order};
ghost use Rattle.plan_draft.specs.Drafts.{drafted, KeptDraft};
ghost use Rattle.plan_draft.specs.Finishing.{changes_of, change_keys, WasOld};
ghost use Rattle.plan_draft.specs.Faults.{fault_cause};
ghost use Rattle.plan_draft.specs.Sizes.{sized_draft};

use crate::finishing::changes_of;
use crate::order::{find, locate};
use crate::putting::{first_touch, insert_at, touch_again};
use crate::touched::Touched;
use block_view::{Block, Body, Bytes, Change, View, ViewFault};
use std::alloc::{AllocError, Global};

/// A plan while it is made, over a view: each block that it touches once, in order of blocks, with
/// its body as it was in the view and as it is now. As a view it has these bodies in place of the
/// view's own, so that each step of the plan reads what the steps before it left.
#[derive(Drop)]
pub struct Draft<'a, V: View> {
    view: &'a mut V,
    touched: Vec<Touched>,
    // Room for a body that is read.
    room: Body,
    pub ghost rises: { rises 0 (keys_of touched.items) ≡ true },
    pub ghost whole: { All IsWhole touched.items },
    pub ghost olds: { ForSome (V.content view.now) (λ c. All (IsOldOf c) touched.items) },
}

impl<'a, V: View> Draft<'a, V> {
    /// A draft over this view that touches nothing yet, with room for a body. It takes no memory.
    pub fn new(alloc: Global, room: Body, view: &'a mut V) -> Self
        ensures touched { result.touched.items ≡ [] }
        ensures view { result.view.now ≡ view.entry.now }
        ensures reference { result.view.ghost_name ≡ view.entry.ghost_name }
    {
        Draft {
            view,
            touched: Vec::new(alloc),
            room,
        }
    }

    /// Whether a block is touched, by one search.
    pub fn is_touched(&self, block: Block) -> bool
        ensures { result ≡ is_some (touched_at self.now.touched.items block) }
    {
        find(&self.touched, block).is_some()
    }

    /// The changes that the draft comes to, in order of blocks: of each touched block the bytes
    /// from the first to the last one that differs, or its whole body where it was fresh or torn.
    /// The error is want of memory. It takes time and memory linear in the touched bodies.
    pub fn finish(&self, alloc: Global) -> Result<Vec<Change>, AllocError>
        ensures changes { IfOk result (λ changes. changes.items ≡ changes_of self.now.touched.items) }
        ensures fits { IfOk result (λ changes. All Fits changes.items) }
        ensures in_order { IfOk result (λ changes. rises 0 (change_keys changes.items) ≡ true) }
        ensures olds { IfOk result (λ changes. IfSome (V.content self.now.view.now) (λ c. All (WasOld c) changes.items)) }
        ensures content { IfOk result (λ changes. IfSome (V.content self.now.view.now) (λ c. content_after changes.items c ≡ drafted self.now.touched.items c)) }
    {
        changes_of(alloc, &self.touched)
    }

    /// The view that the draft was made over, as it left it: with this call the draft's owner knows of
    /// that view again. In constant time.
    pub fn into_view(self) -> &'a mut V
        ensures now { result.now ≡ self.entry.view.now }
        ensures reference { result.ghost_name ≡ self.entry.view.ghost_name }
    {
        let Draft { view, .. } = self;
        view
    }

    // Reads the old body of a block that wasn't touched, and puts these bytes into it.
    fn put_first(
        &mut self,
        alloc: Global,
        block: Block,
        fresh: bool,
        new: Bytes,
        at: usize,
    ) -> Result<(), ViewFault>
        requires size { length new ≡ 512 * sectors block.kind }
        requires place { WouldStandAt self.old.touched.items block at }
        ensures bodies { OnOk result (bodies_of self.new.touched.items ≡ put_in_order (record { block = block; bytes = new }) (bodies_of self.old.touched.items)) }
        ensures touched { OnOk result (IfSome (V.content self.old.view.now) (λ c. self.new.touched.items ≡ touch block fresh new (c block) self.old.touched.items)) }
        ensures unchanged { OnErr result (self.new.touched.items ≡ self.old.touched.items) }
        ensures asks { AsksView V.content V.kept V.faults fault_cause self.old.view.now self.new.view.now result }
        ensures reference { self.new.view.ghost_name ≡ self.old.view.ghost_name }
    {
        self.view.body(block, &mut self.room)?;
        let item = first_touch(alloc, block, fresh, new, &self.room)?;
        insert_at(&mut self.touched, at, item)?;
        Ok(())
    }

    /// Puts these bytes as the whole body of a block, in the place of what it was. `fresh` says
    /// that no stream had the block when the plan began, or that it lay wholly past the initialised
    /// size of its stream: then its change is of the whole body.
    ///
    /// - [`ViewFault::Fault`]: the view failed, which is asked where the block wasn't touched.
    /// - [`ViewFault::Memory`]: want of memory.
    ///
    /// After an error the draft is as it was. It takes one search among the touched blocks, and for
    /// a new one those behind it are moved by one place.
    pub fn put(
        &mut self,
        alloc: Global,
        block: Block,
        fresh: bool,
        bytes: &[u8],
    ) -> Result<(), ViewFault>
        requires size { length bytes.now ≡ 512 * sectors block.kind }
        ensures bodies { OnOk result (bodies_of self.new.touched.items ≡ put_in_order (record { block = block; bytes = bytes.now }) (bodies_of self.old.touched.items)) }
        ensures touched { OnOk result (IfSome (V.content self.old.view.now) (λ c. self.new.touched.items ≡ touch block fresh bytes.now (c block) self.old.touched.items)) }
        ensures unchanged { OnErr result (self.new.touched.items ≡ self.old.touched.items) }
        ensures asks { AsksView V.content V.kept V.faults fault_cause self.old.view.now self.new.view.now result }
        ensures reference { self.new.view.ghost_name ≡ self.old.view.ghost_name }
    {
        let new = Bytes::copy_of(alloc, bytes)?;
        match locate(&self.touched, block) {
            Ok(at) => {
                touch_again(&mut self.touched, at, fresh, new);
                Ok(())
            }
            Err(at) => self.put_first(alloc, block, fresh, new, at),
        }
    }
}

impl<'a, V: View> View for Draft<'a, V> {
    ghost content = { λ d. option_map (drafted d.touched.items) (V.content d.view.now) };

    ghost faults = { λ d. V.faults d.view.now };

    ghost Kept = { KeptDraft V.Kept };

    ghost kept = { λ d. record { reference = d.view.ghost_name; content = V.content d.view.now; kept = V.kept d.view.now; touched = d.touched.items } };

    /// One search among the touched blocks, by halves, or the view's body: for a block that was
    /// touched the view isn't asked, so that it can't fail.
    fn body(&mut self, block: Block, out: &mut Body) -> Result<(), ViewFault>
        ensures body { OnOk result (IfSome (⟦<Draft<'a, V> as View>⟧.content self.old) (λ c. out.new ≡ c block)) }
        ensures size { OnOk result (length out.new.bytes ≡ 512 * sectors block.kind) }
        ensures fault { IfErr result (λ e. e ≡ Fault) }
        ensures same { ⟦<Draft<'a, V> as View>⟧.content self.new ≡ ⟦<Draft<'a, V> as View>⟧.content self.old }
        ensures kept { ⟦<Draft<'a, V> as View>⟧.kept self.new ≡ ⟦<Draft<'a, V> as View>⟧.kept self.old }
        ensures cause { HasCause (⟦<Draft<'a, V> as View>⟧.faults self.old) (⟦<Draft<'a, V> as View>⟧.faults self.new) result }
        ensures held { IfSome (touched_at self.old.touched.items block) (λ _. IsOk result × (self.new.view.now ≡ self.old.view.now)) }
    {
        match find(&self.touched, block) {
            Some(touched) => {
                out.set(touched.new.as_slice(), false);
                Ok(())
            }
            None => self.view.body(block, out),
        }
    }

    ghost sized = { λ d. sized_draft d.touched.items (V.content d.view.now) (V.sized d.view.now) };
}
