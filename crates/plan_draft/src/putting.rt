//! Bodies that are put into touched blocks.
ghost use Rattle.std.specs.Prelude.{◌≡◌, ◌<◌, ◌≤◌, IfOk, OnOk, OnErr, insert, vec_len};
ghost use Rattle.plan_draft.specs.Touching.{again_at, first_touch};

use crate::touched::Touched;
use block_view::{Block, Body, Bytes};
use std::alloc::{AllocError, Global};

// Makes these bytes the present body of the block at this place. One that was fresh stays so.
pub fn touch_again(touched: &mut Vec<Touched>, at: usize, fresh: bool, new: Bytes)
    requires { at < vec_len touched.old }
    ensures { touched.new.items ≡ again_at at fresh new touched.old.items }
{
    let item = &mut touched[at];
    item.new = new;
    if fresh {
        item.fresh = true;
    }
}

// What is kept of a block that is touched for the first time.
pub fn first_touch(
    alloc: Global,
    block: Block,
    fresh: bool,
    new: Bytes,
    old: &Body,
) -> Result<Touched, AllocError>
    ensures { IfOk result (λ t. t ≡ first_touch block fresh new old.now) }
{
    Ok(Touched {
        block,
        old: Bytes::copy_of(alloc, old.bytes())?,
        torn: old.torn(),
        fresh,
        new,
    })
}

// A block more, at this place.
pub fn insert_at(touched: &mut Vec<Touched>, at: usize, item: Touched) -> Result<(), AllocError>
    requires { at ≤ vec_len touched.old }
    ensures put { OnOk result (touched.new.items ≡ insert touched.old.items at item) }
    ensures unchanged { OnErr result (touched.new.items ≡ touched.old.items) }
{
    touched.insert(at, item)?;
    Ok(())
}
