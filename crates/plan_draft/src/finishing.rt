//! The changes of a finished draft.
ghost use Rattle.std.specs.Prelude.{◌≡◌, ◌*◌, ◌≤◌, ◌++◌, All, IfOk, OnOk, length};
ghost use Rattle.plan_draft.specs.Touching.{IsWhole};
ghost use Rattle.plan_draft.specs.Finishing.{same_front, differ_end, change_start, change_end, change_of, changes_in, changes_of};

use crate::touched::Touched;
use block_view::{Bytes, Change};
use std::alloc::{AllocError, Global};

// How many bytes at the front are the same.
fn same_front(old: &[u8], new: &[u8]) -> usize
    requires { length old.now ≡ length new.now }
    ensures value { result ≡ same_front old.now new.now }
    ensures within { result ≤ length new.now }
{
    let mut at = 0;
    while at < new.len() && old[at] == new[at] {
        at += 1;
    }
    at
}

// The place behind the last byte that differs, or 0.
#[tactic(auto, unfolding(crate::specs::Finishing::differ_end))]
fn differ_end(old: &[u8], new: &[u8]) -> usize
    requires { length old.now ≡ length new.now }
    ensures value { result ≡ differ_end old.now new.now (length new.now) }
    ensures within { result ≤ length new.now }
{
    let mut end = new.len();
    while end > 0 && old[end - 1] == new[end - 1] {
        end -= 1;
    }
    end
}

// Where the change of a touched block begins, and where it ends.
fn range_of(touched: &Touched) -> (usize, usize)
    requires { IsWhole touched.now }
    ensures start { result.0 ≡ change_start touched.now }
    ensures end { result.1 ≡ change_end touched.now }
    ensures within { result.1 ≤ length touched.now.new }
{
    let new = touched.new.as_slice();
    if touched.fresh || touched.torn {
        (0, new.len())
    } else {
        let old = touched.old.as_slice();
        (same_front(old, new), differ_end(old, new))
    }
}

// The change of these bytes.
fn change_of(
    alloc: Global,
    touched: &Touched,
    start: usize,
    end: usize,
) -> Result<Change, AllocError>
    requires whole { IsWhole touched.now }
    requires order { start ≤ end }
    requires within { end ≤ length touched.now.new }
    ensures { IfOk result (λ change. change ≡ change_of touched.now start end) }
{
    Ok(Change {
        block: touched.block,
        offset: start as u32,
        old: Bytes::copy_of(alloc, &touched.old.as_slice()[start..end])?,
        new: Bytes::copy_of(alloc, &touched.new.as_slice()[start..end])?,
    })
}

// Adds the change of a touched block, if something differs.
fn push_change(
    alloc: Global,
    touched: &Touched,
    changes: &mut Vec<Change>,
) -> Result<(), AllocError>
    requires { IsWhole touched.now }
    ensures { OnOk result (changes.new.items ≡ changes.old.items ++ changes_in touched.now) }
{
    let (start, end) = range_of(touched);
    if start < end {
        changes.push(change_of(alloc, touched, start, end)?)?;
    }
    Ok(())
}

// The changes of the touched blocks, in their order.
pub fn changes_of(alloc: Global, touched: &[Touched]) -> Result<Vec<Change>, AllocError>
    requires { All IsWhole touched.now }
    ensures { IfOk result (λ changes. changes.items ≡ changes_of touched.now) }
{
    let mut changes = Vec::new(alloc);
    for item in touched {
        push_change(alloc, item, &mut changes)?;
    }
    Ok(changes)
}
