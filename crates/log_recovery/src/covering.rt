//! Whether entries cover a block whole.
ghost use Rattle.std.specs.Prelude.{◌≡◌, ◌+◌, ◌*◌, ◌≤◌, ◌||◌, ◌&&◌, ℕ, Bool, false, nat_le, nat_lt, get_or, length, replicate, All, IfOk};
ghost use Rattle.std.specs.List.{list_all};
ghost use Rattle.log_reading.specs.disk_model.Sectors.{sectors};
ghost use Rattle.log_model.specs.Logs.{covers, is_covered_whole};
ghost use Rattle.log_recovery.specs.Blocks.{LiesInside};
ghost use Rattle.log_recovery.specs.Groups.{lent, LentLies};

use crate::updates::block_of_kind;
use log_model::{Act, Entry};
use log_reading::Block;
use std::alloc::{AllocError, Global};

// Marks `count` places from `at` on.
fn mark(marks: &mut [bool], at: usize, count: usize)
    requires { at + count ≤ length marks.old }
    ensures size { length marks.new ≡ length marks.old }
    ensures marks { (i : ℕ) → get_or marks.new i false ≡ (get_or marks.old i false || (nat_le at i && nat_lt i (at + count))) }
{
    for i in at..at + count {
        marks[i] = true;
    }
}

// Marks the bytes of the block that it covers.
fn mark_act(block: Block, act: &Act, marks: &mut [bool])
    requires lies { LiesInside act.now }
    requires size { length marks.old ≡ 512 * sectors block.kind }
    ensures size { length marks.new ≡ 512 * sectors block.kind }
    ensures marks { (i : ℕ) → get_or marks.new i false ≡ (get_or marks.old i false || covers block i act.now) }
{
    if let Act::Update {
        first,
        kind,
        at,
        redo,
        ..
    } = act
    {
        if block == block_of_kind(*first, *kind) {
            mark(marks, *at as usize, redo.len());
        }
    }
}

fn are_all_marked(marks: &[bool]) -> bool
    ensures { result ≡ list_all (λ m. m) marks.now }
{
    marks.iter().all(|mark| *mark)
}

// The same, where no byte is marked yet.
fn all_covered(entries: &[&Entry], block: Block, marks: &mut [bool]) -> bool
    requires lies { All LentLies entries.now }
    requires size { length marks.old ≡ 512 * sectors block.kind }
    requires none { (i : ℕ) → get_or marks.old i false ≡ false }
    ensures { result ≡ is_covered_whole (lent entries.now) block }
{
    for entry in entries {
        mark_act(block, &entry.act, marks);
    }
    are_all_marked(marks)
}

// So many marks that are false.
fn no_marks(alloc: Global, count: usize) -> Result<Vec<bool>, AllocError>
    ensures { IfOk result (λ marks. marks.items ≡ replicate count false) }
{
    vec![in alloc; false; count]
}

/// Whether the entries cover each byte of the block. The error is want of memory. Linear in the
/// number of the entries, in the bytes of those of the block, and in its size.
pub fn is_covered_whole(alloc: Global, entries: &[&Entry], block: Block) -> Result<bool, AllocError>
    requires { All LentLies entries.now }
    ensures { IfOk result (λ whole. whole ≡ is_covered_whole (lent entries.now) block) }
{
    let mut marks = no_marks(alloc, 512 * block.kind.sectors())?;
    Ok(all_covered(entries, block, marks.as_mut_slice()))
}
