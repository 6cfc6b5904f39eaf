ghost use Rattle.std.specs.Prelude.{◌≡◌, ℕ, ◌+◌, ◌-◌, ◌*◌, ◌/◌, ◌^◌, ◌<◌, ◌≤◌, ◌⊎◌, Bool, false, List, IfOk, IfSome, length, slice_index_or, vec_len};
ghost use Rattle.bit_set.specs.Words.{word_bit};
ghost use Rattle.bit_set.specs.Summaries.{IsSummary, IsMet, IsFoundIn};
ghost use Rattle.bit_set.specs.Trees.{nothing, node, IsNode, IsTree};

use crate::summary::{Met, Run, Summary, Wanted, merge, none_from, scan};
use std::alloc::{AllocError, Global};

/// The bits of a block, of which the tree has a summary.
pub const BLOCK_BITS: u64 = 1024;

// How many blocks a node of this level stands for.
fn blocks_at(level: u32) -> u64
    requires { level ≤ 54 }
    ensures { result ≡ 2 ^ level }
{
    1 << level
}

// The least level whose node stands for so many blocks, or 54.
pub fn levels_over(blocks: u64) -> u32
    ensures { result ≤ 54 }
{
    for level in 0..54 {
        if blocks_at(level) >= blocks {
            return level;
        }
    }
    54
}

// Over how many blocks the tree is.
fn blocks_in(tree: &[Summary]) -> u64
    ensures { result ≡ length tree.now / 2 }
{
    (tree.len() / 2) as u64
}

// Where the tree holds the summary of so many blocks from this one on: each node stands between
// those of its halves.
fn place_of(start: u64, size: u64) -> usize
    requires some { 0 < size }
    requires small { start + size ≤ 2 ^ 55 }
    ensures { result ≡ 2 * start + size - 1 }
{
    (2 * start + size - 1) as usize
}

// The summary of a block, from its words.
fn summary_of(words: &[u64], start: u64) -> Summary
    requires within { 1024 * (start + 1) ≤ 64 * length words.now }
    requires small { 1024 * (start + 1) < 2 ^ 64 }
    ensures { IsSummary (word_bit words.now) (1024 * start) (1024 * (start + 1)) result }
{
    let from = BLOCK_BITS * start;
    let want = Wanted {
        len: BLOCK_BITS,
        end: from + BLOCK_BITS,
    };
    scan(
        words,
        Met {
            to: from,
            runs: none_from(from),
        },
        want,
    )
    .runs
}

// Mends the summary of one block.
fn mend_block(words: &[u64], tree: &mut [Summary], start: u64)
    requires inside { start + 1 ≤ length tree.old / 2 }
    requires within { 512 * length tree.old ≤ 64 * length words.now }
    requires small { 512 * length tree.old < 2 ^ 64 }
    ensures same_count { length tree.new ≡ length tree.old }
    ensures others { (i : ℕ) → (i < 2 * start) ⊎ (2 * start + 2 ≤ i + 1)
        → slice_index_or tree.new i nothing ≡ slice_index_or tree.old i nothing }
    ensures mended { IsSummary (word_bit words.now) (1024 * start) (1024 * (start + 1)) (node tree.new start 1) }
{
    tree[place_of(start, 1)] = summary_of(words, start);
}

// Mends the summary over two of so many blocks each, from theirs, if the tree is over them.
fn mend_node(tree: &mut [Summary], start: u64, half: u64)
    requires some { 0 < half }
    requires start { start + (half + half) ≤ 2 ^ 55 }
    requires small { 512 * length tree.old < 2 ^ 64 }
    ensures same_count { length tree.new ≡ length tree.old }
    ensures others { (i : ℕ) → (i < 2 * start + (half + half) - 1) ⊎ (2 * start + (half + half) - 1 < i)
        → slice_index_or tree.new i nothing ≡ slice_index_or tree.old i nothing }
    ensures mended { (f : ℕ → Bool) → start + (half + half) ≤ length tree.old / 2
        → IsSummary f (1024 * start) (1024 * (start + half)) (node tree.old start half)
        → IsSummary f (1024 * (start + half)) (1024 * (start + half + half)) (node tree.old (start + half) half)
        → IsSummary f (1024 * start) (1024 * (start + (half + half))) (node tree.new start (half + half)) }
{
    if start + 2 * half > blocks_in(tree) {
        return;
    }
    let left = tree[place_of(start, half)];
    let right = tree[place_of(start + half, half)];
    tree[place_of(start, half + half)] = merge(left, BLOCK_BITS * (start + half), right);
}

// Mends the node of this level and all below it, where bits of the blocks from `first` on, below
// `end`, have changed.
pub fn mend(words: &[u64], tree: &mut [Summary], level: u32, start: u64, first: u64, end: u64)
    requires level { level ≤ 54 }
    requires start { start + 2 ^ level ≤ 2 ^ 55 }
    requires within { 512 * length tree.old ≤ 64 * length words.now }
    requires small { 512 * length tree.old < 2 ^ 64 }
    requires end { end ≤ length tree.old / 2 }
    ensures same_count { length tree.new ≡ length tree.old }
    ensures others { (i : ℕ) → (i < 2 * start) ⊎ (2 * start + 2 * 2 ^ level ≤ i + 1)
        → slice_index_or tree.new i nothing ≡ slice_index_or tree.old i nothing }
    ensures mended { IsTree (word_bit words.now) tree.old first end level start
        → IsTree (word_bit words.now) tree.new 0 0 level start }
{
    if start + blocks_at(level) <= first {
        return;
    }
    if end <= start {
        return;
    }
    if level == 0 {
        mend_block(words, tree, start);
        return;
    }
    let half = blocks_at(level - 1);
    mend(words, tree, level - 1, start, first, end);
    mend(words, tree, level - 1, start + half, first, end);
    mend_node(tree, start, half);
}

// Mends the tree where the bits from `first` on, below `end`, have changed.
pub fn mend_run(words: &[u64], tree: &mut [Summary], levels: u32, first: u64, end: u64)
    requires few { levels ≤ 54 }
    requires within { 512 * length tree.old ≤ 64 * length words.now }
    requires small { 512 * length tree.old < 2 ^ 64 }
    ensures same_count { length tree.new ≡ length tree.old }
    ensures mended { (old : List ℕ) → ((i : ℕ) → (i < first) ⊎ (end ≤ i) → word_bit words.now i ≡ word_bit old i)
        → IsTree (word_bit old) tree.old 0 0 levels 0 → IsTree (word_bit words.now) tree.new 0 0 levels 0 }
{
    let last = end.div_ceil(BLOCK_BITS).min(blocks_in(tree));
    mend(words, tree, levels, 0, first / BLOCK_BITS, last);
}

// The tree over so many blocks of the words.
pub fn tree_over(
    alloc: Global,
    words: &[u64],
    blocks: u64,
    levels: u32,
) -> Result<Vec<Summary>, AllocError>
    requires few { levels ≤ 54 }
    requires within { 1024 * blocks ≤ 64 * length words.now }
    requires small { 1024 * blocks < 2 ^ 64 }
    ensures count { IfOk result (λ tree. vec_len tree ≡ 2 * blocks) }
    ensures right { IfOk result (λ tree. IsTree (word_bit words.now) tree.items 0 0 levels 0) }
{
    let mut tree = vec![in alloc; none_from(0); 2 * blocks as usize]?;
    mend(words, &mut tree, levels, 0, 0, blocks);
    Ok(tree)
}

// The search past a whole node, if it begins where the search stands, ends in the range, and
// brings no run that is long enough.
fn pass(tree: &[Summary], start: u64, size: u64, met: Met, want: Wanted) -> Option<Met>
    requires some { 0 < size }
    requires start { start + size ≤ 2 ^ 55 }
    requires small { 512 * length tree.now < 2 ^ 64 }
    ensures order { IfSome result (λ next. next.to ≤ want.end) }
    ensures met { IfSome result (λ next. (f : ℕ → Bool) (from : ℕ) → IsNode f tree.now 0 0 start size
        → IsMet f from want.len met → IsMet f from want.len next) }
{
    if start + size > blocks_in(tree) {
        return None;
    }
    let to = BLOCK_BITS * (start + size);
    if met.to != BLOCK_BITS * start || want.end < to {
        return None;
    }
    let runs = merge(met.runs, met.to, tree[place_of(start, size)]);
    if want.len <= runs.longest.len {
        return None;
    }
    Some(Met { to, runs })
}

// The search to the end of a block, word for word.
fn scan_block(words: &[u64], start: u64, met: Met, want: Wanted) -> Met
    requires before { met.to ≤ 1024 * (start + 1) }
    requires small { 1024 * (start + 1) < 2 ^ 64 }
    requires order { met.to ≤ want.end }
    requires within { want.end ≤ 64 * length words.now }
    ensures order { result.to ≤ want.end }
    ensures met { (from : ℕ) → IsMet (word_bit words.now) from want.len met
        → IsMet (word_bit words.now) from want.len result }
{
    let end = want.end.min(BLOCK_BITS * (start + 1));
    scan(words, met, Wanted { len: want.len, end })
}

// Whether the search has nothing to do in so many blocks from this one on.
fn is_past(blocks: u64, start: u64, size: u64, met: Met, want: Wanted) -> bool
    requires { start + size ≤ 2 ^ 55 }
    ensures { result ≡ false → (start < blocks) × (met.to < 1024 * (start + size)) }
{
    blocks <= start
        || start + size <= met.to / BLOCK_BITS
        || want.end <= met.to
        || want.len <= met.runs.longest.len
}

// The search through the blocks of a node.
fn walk(words: &[u64], tree: &[Summary], level: u32, start: u64, met: Met, want: Wanted) -> Met
    requires level { level ≤ 54 }
    requires start { start + 2 ^ level ≤ 2 ^ 55 }
    requires small { 512 * length tree.now < 2 ^ 64 }
    requires order { met.to ≤ want.end }
    requires within { want.end ≤ 64 * length words.now }
    ensures order { result.to ≤ want.end }
    ensures met { (from : ℕ) → IsTree (word_bit words.now) tree.now 0 0 level start
        → IsMet (word_bit words.now) from want.len met → IsMet (word_bit words.now) from want.len result }
{
    let size = blocks_at(level);
    if is_past(blocks_in(tree), start, size, met, want) {
        return met;
    }
    if let Some(next) = pass(tree, start, size, met, want) {
        return next;
    }
    if level == 0 {
        return scan_block(words, start, met, want);
    }
    let half = blocks_at(level - 1);
    let left = walk(words, tree, level - 1, start, met, want);
    walk(words, tree, level - 1, start + half, left, want)
}

// A clear run of the range: the first of so many bits, or else the longest. The tree is over its
// words but for the last ones.
pub fn search(words: &[u64], tree: &[Summary], levels: u32, from: u64, want: Wanted) -> Run
    requires few { levels ≤ 54 }
    requires small { 512 * length tree.now < 2 ^ 64 }
    requires order { from ≤ want.end }
    requires within { want.end ≤ 64 * length words.now }
    ensures { IsTree (word_bit words.now) tree.now 0 0 levels 0
        → IsFoundIn (word_bit words.now) from want.end want.len result.first result.len }
{
    let met = walk(
        words,
        tree,
        levels,
        0,
        Met {
            to: from,
            runs: none_from(from),
        },
        want,
    );
    scan(words, met, want).runs.longest
}
