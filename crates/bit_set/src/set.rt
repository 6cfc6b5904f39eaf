ghost use Rattle.std.specs.Prelude.{◌≡◌, ℕ, ◌+◌, ◌<◌, ◌≤◌, ◌≢◌, not, true, false, if◌then◌else◌, List, length, count_by, IfOk, MatchOption};
ghost use Rattle.bit_set.specs.Bits.{bit, IsClearRun, IsFirstRun, IsFirstRunIn, IsLongestRun, IsLongestRunIn, IsLowestClear, IsFound, PutsRun};
ghost use Rattle.bit_set.specs.Words.{bits_of_bytes};

use crate::summary::{Run, Summary, Wanted};
use crate::tree::{BLOCK_BITS, levels_over, mend_run, search, tree_over};
use crate::words::{WORD_BITS, clear_between, fill, is_set, run_end, words_of};
use host_base::Memory;
use std::alloc::Global;
use std::marker::Model;

/// A bitmap, which contracts see as the list of its bits.
#[derive(Debug, Drop)]
pub struct BitSet {
    words: Vec<u64>,
    bits: u64,
    clear: u64,
    levels: u32,
    tree: Vec<Summary>,
}

impl Model for BitSet {
    ghost use Rattle.std.specs.Prelude.{Bool, List};
    ghost use Rattle.bit_set.specs.Words.{bits_of};
    ghost use Rattle.bit_set.specs.Trees.{IsKept};

    ghost Value = { List Bool };

    ghost view = { λ s. bits_of s.words.items s.bits };

    ghost invariant = { λ s. IsKept s.words.items s.bits s.clear s.levels s.tree.items };
}

// How many bits of so many are clear where all have this value.
fn clear_of(len: u64, value: bool) -> u64
    ensures { result ≡ (if value then 0 else len) }
{
    if value { 0 } else { len }
}

impl BitSet {
    /// The first `bits` bits of the bytes, counted from the low bit of the first byte; a bit past
    /// the bytes is clear. The error is want of memory. It takes time linear in the bits.
    pub fn from_bytes(alloc: Global, bytes: &[u8], bits: u64) -> Result<BitSet, Memory>
        ensures { IfOk result (λ set. set ≡ bits_of_bytes bytes.now bits) }
    {
        let words = words_of(alloc, bytes, bits.div_ceil(WORD_BITS) as usize)?;
        let clear = clear_between(&words, 0, bits);
        let blocks = bits / BLOCK_BITS;
        let levels = levels_over(blocks);
        let tree = tree_over(alloc, &words, blocks, levels)?;
        Ok(BitSet {
            words,
            bits,
            clear,
            levels,
            tree,
        })
    }

    /// How many bits there are.
    pub fn bits(&self) -> u64
        ensures { result ≡ length self.now }
    {
        self.bits
    }

    /// Whether the bit is set; a bit past the end is clear.
    pub fn test(&self, number: u64) -> bool
        ensures { result ≡ bit self.now number }
    {
        number < self.bits && is_set(&self.words, number)
    }

    /// How many bits are clear; this is kept, not counted.
    pub fn count_clear(&self) -> u64
        ensures { result ≡ count_by not self.now }
    {
        self.clear
    }

    /// Sets `len` bits from `first` on, in O(words of the run + log bits).
    pub fn set_run(&mut self, first: u64, len: u64)
        requires { first + len ≤ length self.old }
        ensures { PutsRun self.old self.new first len true }
    {
        self.put_run(first, len, true);
    }

    /// Clears `len` bits from `first` on, in O(words of the run + log bits).
    pub fn clear_run(&mut self, first: u64, len: u64)
        requires { first + len ≤ length self.old }
        ensures { PutsRun self.old self.new first len false }
    {
        self.put_run(first, len, false);
    }

    // Gives the run's bits this value.
    fn put_run(&mut self, first: u64, len: u64, value: bool)
        requires { first + len ≤ length self.old }
        ensures { PutsRun self.old self.new first len value }
    {
        let was_clear = clear_between(&self.words, first, first + len);
        fill(&mut self.words, first, first + len, value);
        mend_run(&self.words, &mut self.tree, self.levels, first, first + len);
        self.clear = self.clear - was_clear + clear_of(len, value);
    }

    // A clear run of the range: the first of so many bits, or else the longest.
    fn search(&self, from: u64, want: Wanted) -> Run
        requires order { from ≤ want.end }
        requires within { want.end ≤ length self.now }
        ensures { IsFound self.now from want.end want.len result.first result.len }
    {
        search(&self.words, &self.tree, self.levels, from, want)
    }

    /// The first bit of the lowest run of `len` clear bits that begins at `from` or behind it and
    /// ends at `end` or before it, or None where there is no such run. It takes O(log bits).
    pub fn first_run_in(&self, len: u64, from: u64, end: u64) -> Option<u64>
        ensures { MatchOption result
            ((first : ℕ) → from ≤ first → first + len ≤ end → IsClearRun self.now first len → ⊥)
            (λ first. IsFirstRunIn self.now len from end first) }
    {
        let last = end.min(self.bits());
        if last < from {
            return None;
        }
        let run = self.search(from, Wanted { len, end: last });
        if run.len < len {
            return None;
        }
        Some(run.first)
    }

    /// The first bit and the length of the longest run of clear bits from `from` on, below `end`,
    /// the lowest of equal ones, or None where no bit there is clear. It takes O(log bits).
    pub fn longest_in(&self, from: u64, end: u64) -> Option<(u64, u64)>
        ensures { MatchOption result
            ((i : ℕ) → from ≤ i → i < end → i < length self.now → bit self.now i ≡ true)
            (λ run. IsLongestRunIn self.now from end run.0 run.1) }
    {
        let last = end.min(self.bits());
        if last <= from {
            return None;
        }
        let run = self.search(
            from,
            Wanted {
                len: last - from,
                end: last,
            },
        );
        if run.len == 0 {
            return None;
        }
        Some((run.first, run.len))
    }

    /// The first bit of the lowest run of `len` clear bits, or None where there is no such run. It
    /// takes O(log bits).
    pub fn first_run(&self, len: u64) -> Option<u64>
        ensures { MatchOption result
            ((first : ℕ) → IsClearRun self.now first len → ⊥)
            (λ first. IsFirstRun self.now len first) }
    {
        self.first_run_in(len, 0, self.bits())
    }

    /// The first bit and the length of the longest run of clear bits, the lowest of equal ones, or
    /// None where no bit is clear. It takes O(log bits).
    pub fn longest(&self) -> Option<(u64, u64)>
        ensures { MatchOption result
            ((i : ℕ) → i < length self.now → bit self.now i ≡ true)
            (λ run. IsLongestRun self.now run.0 run.1) }
    {
        self.longest_in(0, self.bits())
    }

    // The lowest clear bit from `from` on, if it is among the next 1,024 bits, as it mostly is.
    fn lowest_near(&self, from: u64) -> Option<u64>
        ensures { MatchOption result
            ((i : ℕ) → from ≤ i → i < from + 1024 → i < length self.now → bit self.now i ≡ true)
            (λ at. IsLowestClear self.now from at) }
    {
        let end = self.bits.min(from.saturating_add(BLOCK_BITS));
        if end <= from {
            return None;
        }
        let at = run_end(&self.words, from, end, true);
        if end <= at {
            return None;
        }
        Some(at)
    }

    /// The lowest clear bit from `from` on, or None where there is none. It takes O(log bits).
    pub fn lowest(&self, from: u64) -> Option<u64>
        ensures { MatchOption result
            ((i : ℕ) → from ≤ i → i < length self.now → bit self.now i ≡ true)
            (λ at. IsLowestClear self.now from at) }
    {
        if let Some(at) = self.lowest_near(from) {
            return Some(at);
        }
        self.first_run_in(1, from, self.bits())
    }
}
