ghost use Rattle.std.specs.Prelude.{◌≡◌, ℕ, ◌+◌, ◌-◌, ◌*◌, ◌<◌, ◌≤◌, ◌⊎◌, ◌==◌, if◌then◌else◌, Bool, true, false, length};
ghost use Rattle.bit_set.specs.Words.{word_bit};
ghost use Rattle.bit_set.specs.Summaries.{IsSummary, IsMet};

use crate::words::run_end;

// A run of clear bits.
#[derive(Clone, Copy, Debug)]
pub struct Run {
    pub first: u64,
    pub len: u64,
}

// The clear runs of a part: where the one at its begin ends, where the one at its end begins, and
// the longest, the lowest of equal ones.
#[derive(Clone, Copy, Debug)]
pub struct Summary {
    pub front: u64,
    pub back: u64,
    pub longest: Run,
}

// How far a search has come, and the clear runs of what it has met.
#[derive(Clone, Copy)]
pub struct Met {
    pub to: u64,
    pub runs: Summary,
}

// A run of how many bits is looked for, and where the search ends.
#[derive(Clone, Copy)]
pub struct Wanted {
    pub len: u64,
    pub end: u64,
}

// The longer run, and the first of equal ones.
fn longer(a: Run, b: Run) -> Run
    ensures second { a.len < b.len → result ≡ b }
    ensures first { b.len ≤ a.len → result ≡ a }
{
    if a.len < b.len { b } else { a }
}

// This number where two are the same, and the other where they differ.
fn where_same(a: u64, b: u64, same: u64, other: u64) -> u64
    ensures same { a ≡ b → result ≡ same }
    ensures other { (a < b) ⊎ (b < a) → result ≡ other }
{
    if a == b { same } else { other }
}

// The run that crosses from one part to the next.
fn across(left: Summary, right: Summary) -> Run
    ensures first { result.first ≡ left.back }
    ensures len { result.len ≡ right.front - left.back }
{
    Run {
        first: left.back,
        len: right.front.saturating_sub(left.back),
    }
}

// The summary of two parts that meet in the middle.
pub fn merge(left: Summary, middle: u64, right: Summary) -> Summary
    ensures { (f : ℕ → Bool) (from to : ℕ) → IsSummary f from middle left → IsSummary f middle to right
        → IsSummary f from to result }
{
    Summary {
        front: where_same(left.front, middle, right.front, left.front),
        back: where_same(right.back, middle, left.back, right.back),
        longest: longer(longer(left.longest, across(left, right)), right.longest),
    }
}

// The summary of set bits up to `first`, and clear ones behind them.
fn stretch(at: u64, first: u64, end: u64) -> Summary
    requires order { at ≤ first }
    requires some { first ≤ end }
    ensures { (f : ℕ → Bool) → ((i : ℕ) → at ≤ i → i < first → f i ≡ true)
        → ((i : ℕ) → first ≤ i → i < end → f i ≡ false) → IsSummary f at end result }
{
    Summary {
        front: where_same(at, first, end, at),
        back: first,
        longest: Run {
            first,
            len: end - first,
        },
    }
}

// The summary of no bits.
pub fn none_from(at: u64) -> Summary
    ensures { (f : ℕ → Bool) → IsSummary f at at result }
{
    Summary {
        front: at,
        back: at,
        longest: Run { first: at, len: 0 },
    }
}

// One run of set bits and one of clear ones more.
fn step(words: &[u64], met: Met, want: Wanted) -> Met
    requires short { met.runs.longest.len < want.len }
    requires order { met.to < want.end }
    requires within { want.end ≤ 64 * length words.now }
    ensures more { met.to < result.to }
    ensures order { result.to ≤ want.end }
    ensures met { (from : ℕ) → IsMet (word_bit words.now) from want.len met
        → IsMet (word_bit words.now) from want.len result }
{
    let first = run_end(words, met.to, want.end, true);
    let end = run_end(words, first, want.end, false);
    Met {
        to: end,
        runs: merge(met.runs, met.to, stretch(met.to, first, end)),
    }
}

// The search, word for word, until a run is long enough, or to its end.
pub fn scan(words: &[u64], met: Met, want: Wanted) -> Met
    requires order { met.to ≤ want.end }
    requires within { want.end ≤ 64 * length words.now }
    ensures order { result.to ≤ want.end }
    ensures met { (from : ℕ) → IsMet (word_bit words.now) from want.len met
        → IsMet (word_bit words.now) from want.len result }
    ensures done { (result.to ≡ want.end) ⊎ (want.len ≤ result.runs.longest.len) }
{
    let mut met = met;
    while met.to < want.end && met.runs.longest.len < want.len {
        met = step(words, met, want);
    }
    met
}
