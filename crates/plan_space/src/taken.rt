//! Clusters that were taken out of a bitmap which stays as it is.
ghost use Rattle.std.specs.Prelude.{◌≡◌, ◌++◌, [], ◌∷◌, OnOk, OnErr, not, count_by};
ghost use Rattle.plan_space.specs.Spans.{is_taken, with_spans, barrier, AreSome};

use crate::free_bits::FreeBits;
use space_model::{BitSet, Memory};
use std::alloc::{AllocError, Global};

// Clusters from `first` on, below `end`.
#[derive(Clone, Copy)]
struct Span {
    first: u64,
    end: u64,
}

/// A bitmap that is borrowed, and the clusters that were taken out of it: it is asked as if their
/// bits were set. It holds the clusters that were taken, run by run, and no copy of the bitmap.
#[derive(Drop)]
pub struct Taken<'a> {
    base: &'a BitSet,
    spans: Vec<Span>,
    // How many bits are clear.
    room: u64,
    ghost some: { AreSome spans.items },
    ghost counted: { room ≡ count_by not (with_spans spans.items base.now) },
}

// The end of the first span that has a cluster from this one on, below `end`, or None.
#[tactic(auto, unfolding(crate::specs::Spans::barrier))]
fn barrier(spans: &[Span], first: u64, end: u64) -> Option<u64>
    ensures { result ≡ barrier first end spans.now }
{
    for span in spans {
        if span.first < end && first < span.end {
            return Some(span.end);
        }
    }
    None
}

// Whether some span has the cluster.
#[tactic(auto, unfolding(crate::specs::Spans::is_taken))]
fn is_taken(spans: &[Span], cluster: u64) -> bool
    ensures { result ≡ is_taken spans.now cluster }
{
    for span in spans {
        if span.first <= cluster && cluster < span.end {
            return true;
        }
    }
    false
}

fn push_span(spans: &mut Vec<Span>, span: Span) -> Result<(), AllocError>
    ensures pushed { OnOk result (spans.new.items ≡ spans.old.items ++ span ∷ []) }
    ensures unchanged { OnErr result (spans.new.items ≡ spans.old.items) }
{
    spans.push(span)?;
    Ok(())
}

impl<'a> Taken<'a> {
    /// Nothing taken out of these bits. It takes no memory.
    pub fn new(alloc: Global, base: &'a BitSet) -> Self
        ensures { with_spans result.spans.items result.base.now ≡ base.now }
    {
        Taken {
            base,
            spans: Vec::new(alloc),
            room: base.count_clear(),
        }
    }
}

/// The bits of the set, and set those of what was taken. A search takes a search of the set for
/// each run that was taken, and `longest` as many more as its length has binary digits.
impl<'a> FreeBits for Taken<'a> {
    ghost bits = { λ taken. with_spans taken.spans.items taken.base.now };

    fn len(&self) -> u64 {
        self.base.bits()
    }

    fn room(&self) -> u64 {
        self.room
    }

    fn test(&self, number: u64) -> bool {
        self.base.test(number) || number < self.base.bits() && is_taken(&self.spans, number)
    }

    fn first_run(&self, len: u64) -> Option<u64> {
        let end = self.base.bits();
        let mut from = 0;
        while let Some(first) = self.base.first_run_in(len, from, end) {
            match barrier(&self.spans, first, first + len) {
                None => return Some(first),
                Some(next) => from = next,
            }
        }
        None
    }

    fn longest(&self) -> Option<(u64, u64)> {
        let Some((_, mut most)) = self.base.longest() else {
            return None;
        };
        let mut least = 0;
        let mut at = 0;
        while least < most {
            let middle = most - (most - least) / 2;
            match self.first_run(middle) {
                Some(first) => {
                    least = middle;
                    at = first;
                }
                None => most = middle - 1,
            }
        }
        if least == 0 {
            return None;
        }
        Some((at, least))
    }

    fn take(&mut self, first: u64, len: u64) -> Result<(), Memory> {
        let _bits = self.base.bits();
        push_span(
            &mut self.spans,
            Span {
                first,
                end: first + len,
            },
        )?;
        self.room -= len;
        Ok(())
    }
}
