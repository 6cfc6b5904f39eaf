//! Bits that tell which clusters are free.
ghost use Rattle.std.specs.Prelude.{◌≡◌, ℕ, ◌<◌, Bool, true, not, List, length, count_by, OnOk, OnErr, MatchOption};
ghost use Rattle.space_model.specs.bit_set.Bits.{bit, IsClearRun, IsFirstRun, IsLongestRun};
ghost use Rattle.space_model.specs.Choosing.{with_run};

use space_model::{BitSet, Memory};

/// Bits of which some are clear, and from which runs of clear ones are taken.
pub trait FreeBits {
    /// The bits, in order.
    ghost bits: { Self → List Bool };

    /// How many bits there are.
    fn len(&self) -> u64
        ensures { result ≡ length (bits self.now) };

    /// How many of them are clear.
    fn room(&self) -> u64
        ensures { result ≡ count_by not (bits self.now) };

    /// Whether this one is set; past the end each is clear.
    fn test(&self, number: u64) -> bool
        ensures { result ≡ bit (bits self.now) number };

    /// The first bit of the lowest run of so many clear ones, or None where there is none.
    fn first_run(&self, len: u64) -> Option<u64>
        requires { 0 < len }
        ensures { MatchOption result
            ((first : ℕ) → IsClearRun (bits self.now) first len → ⊥)
            (λ first. IsFirstRun (bits self.now) len first) };

    /// The first bit and the length of the longest run of clear ones, the lowest of equal ones, or
    /// None where no bit is clear.
    fn longest(&self) -> Option<(u64, u64)>
        ensures { MatchOption result
            ((i : ℕ) → i < length (bits self.now) → bit (bits self.now) i ≡ true)
            (λ run. IsLongestRun (bits self.now) run.0 run.1) };

    /// Sets the bits of a run of clear ones. The error is want of memory, and leaves all bits as
    /// they were.
    fn take(&mut self, first: u64, len: u64) -> Result<(), Memory>
        requires some { 0 < len }
        requires clear { IsClearRun (bits self.old) first len }
        ensures taken { OnOk result (bits self.new ≡ with_run first len (bits self.old)) }
        ensures unchanged { OnErr result (bits self.new ≡ bits self.old) };
}

/// A set has the bits that it is seen as, and takes no memory.
impl FreeBits for BitSet {
    ghost bits = { λ set. set };

    fn len(&self) -> u64 {
        self.bits()
    }

    fn room(&self) -> u64 {
        self.count_clear()
    }

    fn test(&self, number: u64) -> bool {
        self.test(number)
    }

    fn first_run(&self, len: u64) -> Option<u64> {
        self.first_run(len)
    }

    fn longest(&self) -> Option<(u64, u64)> {
        self.longest()
    }

    fn take(&mut self, first: u64, len: u64) -> Result<(), Memory> {
        self.set_run(first, len);
        Ok(())
    }
}
