//! What is done with all values.
ghost use Rattle.std.specs.Prelude.{◌≡◌, Bool};
ghost use Rattle.std.specs.Map.{lookup};
ghost use Rattle.std.specs.Ordering.{is_eq, nat_cmp};
ghost use Rattle.block_pool.specs.Pools.{passes};

use std::collections::BTreeMap;

/// A change of values.
pub trait Turns<T> {
    ghost turned: { Self → T → T };

    /// The value after the change.
    fn turn(&self, value: &T) -> T
        ensures { result ≡ turned self.now value.now };
}

/// A test of values.
pub trait Tests<T> {
    ghost told: { Self → T → Bool };

    /// Whether the value passes.
    fn passes(&self, value: &T) -> bool
        ensures { result ≡ told self.now value.now };
}

/// Whether the value of a number passes.
pub(crate) fn is_met<T, P: Tests<T>>(values: &BTreeMap<u128, T>, test: &P, number: u128) -> bool
    ensures { result ≡ passes (P.told test.now) (lookup (λ n. is_eq (nat_cmp number n)) values.now.entries) }
{
    match values.get(&number) {
        Some(value) => test.passes(value),
        None => false,
    }
}
