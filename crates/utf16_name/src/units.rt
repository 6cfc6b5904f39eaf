ghost use Rattle.std.specs.Prelude.{◌≡◌, ◌↔◌, [], IsTrue, IfOk, length};

use std::alloc::{AllocError, Global};
use std::marker::Model;

/// UTF-16 units that contracts see as a list of numbers.
#[derive(Debug, Drop)]
pub struct Units {
    items: Vec<u16>,
}

impl Model for Units {
    ghost use Rattle.std.specs.Prelude.{ℕ, List};

    ghost Value = { List ℕ };

    ghost view = { λ u. u.items.items };
}

impl From<Vec<u16>> for Units {
    ghost from_gives = { λ items units. units ≡ items.items };

    fn from(items: Vec<u16>) -> Self {
        Units { items }
    }
}

impl Units {
    /// No units; this takes no memory.
    pub fn new(alloc: Global) -> Self
        ensures { result ≡ [] }
    {
        Units {
            items: Vec::new(alloc),
        }
    }

    /// A copy of the slice, in time linear in its length. The error is want of memory.
    pub fn copy_of(alloc: Global, units: &[u16]) -> Result<Units, AllocError>
        ensures { IfOk result (λ u. u ≡ units.now) }
    {
        Ok(Units {
            items: Vec::from_slice(alloc, units)?,
        })
    }

    /// The same units as a vector.
    pub fn into_vec(self) -> Vec<u16>
        ensures { result.items ≡ self }
    {
        let Units { items } = self;
        items
    }

    /// The units as a slice.
    pub fn as_slice(&self) -> &[u16]
        ensures { result.now ≡ self.now }
    {
        &self.items
    }

    /// How many units there are.
    pub fn len(&self) -> usize
        ensures { result ≡ length self.now }
    {
        self.items.len()
    }

    /// Whether there are none.
    pub fn is_empty(&self) -> bool
        ensures { IsTrue result ↔ (self.now ≡ []) }
    {
        self.items.is_empty()
    }
}

impl Clone for Units {
    fn clone(&self) -> Result<Self, AllocError>
        ensures { IfOk result (λ u. u ≡ self.now) }
    {
        Ok(Units {
            items: self.items.clone()?,
        })
    }
}

impl PartialEq for Units {
    ghost use Rattle.std.specs.Prelude.{nat_eq};
    ghost use Rattle.std.specs.Cmp.Lexicographic.{pointwise};
    ghost use Rattle.std.specs.Cmp.{partial_equiv_from_equiv};
    ghost use Rattle.std.proofs.lemmas.Cmp.{nat_list_eq_equiv};

    ghost eq = { pointwise nat_eq };

    ghost laws = { partial_equiv_from_equiv nat_list_eq_equiv };

    fn eq(&self, other: &Self) -> bool {
        self.items == other.items
    }
}

impl Eq for Units {
    ghost use Rattle.std.proofs.lemmas.Cmp.{nat_list_eq_equiv};

    ghost laws = { nat_list_eq_equiv };
}
