ghost use Rattle.std.specs.Prelude.{◌≡◌, ◌∷◌, [], OnOk, OnErr, reverse};

use std::alloc::{AllocError, Global};
use std::marker::Model;

/// Numbers of blocks, the one that was put in last before the others.
#[derive(Debug, Drop)]
pub struct Numbers {
    items: Vec<u64>,
}

impl Model for Numbers {
    ghost use Rattle.std.specs.Prelude.{ℕ, List, reverse};

    ghost Value = { List ℕ };

    ghost view = { λ n. reverse n.items.items };
}

impl Numbers {
    /// No numbers; this takes no memory.
    pub fn new(alloc: Global) -> Numbers
        ensures { result ≡ [] }
    {
        Numbers {
            items: Vec::new(alloc),
        }
    }

    /// One number more, before the others. The error is want of memory, and nothing changes then.
    pub fn put(&mut self, number: u64) -> Result<(), AllocError>
        ensures put { OnOk result (self.new ≡ number ∷ self.old) }
        ensures err { OnErr result (self.new ≡ self.old) }
    {
        self.items.push(number)?;
        Ok(())
    }

    /// The numbers, the one that was put in last at the end.
    pub fn into_vec(self) -> Vec<u64>
        ensures { reverse result.items ≡ self }
    {
        self.items
    }
}
