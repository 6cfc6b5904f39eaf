ghost use Rattle.std.specs.Prelude.{◌≡◌, [], ◌∷◌, ◌++◌, IfOk, OnOk, OnErr};

use file_tree::Units;
use std::alloc::{AllocError, Global};
use std::marker::Model;

/// A path: the parts behind its slashes, which contracts see as a list of lists of units. A part
/// need not be a lawful name; `/` has no parts.
#[derive(Debug, Drop)]
pub struct Path {
    items: Vec<Units>,
}

impl Model for Path {
    ghost use Rattle.std.specs.Prelude.{List};
    ghost use Rattle.std.specs.Prelude.{ℕ};

    ghost Value = { List (List ℕ) };

    ghost view = { λ l. l.items.items };
}

impl From<Vec<Units>> for Path {
    ghost from_gives = { λ items list. list ≡ items.items };

    fn from(items: Vec<Units>) -> Self {
        Path { items }
    }
}

impl Path {
    /// No part; this takes no memory.
    pub fn new(alloc: Global) -> Self
        ensures { result ≡ [] }
    {
        Path {
            items: Vec::new(alloc),
        }
    }

    /// One part more at the end. The error is want of memory, and leaves the list.
    pub fn push(&mut self, part: Units) -> Result<(), AllocError>
        ensures ok { OnOk result (self.new ≡ self.old ++ part ∷ []) }
        ensures err { OnErr result (self.new ≡ self.old) }
    {
        self.items.push(part)?;
        Ok(())
    }

    /// The parts in order.
    pub fn as_slice(&self) -> &[Units]
        ensures { result.now ≡ self.now }
    {
        &self.items
    }
}

impl Clone for Path {
    fn clone(&self) -> Result<Self, AllocError>
        ensures { IfOk result (λ l. l ≡ self.now) }
    {
        let mut copy = Path::new(*self.items.allocator());
        for part in &self.items {
            copy.push(part.clone()?)?;
        }
        Ok(copy)
    }
}
