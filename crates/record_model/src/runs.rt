ghost use Rattle.std.specs.Prelude.{◌≡◌, ◌↔◌, [], ◌∷◌, ◌++◌, IsTrue, IfOk, OnOk, OnErr, length};
ghost use Rattle.record_model.specs.Runs.{IsSmall, AreSmall};

use std::alloc::{AllocError, Global};
use std::marker::Model;
use thiserror::Error;

/// A run of a stream: `len` clusters from virtual cluster `vcn` on, which lie on the volume from
/// logical cluster `lcn` on, or are sparse (Linux-NTFS documentation, "Data runs").
#[derive(Clone, Copy, Debug, PartialEq, Eq)]
pub struct Run {
    pub vcn: u64,
    pub lcn: Option<u64>,
    pub len: u64,
}

/// Runs in their order, which contracts see as a list. Each is as small as mapping pairs can give
/// it: at most 2^32 clusters, from below cluster 2^32 of the volume on, or sparse.
#[derive(Debug, Drop)]
pub struct Runs {
    items: Vec<Run>,
}

impl Model for Runs {
    ghost use Rattle.std.specs.Prelude.{List};
    ghost use Rattle.record_model.specs.declared.runs.Run.{Run};

    ghost Value = { List Run };

    ghost view = { λ r. r.items.items };

    ghost use Rattle.record_model.specs.Runs.{AreSmall};

    ghost invariant = { λ r. AreSmall r.items.items };
}

impl Runs {
    /// No runs; this takes no memory.
    pub fn new(alloc: Global) -> Self
        ensures { result ≡ [] }
    {
        Runs {
            items: Vec::new(alloc),
        }
    }

    /// Adds a run at the end. The error is want of memory, and leaves the runs as they were.
    pub fn push(&mut self, run: Run) -> Result<(), AllocError>
        requires { IsSmall run }
        ensures pushed { OnOk result (self.new ≡ self.old ++ run ∷ []) }
        ensures unchanged { OnErr result (self.new ≡ self.old) }
    {
        self.items.push(run)?;
        Ok(())
    }

    /// Adds these runs at the end; linear in them. The error is want of memory, and leaves the runs
    /// as they were.
    pub fn extend(&mut self, runs: &Runs) -> Result<(), AllocError>
        ensures added { OnOk result (self.new ≡ self.old ++ runs.now) }
        ensures unchanged { OnErr result (self.new ≡ self.old) }
    {
        self.items.extend_from_slice(&runs.items)?;
        Ok(())
    }

    /// The runs as a slice.
    pub fn as_slice(&self) -> &[Run]
        ensures value { result.now ≡ self.now }
        ensures small { AreSmall result.now }
    {
        &self.items
    }

    /// How many runs there are.
    pub fn len(&self) -> usize
        ensures { result ≡ length self.now }
    {
        self.items.len()
    }

    /// Whether there are none.
    pub fn is_empty(&self) -> bool
        ensures { IsTrue result ↔ (self.now ≡ []) }
    {
        self.items.is_empty()
    }
}

impl Clone for Runs {
    fn clone(&self) -> Result<Self, AllocError>
        ensures { IfOk result (λ runs. runs ≡ self.now) }
    {
        Ok(Runs {
            items: self.items.clone()?,
        })
    }
}

/// Why mapping pairs are not read: a fault at the byte offset `at` of a header, or want of memory.
#[derive(Clone, Copy, Debug, PartialEq, Eq, Error)]
pub enum PairsFault {
    /// The header gives the length no bytes or more than 8, or the LCN delta more than 8.
    #[error("the header at {at} has nibbles out of range")]
    Header { at: u64 },
    /// The header or its bytes lie past the end.
    #[error("the mapping pairs end within the pair at {at}")]
    Cut { at: u64 },
    /// The length is below 1, the LCN is below 0 or at least 2^32, or the lengths up to this one
    /// are more than 2^32 clusters.
    #[error("the run at {at} is out of range")]
    Range { at: u64 },
    /// Want of memory.
    #[error("no memory")]
    Memory,
}

impl From<AllocError> for PairsFault {
    ghost use Rattle.record_model.specs.declared.runs.PairsFault.TheVariants.{Memory};

    ghost from_gives = { λ _ e. e ≡ Memory };

    fn from(_: AllocError) -> Self {
        PairsFault::Memory
    }
}
