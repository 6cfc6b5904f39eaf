//! Which names the files of a volume may have behind a change of its map.
ghost use Rattle.std.specs.Prelude.{◌≡◌, true, IfOk};
ghost use Rattle.map_change.specs.Parts.{live_parts};
ghost use Rattle.map_change.specs.Applying.{applied};
ghost use Rattle.same_names.specs.Names.{SameNames};

use crate::keeping::keeps_names;
use host_base::Memory;
use map_change::{LiveMap, MapChange};
use std::alloc::Global;

/// A rule of the names of files: between the records of before and those behind a change.
pub trait NamesRule {
    ghost use Rattle.std.specs.Prelude.{List, Option};
    ghost use Rattle.map_change.specs.record_model.Records.{Record};

    /// What a rule takes as given of the records of before.
    ghost knows: { Self → List (Option Record) → Type 0 };

    /// Which records may follow those.
    ghost may: { Self → List (Option Record) → List (Option Record) → Type 0 };

    /// Whether the records behind a change of a map may follow those of before. `live` is the map
    /// before the change. The error is want of memory. Each rule names its cost.
    fn allows(&self, alloc: Global, live: &LiveMap, change: &MapChange) -> Result<bool, Memory>
        requires known { knows self.now (live_parts live.now).volume.files }
        ensures kept { IfOk result (λ allows. allows ≡ true → may self.now (live_parts live.now).volume.files (applied change.now (live_parts live.now)).volume.files) }
        ensures only { IfOk result (λ allows. may self.now (live_parts live.now).volume.files (applied change.now (live_parts live.now)).volume.files → allows ≡ true) };
}

/// The rule that all files keep their names, as [`keeps_names`] tries it, with its costs.
#[derive(Clone, Copy)]
pub struct SameNamesRule;

impl NamesRule for SameNamesRule {
    ghost use Rattle.std.specs.Prelude.{⊤};

    ghost knows = { λ _ _. ⊤ };

    ghost may = { λ _. SameNames };

    fn allows(&self, alloc: Global, live: &LiveMap, change: &MapChange) -> Result<bool, Memory> {
        keeps_names(alloc, live, change)
    }
}
