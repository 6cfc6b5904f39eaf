//! What an operation comes to on a loaded volume over a view.
ghost use Rattle.std.specs.Prelude.{◌≡◌, None, true, IfOk, IfSome};
ghost use Rattle.block_view.specs.Views.{AsksView};
ghost use Rattle.tree_model.specs.Steps.{IsWithinBounds};
ghost use Rattle.tree_lookup.specs.Asked.{lookup_cause, AnswersOrFails};
ghost use Rattle.change_lookup.specs.Comes.{ComesTo, KeepsOn};
ghost use Rattle.found_files.specs.volume_map.Maps.{IsMapOf, volume_in};
ghost use Rattle.volume_census.specs.volume_lookup.Known.{known_tree};
ghost use Rattle.change_plan.specs.States.{is_data_change};

use block_view::View;
use change_lookup::{Found, change_found};
use std::alloc::Global;
use tree_lookup::LookupFault;
use tree_model::Op;
use upcase_order::Upcase;
use volume_census::{LentView, NamedVolume, VolumeCensus};

/// What an operation that writes, fills or cuts a file comes to on the tree of this volume, whose
/// table of upper-case units this is, as [`change_found`] says.
#[tactic(auto, using(crate::proofs::DataChanges::file_change))]
pub fn found<V: View>(
    alloc: Global,
    view: &mut V,
    volume: &NamedVolume<'_>,
    up: &Upcase,
    op: &Op,
) -> Result<Found, LookupFault>
    requires changes { is_data_change op.now ≡ true }
    requires bounds { IsWithinBounds op.now }
    requires mapped { IfSome (V.content view.old) (λ c. IsMapOf c volume.now.map.now) }
    requires journal { IfSome (known_tree up.now (volume_in volume.now.map.now) (V.content view.old)) (λ t. t.journal ≡ None) }
    ensures value { IfSome (known_tree up.now (volume_in volume.now.map.now) (V.content view.old)) (λ t. AnswersOrFails result (λ found. ComesTo up.now op.now t found)) }
    ensures given { IfOk result KeepsOn }
    ensures asks { AsksView V.content V.kept V.faults lookup_cause view.old view.new result }
{
    let mut census = VolumeCensus::new(LentView { view }, volume, up);
    change_found(alloc, &mut census, op)
}
