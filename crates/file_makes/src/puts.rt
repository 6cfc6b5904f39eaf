//! Records that have room, put into a draft.
ghost use Rattle.std.specs.Prelude.{◌≡◌, ◌<◌, ◌≤◌, ◌^◌, IfSome, OnOk};
ghost use Rattle.block_view.specs.Views.{AsksView};
ghost use Rattle.file_puts.specs.record_writer.NormalLaws.{FitsByRoom};
ghost use Rattle.plan_draft.specs.Faults.{fault_cause};
ghost use Rattle.file_puts.specs.draft_records.Records.{written_bytes};
ghost use Rattle.file_puts.specs.Puts.{PutsFileRecord};

use block_view::{View, ViewFault};
use draft_numbers::{DraftFault, put_file};
use file_puts::VolumeStreams;
use new_files::FileRec;
use plan_draft::Draft;
use state_model::ClusterSize;
use std::alloc::Global;

/// Puts a record that has room, as [`put_file`] does; so it is never refused as too full.
pub fn put_record<V: View>(
    draft: &mut Draft<'_, V>,
    alloc: Global,
    per: ClusterSize,
    streams: &VolumeStreams,
    number: u64,
    file: &FileRec,
) -> Result<(), ViewFault>
    requires per { per ≡ 8 }
    requires number { number < 2 ^ 48 }
    requires fits { FitsByRoom file.now }
    requires room { written_bytes file.now ≤ 1024 }
    ensures put { OnOk result (IfSome (V.content draft.old.view.now) (λ c. PutsFileRecord c streams.now number file.now draft.old.touched.items draft.new.touched.items)) }
    ensures asks { AsksView V.content V.kept V.faults fault_cause draft.old.view.now draft.new.view.now result }
    ensures reference { draft.new.view.ghost_name ≡ draft.old.view.ghost_name }
{
    let (table, mirror) = (&streams.table, &streams.mirror);
    match put_file(draft, alloc, per, table, mirror, number, file) {
        Ok(()) => Ok(()),
        Err(DraftFault::Fault) => Err(ViewFault::Fault),
        Err(DraftFault::Full { .. }) => Err(ViewFault::Memory),
        Err(DraftFault::Memory) => Err(ViewFault::Memory),
    }
}
