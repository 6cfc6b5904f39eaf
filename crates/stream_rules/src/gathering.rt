//! The runs of a volume's files.
ghost use Rattle.std.specs.Prelude.{◌≡◌, ◌++◌, IfOk, OnOk};
ghost use Rattle.std.specs.List.{flat_map};
ghost use Rattle.state_model.specs.Streams.{attribute_runs};
ghost use Rattle.volume_model.specs.Owners.{file_runs, volume_runs};

use file_record::FileRec;
use host_base::Memory;
use state_model::{Attr, Runs};
use std::alloc::Global;
use stream_map::push_runs;

fn push_attrs(alloc: Global, out: &mut Runs, attrs: &[Attr]) -> Result<(), Memory>
    ensures { OnOk result (out.new ≡ out.old ++ flat_map attribute_runs attrs.now) }
{
    for attr in attrs {
        push_runs(alloc, out, &attr.form)?;
    }
    Ok(())
}

fn push_file(alloc: Global, out: &mut Runs, file: &Option<FileRec>) -> Result<(), Memory>
    ensures { OnOk result (out.new ≡ out.old ++ file_runs file.now) }
{
    match file {
        Some(file) => push_attrs(alloc, out, file.attrs().as_slice()),
        None => Ok(()),
    }
}

/// The runs of all attributes of a volume's files, file by file and in the order of each file's
/// attributes (Linux-NTFS documentation, "Data runs"). An attribute whose mapping pairs are at
/// fault has no runs. The error is want of memory. It takes time and memory linear in the bytes of
/// the attributes.
#[tactic(auto, unfolding(volume_model::specs::Owners::volume_runs))]
pub fn volume_runs(alloc: Global, files: &[Option<FileRec>]) -> Result<Runs, Memory>
    ensures value { IfOk result (λ runs. runs ≡ volume_runs files.now) }
{
    let mut runs = Runs::new(alloc);
    for file in files {
        push_file(alloc, &mut runs, file)?;
    }
    Ok(runs)
}
