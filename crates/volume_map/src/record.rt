//! One record in use: the rules 1 to 8.
ghost use Rattle.std.specs.Prelude.{◌≡◌, ◌==◌, ◌+◌, ◌%◌, ◌^◌, length, IfOk};
ghost use Rattle.std.specs.List.{list_all};
ghost use Rattle.volume_model.specs.host_base.Answers.{Gives};
ghost use Rattle.record_model.specs.Pairs.{runs_of};
ghost use Rattle.state_model.specs.Loads.{total_clusters, span, has_fitting_pairs, form_fits, has_all_pairs, whole_record};
ghost use Rattle.file_record.specs.Faults.{rec_cause};

use file_record::{FileRec, RecFault, Shaped};
use record_model::{Attr, OwnForm, PairsFault, Run, Sizes};
use std::alloc::Global;
use volume_model::Memory;

// Whether the runs are those from the first VCN to the last one, modulo 2^64.
fn do_span(sizes: Sizes, runs: &[Run]) -> bool
    ensures { result ≡ ((sizes.first + total_clusters runs.now) % 2 ^ 64 == (sizes.last + 1) % 2 ^ 64) }
{
    let mut end = sizes.first;
    for run in runs {
        end = end.wrapping_add(run.len);
    }
    end == sizes.last.wrapping_add(1)
}

/// Whether mapping pairs are read, and have the clusters from the first VCN to the last one; linear
/// in the pairs. The error is want of memory.
pub fn pairs_fit(alloc: Global, sizes: Sizes, pairs: &[u8]) -> Result<bool, Memory>
    ensures { IfOk result (λ fits. fits ≡ span sizes (runs_of sizes.first pairs.now)) }
{
    match stream_map::read(alloc, pairs, sizes.first) {
        Ok(runs) => Ok(do_span(sizes, runs.as_slice())),
        Err(PairsFault::Memory) => Err(Memory),
        Err(_) => Ok(false),
    }
}

fn form_fits(alloc: Global, form: &OwnForm) -> Result<bool, Memory>
    ensures { IfOk result (λ fits. fits ≡ form_fits form.now) }
{
    match form {
        OwnForm::Resident { .. } => Ok(true),
        OwnForm::Mapped { sizes, pairs } => pairs_fit(alloc, *sizes, pairs.as_slice()),
    }
}

fn all_fit(alloc: Global, attrs: &[Attr]) -> Result<bool, Memory>
    ensures { IfOk result (λ fit. fit ≡ list_all has_fitting_pairs attrs.now) }
{
    for attr in attrs {
        if !form_fits(alloc, &attr.form)? {
            return Ok(false);
        }
    }
    Ok(true)
}

/// Whether the mapping pairs of each attribute are read, and have the clusters from its first VCN
/// to its last one (rule 7); linear in the record.
#[tactic(auto, unfolding(state_model::specs::Loads::has_all_pairs))]
pub fn has_all_pairs(alloc: Global, file: &FileRec) -> Result<bool, Memory>
    ensures { IfOk result (λ fit. fit ≡ has_all_pairs file.now) }
{
    all_fit(alloc, file.attrs().as_slice())
}

/// The record of a body, or the least of the rules 1 to 8 that it breaks; linear in the body.
#[tactic(auto, unfolding(state_model::specs::Loads::whole_record))]
pub fn whole_record(alloc: Global, body: &[u8]) -> Result<FileRec, RecFault>
    requires { length body.now ≡ 1024 }
    ensures value { Gives (λ r. r) rec_cause result (whole_record body.now) }
{
    let Shaped { file, lawful } = FileRec::read_shaped(alloc, body)?;
    match has_all_pairs(alloc, &file) {
        Ok(true) => {}
        Ok(false) => return Err(RecFault::Rule { rule: 7 }),
        Err(Memory) => return Err(RecFault::Memory),
    }
    if !lawful {
        return Err(RecFault::Rule { rule: 8 });
    }
    Ok(file)
}
