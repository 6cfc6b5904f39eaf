//! The choice of clusters.
ghost use Rattle.std.specs.Prelude.{◌≡◌, ◌+◌, ◌-◌, ◌^◌, ◌<◌, ◌≤◌, ◌++◌, [], ◌∷◌, ℕ, Err, IfOk, IfErr, IfSome, OnOk, OnErr, MatchOption, length, not, count_by};
ghost use Rattle.space_model.specs.bit_set.Bits.{IsClearRun};
ghost use Rattle.space_model.specs.Choosing.{behind, chosen_anywhere, chosen, with_runs};
ghost use Rattle.plan_space.specs.Choices.{IsNextRun, TakesFirst, TakesRun, TakesBehind};
ghost use Rattle.plan_space.specs.declared.fault.SpaceFault.TheVariants.{Short, Memory as no_memory};

use crate::fault::SpaceFault;
use crate::free_bits::FreeBits;
use space_model::{Memory, Run};
use std::alloc::{AllocError, Global};

// How many bits directly behind this one are clear, so many at most.
fn clear_behind<B: FreeBits>(bits: &B, last: u64, most: u64) -> u64
    requires { last < length (B.bits bits.now) }
    ensures value { result ≡ behind last most (B.bits bits.now) }
    ensures few { result ≤ most }
    ensures run { IsClearRun (B.bits bits.now) (last + 1) result }
    ensures small { last + 1 < 2 ^ 64 }
{
    let left = bits.len() - last - 1;
    let mut count = 0;
    while count < most && count < left && !bits.test(last + 1 + count) {
        count += 1;
    }
    count
}

// The lowest run of so many clear bits, or the longest one where none has as many.
fn next_run<B: FreeBits>(bits: &B, wanted: u64) -> Option<(u64, u64)>
    requires some { 0 < wanted }
    requires room { wanted ≤ count_by not (B.bits bits.now) }
    ensures { MatchOption result ⊥ (λ run. IsNextRun (B.bits bits.now) wanted run.0 run.1) }
{
    match bits.first_run(wanted) {
        Some(first) => Some((first, wanted)),
        None => bits.longest(),
    }
}

fn push_run(runs: &mut Vec<Run>, run: Run) -> Result<(), AllocError>
    ensures { OnOk result (runs.new.items ≡ runs.old.items ++ run ∷ []) }
{
    runs.push(run)?;
    Ok(())
}

// Takes a run of clusters and adds it to the runs, of which so many clusters were taken before.
// The answer is how many it has.
fn take_run<B: FreeBits>(
    bits: &mut B,
    runs: &mut Vec<Run>,
    vcn: u64,
    wanted: u64,
) -> Result<u64, Memory>
    requires some { 0 < wanted }
    requires room { wanted ≤ count_by not (B.bits bits.old) }
    ensures taken { IfOk result (λ len. TakesRun (B.bits bits.old) (B.bits bits.new) runs.old.items runs.new.items vcn wanted len) }
    ensures first { OnErr result (TakesFirst (chosen_anywhere wanted (B.bits bits.old) vcn wanted) (B.bits bits.old) (B.bits bits.new)) }
{
    let Some((first, len)) = next_run(bits, wanted) else {
        return Err(Memory);
    };
    bits.take(first, len)?;
    let run = Run {
        vcn,
        lcn: Some(first),
        len,
    };
    push_run(runs, run)?;
    Ok(len)
}

// Takes so many clusters, wherever they are.
fn take_anywhere<B: FreeBits>(
    bits: &mut B,
    runs: &mut Vec<Run>,
    vcn: u64,
    wanted: u64,
) -> Result<(), Memory>
    requires room { wanted ≤ count_by not (B.bits bits.old) }
    requires small { vcn + wanted < 2 ^ 64 }
    ensures runs { OnOk result (runs.new.items ≡ runs.old.items ++ chosen_anywhere wanted (B.bits bits.old) vcn wanted) }
    ensures bits { OnOk result (B.bits bits.new ≡ with_runs (chosen_anywhere wanted (B.bits bits.old) vcn wanted) (B.bits bits.old)) }
    ensures first { OnErr result (TakesFirst (chosen_anywhere wanted (B.bits bits.old) vcn wanted) (B.bits bits.old) (B.bits bits.new)) }
{
    let mut taken = 0;
    while taken < wanted {
        taken += take_run(bits, runs, vcn + taken, wanted - taken)?;
    }
    Ok(())
}

// Takes the clear clusters directly behind this one, so many at most, and answers how many these
// are.
fn take_behind<B: FreeBits>(
    bits: &mut B,
    runs: &mut Vec<Run>,
    last: Option<u64>,
    wanted: u64,
) -> Result<u64, Memory>
    requires none { runs.old.items ≡ [] }
    requires last { IfSome last (λ at. at < length (B.bits bits.old)) }
    ensures taken { IfOk result (λ len. TakesBehind (B.bits bits.old) (B.bits bits.new) runs.new.items last wanted len) }
    ensures first { OnErr result (TakesFirst (chosen (B.bits bits.old) last wanted) (B.bits bits.old) (B.bits bits.new)) }
{
    let Some(last) = last else {
        return Ok(0);
    };
    let len = clear_behind(bits, last, wanted);
    if len > 0 {
        bits.take(last + 1, len)?;
        let run = Run {
            vcn: 0,
            lcn: Some(last + 1),
            len,
        };
        push_run(runs, run)?;
    }
    Ok(len)
}

/// Chooses so many clusters for a stream whose last cluster is this one, if it has one, and sets
/// their bits: first the clear ones directly behind that, then the lowest run that holds the rest;
/// where none does, the longest, the lowest of equal ones, is taken whole, and so on (Linux-NTFS
/// documentation, "Data runs", "File - $Bitmap"). The runs' VCNs count from the first new cluster.
///
/// - [`SpaceFault::Short`]: fewer bits are clear, so many. All stay as they were.
/// - [`SpaceFault::Memory`]: the first of these runs are taken, none of them or all.
///
/// It takes time linear in the clusters that lie directly behind the last one, and a search of the
/// bits for each run.
pub fn choose<B: FreeBits>(
    alloc: Global,
    bits: &mut B,
    last: Option<u64>,
    wanted: u64,
) -> Result<Vec<Run>, SpaceFault>
    requires last { IfSome last (λ at. at < length (B.bits bits.old)) }
    ensures runs { IfOk result (λ runs. runs.items ≡ chosen (B.bits bits.old) last wanted) }
    ensures bits { IfOk result (λ runs. B.bits bits.new ≡ with_runs runs.items (B.bits bits.old)) }
    ensures short { count_by not (B.bits bits.old) < wanted → result ≡ Err (Short (count_by not (B.bits bits.old))) }
    ensures unchanged { count_by not (B.bits bits.old) < wanted → B.bits bits.new ≡ B.bits bits.old }
    ensures enough { wanted ≤ count_by not (B.bits bits.old) → IfErr result (λ e. e ≡ no_memory) }
    ensures first { OnErr result (TakesFirst (chosen (B.bits bits.old) last wanted) (B.bits bits.old) (B.bits bits.new)) }
{
    let room = bits.room();
    if room < wanted {
        return Err(SpaceFault::Short { room });
    }
    let mut runs = Vec::new(alloc);
    let front = take_behind(bits, &mut runs, last, wanted)?;
    take_anywhere(bits, &mut runs, front, wanted - front)?;
    Ok(runs)
}
