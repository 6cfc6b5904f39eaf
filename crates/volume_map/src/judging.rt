//! The least rule that each record breaks.
ghost use Rattle.std.specs.Prelude.{◌≡◌, ◌==◌, ◌<◌, ℕ, length, IfOk, slice_index_or, Some, None, false};
ghost use Rattle.volume_model.specs.host_base.Answers.{Gives};
ghost use Rattle.state_model.specs.Streams.{has_cut_block, stream_of};
ghost use Rattle.state_model.specs.Files.{is_directory_record};
ghost use Rattle.state_model.specs.Loads.{cuts_index, has_cut_index_block, or_rule, rule_refusal, first_of, unless};
ghost use Rattle.volume_map.specs.Errors.{map_cause};
ghost use Rattle.volume_map.specs.Lists.{rule_by};

use crate::fault::MapFault;
use file_record::FileRec;
use record_model::{INDEX_ALLOCATION, NAMES_INDEX, RecordFlags};
use state_model::{ClusterSize, MapRefusal, Stream};
use std::alloc::Global;
use stream_map::{BlockKind, has_cut_block, stream_of};
use volume_model::Memory;

fn has_cut_index_block(per: ClusterSize, stream: Option<Stream>) -> bool
    ensures { result ≡ has_cut_index_block per stream }
{
    match stream {
        Some(Stream::Placed(extents)) => has_cut_block(
            per,
            BlockKind::Index,
            extents.real / 4096,
            extents.runs.as_slice(),
        ),
        _ => false,
    }
}

fn is_directory(file: &FileRec) -> bool
    ensures { result ≡ is_directory_record file.now }
{
    RecordFlags::has_directory(file.head().flags)
}

/// Whether a block of the directory's index lies in two runs; linear in the record. `per` is the
/// sectors of a cluster. The error is want of memory.
pub fn cuts_index(alloc: Global, per: ClusterSize, file: &FileRec) -> Result<bool, Memory>
    ensures { IfOk result (λ cuts. cuts ≡ cuts_index per (Some file.now)) }
{
    if !is_directory(file) {
        return Ok(false);
    }
    let stream = stream_of(
        alloc,
        INDEX_ALLOCATION,
        &NAMES_INDEX,
        file.attrs().as_slice(),
    )?;
    Ok(has_cut_index_block(per, stream))
}

// The same of a file, if there is one.
fn file_cuts_index(alloc: Global, per: ClusterSize, file: &Option<FileRec>) -> Result<bool, Memory>
    ensures { IfOk result (λ cuts. cuts ≡ cuts_index per file.now) }
{
    match file {
        Some(file) => cuts_index(alloc, per, file),
        None => Ok(false),
    }
}

/// The least rule that a record breaks, by what was found: one of the rules 1 to 8, if there is
/// one, and whether it breaks rule 9 (a record or an index block lies in two runs) and rule 10 (its
/// attribute list names an attribute that no record holds).
pub fn or_rule(rule: Option<u32>, nine: bool, ten: bool) -> Option<u32>
    ensures { result ≡ or_rule rule nine ten }
{
    match rule {
        Some(rule) => Some(rule),
        None if nine => Some(9),
        None if ten => Some(10),
        None => None,
    }
}

// The least rule that the record of that number breaks; `cut` says whether a record of the table
// lies in two runs.
fn rule_at(
    alloc: Global,
    per: ClusterSize,
    cut: bool,
    number: usize,
    rules: &[Option<u32>],
    tens: &[bool],
    files: &[Option<FileRec>],
) -> Result<Option<u32>, Memory>
    requires files { number < length files.now }
    requires rules { number < length rules.now }
    requires tens { number < length tens.now }
    ensures { IfOk result (λ rule. rule ≡ rule_by per cut number rules.now tens.now files.now) }
{
    let nine = number == 0 && cut || file_cuts_index(alloc, per, &files[number])?;
    Ok(or_rule(rules[number], nine, tens[number]))
}

/// Refuses the first record that breaks a rule, by what was found of each; `files` are the files
/// with all their attributes. Linear in the records and the attributes of directories.
pub fn check_rules(
    alloc: Global,
    per: ClusterSize,
    cut: bool,
    rules: &[Option<u32>],
    tens: &[bool],
    files: &[Option<FileRec>],
) -> Result<(), MapFault>
    requires rules { length rules.now ≡ length files.now }
    requires tens { length tens.now ≡ length files.now }
    ensures { Gives (λ x. x) map_cause result (unless (first_of (λ n. rule_refusal n (rule_by per cut n rules.now tens.now files.now)) (length files.now))) }
{
    for number in 0..files.len() {
        match rule_at(alloc, per, cut, number, rules, tens, files)? {
            None => {}
            Some(rule) => {
                return Err(MapFault::Refused(MapRefusal::BadRecord {
                    number: number as u64,
                    rule,
                }));
            }
        }
    }
    Ok(())
}
