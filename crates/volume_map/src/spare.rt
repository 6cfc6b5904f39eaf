//! Records by their heads and their bits.
ghost use Rattle.std.specs.Prelude.{◌≡◌, ◌++◌, [], length, IfOk, OnOk};
ghost use Rattle.std.specs.List.{cons_option};
ghost use Rattle.stream_map.specs.disk_model.Content.{Content as the_content};
ghost use Rattle.state_model.specs.Rules.{first_failing};
ghost use Rattle.volume_model.specs.Volumes.{Volume as the_volume, count_of, record_bits};
ghost use Rattle.volume_model.specs.Owners.{keeps_record_bit};
ghost use Rattle.volume_model.specs.Nodes.{spare_numbers};
ghost use Rattle.volume_map.specs.Heads.{heads_of, keeps_head, spare_of, spares_of};

use crate::head::Head;
use state_model::FileRefList;
use std::alloc::{AllocError, Global};
use volume_model::{BitSet, FileRef};

// The first number of a user's file.
const FIRST_USER_RECORD: usize = 24;

// Whether the record with this number isn't in use, or is marked so.
#[tactic(auto, unfolding(crate::specs::Heads::keeps_head))]
fn keeps_head(heads: &[Head], bits: &BitSet, number: u64) -> bool
    ensures { result ≡ keeps_head heads.now bits.now number }
{
    match heads.get(number as usize) {
        Some(head) => !head.in_use || bits.test(number),
        None => true,
    }
}

// The least number whose head doesn't keep its bit.
#[tactic(auto, unfolding(state_model::specs::Rules::first_failing))]
fn first_unkept(heads: &[Head], bits: &BitSet) -> Option<u64>
    ensures { result ≡ first_failing (keeps_head heads.now bits.now) (length heads.now) }
{
    (0..heads.len() as u64).find(|number| !keeps_head(heads, bits, *number))
}

/// The least number of a record that is in use and whose bit is clear, if there is one; a number
/// behind the bits has none that is set. Linear in the heads.
pub fn first_unmarked(heads: &[Head], bits: &BitSet) -> Option<u64>
    ensures heads { result ≡ first_failing (keeps_head heads.now bits.now) (length heads.now) }
    ensures value { (c : the_content) (v : the_volume) → heads.now ≡ heads_of c v → bits.now ≡ record_bits c v → result ≡ first_failing (keeps_record_bit c v) (count_of v) }
{
    first_unkept(heads, bits)
}

// The number with the sequence that a new file would get there, if its bit is clear.
#[tactic(auto, unfolding(crate::specs::Heads::spare_of))]
fn spare_of(heads: &[Head], bits: &BitSet, number: usize) -> Option<FileRef>
    ensures { result ≡ spare_of heads.now bits.now number }
{
    if bits.test(number as u64) {
        return None;
    }
    let seq = match heads.get(number) {
        Some(head) => head.sequence,
        None => 1,
    };
    Some(FileRef {
        number: number as u64,
        seq,
    })
}

fn push_some(spare: &mut FileRefList, file: Option<FileRef>) -> Result<(), AllocError>
    ensures { OnOk result (spare.new ≡ spare.old ++ cons_option file []) }
{
    match file {
        Some(file) => spare.push(file),
        None => Ok(()),
    }
}

// The numbers of users whose bit is clear.
fn spare_from(alloc: Global, heads: &[Head], bits: &BitSet) -> Result<FileRefList, AllocError>
    ensures { IfOk result (λ spare. spare ≡ spares_of heads.now bits.now) }
{
    let mut spare = FileRefList::new(alloc);
    for number in FIRST_USER_RECORD..heads.len() {
        push_some(&mut spare, spare_of(heads, bits, number))?;
    }
    Ok(spare)
}

/// The numbers from 24 on whose bit is clear, in order, with the sequence that a new file would
/// get; there are as many records as heads. The error is want of memory. Linear in the heads.
pub fn spare_numbers(
    alloc: Global,
    heads: &[Head],
    bits: &BitSet,
) -> Result<FileRefList, AllocError>
    ensures heads { IfOk result (λ spare. spare ≡ spares_of heads.now bits.now) }
    ensures value { (c : the_content) (v : the_volume) → heads.now ≡ heads_of c v → bits.now ≡ record_bits c v → IfOk result (λ spare. spare ≡ spare_numbers c v) }
{
    spare_from(alloc, heads, bits)
}
