//! The records of a loaded volume, and the least spare number.
ghost use Rattle.std.specs.Prelude.{◌≡◌, length};
ghost use Rattle.tree_model.specs.Effects.{least_ref};
ghost use Rattle.volume_lookup.specs.volume_map.Heads.{spares_of};
ghost use Rattle.volume_census.specs.Lowest.{IsLowestSpare};

use bit_set::BitSet;
use file_tree::FIRST_USER_RECORD;
use host_base::FileRef;
use record_rules::FileRec;
use volume_lookup::Head;

/// How many records there are.
pub fn records(files: &[Option<FileRec>]) -> u64
    ensures { result ≡ length files.now }
{
    files.len() as u64
}

// The lowest number of a user's file whose bit is clear; a bit past the end is clear.
fn lowest_clear(bits: &BitSet) -> u64
    ensures { IsLowestSpare bits.now result }
{
    match bits.lowest(FIRST_USER_RECORD) {
        Some(number) => number,
        None => bits.bits().max(FIRST_USER_RECORD),
    }
}

/// The least number from 24 on whose bit is clear, with the sequence that a new file would get
/// there, if one of the records is spare. It takes O(log records).
pub fn least_spare(heads: &[Head], bits: &BitSet) -> Option<FileRef>
    ensures { result ≡ least_ref (spares_of heads.now bits.now) }
{
    let number = lowest_clear(bits);
    match heads.get(number as usize) {
        Some(head) => Some(FileRef {
            number,
            seq: head.sequence,
        }),
        None => None,
    }
}
