//! Records that get unnamed data.
ghost use Rattle.std.specs.Prelude.{◌≡◌, ◌<◌, ◌^◌, IfOk, length};
ghost use Rattle.made_data.specs.Made.{empty_data, with_empty_data, made_record, has_data};

use crate::putting::{with_attr, written};
use data_plan::{FileRec, is_attribute_of};
use host_base::Bytes;
use record_model::{Attr, DATA, Head, OwnForm};
use std::alloc::{AllocError, Global};
use utf16_name::Units;

/// Whether a file's record has unnamed data (Linux-NTFS documentation, "$DATA"), as a value or in
/// clusters. It takes time linear in the record's attributes.
#[tactic(auto, unfolding(crate::specs::Made::has_data))]
pub fn has_data(file: &FileRec) -> bool
    ensures value { result ≡ has_data file.now }
{
    file.attrs()
        .as_slice()
        .iter()
        .any(|attr| is_attribute_of(DATA, &[], attr))
}

// Unnamed data without bytes.
fn empty_data(alloc: Global) -> Attr
    ensures { result ≡ empty_data 0 }
{
    Attr {
        head: Head {
            kind: DATA,
            flags: 0,
            id: 0,
        },
        name: Units::new(alloc),
        form: OwnForm::Resident {
            value: Bytes::new(alloc),
            indexed: 0,
        },
    }
}

/// The record of a file with unnamed data more, a value without bytes (Linux-NTFS documentation,
/// "$DATA", "Attribute Header"), as it is written: in its place by types, before data of other names,
/// with the header's next id for an attribute, or the least one that is free where these have come to
/// their end. The file is one that was read and has no unnamed data, as [`has_data`] tells.
/// [`made_is_counted`](crate::made_is_counted) says that a write or a cut of it comes to the same
/// with this record. It may use more than 1,024 bytes. The error is want of memory. It takes time and
/// memory linear in the record, and where ids have come to their end the square of its attributes'
/// number.
#[tactic(auto, using(crate::proofs::Standing::size_put))]
pub fn make_data(alloc: Global, file: &FileRec) -> Result<FileRec, AllocError>
    requires few { length file.now.attrs < 2 ^ 10 }
    ensures value { IfOk result (λ r. r ≡ made_record file.now) }
{
    let made = with_attr(alloc, empty_data(alloc), file)?;
    written(alloc, &made)
}
