//! Files with all their attributes.
ghost use Rattle.std.specs.Prelude.{◌≡◌, ◌++◌, ◌<◌, length, OnOk, IfOk, slice_index_or, []};
ghost use Rattle.state_model.specs.Files.{only_base};
ghost use Rattle.state_model.specs.Loads.{table_in};
ghost use Rattle.volume_map.specs.Lists.{joined_with, joined_files};

use crate::extras::copy_attr;
use file_record::{FileRec, is_base_record};
use record_model::{Attr, AttrList};
use std::alloc::AllocError;

// Appends copies of the attributes.
fn push_all(file: &mut FileRec, attrs: &[Attr]) -> Result<(), AllocError>
    ensures { OnOk result (file.new ≡ record { head = file.old.head; attrs = file.old.attrs ++ attrs.now }) }
{
    for attr in attrs {
        file.push(copy_attr(attr)?)?;
    }
    Ok(())
}

// Makes the record a file with these attributes behind its own; one that is no base record is none.
fn join_one(file: &mut Option<FileRec>, extra: &AttrList) -> Result<(), AllocError>
    ensures { OnOk result (file.new ≡ joined_with extra.now (only_base file.old)) }
{
    if let Some(base) = file {
        if is_base_record(base) {
            return push_all(base, extra.as_slice());
        }
    }
    *file = None;
    Ok(())
}

/// Makes each record a file with the attributes that its list names, by the numbers of the records
/// that hold them; one that is no base record is none. Linear in the records and these attributes.
pub fn join_files(records: &mut [Option<FileRec>], extras: &[AttrList]) -> Result<(), AllocError>
    requires { length extras.now ≡ length records.old }
    ensures { OnOk result (records.new ≡ joined_files (table_in records.old) extras.now (length records.old)) }
{
    for number in 0..records.len() {
        join_one(&mut records[number], &extras[number])?;
    }
    Ok(())
}
