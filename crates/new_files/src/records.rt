//! Records of new files.
ghost use Rattle.std.specs.Prelude.{◌≡◌, ◌<◌, ◌^◌, IfOk, length};
ghost use Rattle.disk_model.specs.Bytes.{zeros};
ghost use Rattle.record_model.specs.Records.{FitsRecord};
ghost use Rattle.new_files.specs.NewFiles.{new_info_value, new_name, new_name_value, unnamed, new_attrs, new_head, new_record, new_key};

use host_base::{Bytes, FileRef};
use index_model::Key;
use plan_edits::FileRec;
use record_model::{
    Attr, DATA, FILE_NAME, FileNameValue, Head, OwnForm, RecHead, STANDARD_INFORMATION, StdInfo,
};
use std::alloc::{AllocError, Global};
use std_values::{FixedValue, NamedValue};
use utf16_name::{Name, Units};

// The flag of an archive.
const ARCHIVE: u32 = 0x20;

// The flag of a record in use.
const IN_USE: u16 = 1;

// The bytes of standard information.
const INFO_BYTES: usize = 0x48;

// The bytes of a name's value before its units.
const NAME_HEAD: usize = 0x42;

// So many zeros.
#[tactic(auto, unfolding(disk_model::specs::Bytes::zeros))]
fn zeroed(alloc: Global, count: usize) -> Result<Vec<u8>, AllocError>
    ensures value { IfOk result (λ bytes. bytes.items ≡ zeros count) }
    ensures size { IfOk result (λ bytes. length bytes.items ≡ count) }
{
    vec![in alloc; 0u8; count]
}

// Standard information with one time.
#[tactic(auto, unfolding(crate::specs::NewFiles::new_info_value))]
fn info_value(alloc: Global, stamp: u64) -> Result<Bytes, AllocError>
    ensures { IfOk result (λ value. value ≡ new_info_value stamp) }
{
    let info = StdInfo {
        created: stamp,
        modified: stamp,
        changed: stamp,
        read_at: stamp,
        flags: ARCHIVE,
    };
    let mut value = zeroed(alloc, INFO_BYTES)?;
    info.write(&mut value);
    Ok(Bytes::from(value))
}

// The fields of the name.
fn name_fields(parent: FileRef, name: &Name, stamp: u64) -> Result<FileNameValue, AllocError>
    ensures { IfOk result (λ fields. fields ≡ new_name parent name.now stamp) }
{
    Ok(FileNameValue {
        parent,
        created: stamp,
        modified: stamp,
        changed: stamp,
        read_at: stamp,
        allocated: 0,
        real: 0,
        flags: ARCHIVE,
        space: 0,
        name: name.clone()?,
    })
}

// The value of the name.
#[tactic(auto, unfolding(crate::specs::NewFiles::new_name_value))]
fn name_value(alloc: Global, parent: FileRef, name: &Name, stamp: u64) -> Result<Bytes, AllocError>
    requires { parent.number < 2 ^ 48 }
    ensures { IfOk result (λ value. value ≡ new_name_value parent name.now stamp) }
{
    let fields = name_fields(parent, name, stamp)?;
    let mut value = zeroed(alloc, NAME_HEAD + 2 * fields.name.units().len())?;
    fields.write(&mut value);
    Ok(Bytes::from(value))
}

// An attribute without a name.
fn unnamed(alloc: Global, id: u16, kind: u32, indexed: u8, value: Bytes) -> Attr
    ensures { result ≡ unnamed id kind indexed value }
{
    Attr {
        head: Head { kind, flags: 0, id },
        name: Units::new(alloc),
        form: OwnForm::Resident { value, indexed },
    }
}

// The header's fields.
fn new_head(lsn: u64, file: FileRef) -> RecHead
    requires { file.number < 2 ^ 32 }
    ensures { result ≡ new_head lsn file }
{
    RecHead {
        lsn,
        seq: file.seq,
        links: 1,
        flags: IN_USE,
        base: FileRef { number: 0, seq: 0 },
        next_id: 3,
        number: file.number as u32,
    }
}

/// The record of a new file without bytes (Linux-NTFS documentation, "FILE Record",
/// "$STANDARD_INFORMATION", "$FILE_NAME"): in use, with the file's reference, whose number is below
/// 2^32, one name of POSIX in the directory with the reference `parent`, whose number is below 2^48,
/// and empty data. All times are the stamp, in units of 100 ns since 1601-01-01. The LSN is that of
/// the body that stood in the record's block where it begins `FILE`, else 0. The record always has
/// room in its 1,024 bytes, and [`new_file_reads`](crate::new_file_reads) says what it stands for.
/// The error is want of memory. It takes time and memory linear in the name.
#[tactic(auto, unfolding(crate::specs::NewFiles::new_attrs, crate::specs::NewFiles::new_record))]
pub fn new_record(
    alloc: Global,
    lsn: u64,
    file: FileRef,
    parent: FileRef,
    name: &Name,
    stamp: u64,
) -> Result<FileRec, AllocError>
    requires number { file.number < 2 ^ 32 }
    requires directory { parent.number < 2 ^ 48 }
    ensures value { IfOk result (λ r. r ≡ new_record lsn file parent name.now stamp) }
{
    let info = info_value(alloc, stamp)?;
    let name = name_value(alloc, parent, name, stamp)?;
    let mut out = FileRec::empty(alloc, new_head(lsn, file));
    out.push(unnamed(alloc, 0, STANDARD_INFORMATION, 0, info))?;
    out.push(unnamed(alloc, 1, FILE_NAME, 1, name))?;
    out.push(unnamed(alloc, 2, DATA, 0, Bytes::new(alloc)))?;
    Ok(out)
}

/// The key of a new file in the index of its directory (Linux-NTFS documentation, "Index Entry"): the
/// file's reference, and byte for byte the value of the name that [`new_record`] makes of the same
/// arguments. The number of the directory is below 2^48. The error is want of memory. It takes time
/// and memory linear in the name.
pub fn new_key(
    alloc: Global,
    file: FileRef,
    parent: FileRef,
    name: &Name,
    stamp: u64,
) -> Result<Key, AllocError>
    requires directory { parent.number < 2 ^ 48 }
    ensures value { IfOk result (λ key. key ≡ new_key file parent name.now stamp) }
{
    Ok(Key {
        child: file,
        value: name_value(alloc, parent, name, stamp)?,
    })
}
