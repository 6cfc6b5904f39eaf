ghost use Rattle.std.specs.Prelude.{◌≡◌, ◌↔◌, IsTrue, ◌+◌, ◌*◌, ◌<◌, ◌≤◌, ◌^◌, ◌++◌, length, take, drop, insert, IfOk};
ghost use Rattle.disk_model.specs.host_base.Answers.{Gives};
ghost use Rattle.disk_model.specs.Bytes.{written};
ghost use Rattle.record_model.specs.Attributes.{FitsAttr};
ghost use Rattle.record_model.specs.Records.{Record, used_of, head_spelling, record_spelling, IsFileRecord, FitsHead, FitsRecord};
ghost use Rattle.record_writer.specs.Faults.{room_cause};
ghost use Rattle.record_writer.specs.Edits.{extended, made_of, without_attr_at};

use crate::attrs::put_attrs;
use crate::copying::{push_copies, push_copy};
use crate::fault::RoomFault;
use crate::lengths::{spelled_bytes, spelled_length};
use crate::putting::put_zeros;
use crate::spelled::{each_fits, fits_head, have_room, types_rise};
use disk_model::{Memory, put_bytes, put_u16, put_u32, put_u64};
use file_record::FileRec;
use record_model::{Attr, END_MARK, RecHead};
use std::alloc::{AllocError, Global};

// The bytes of a record.
const RECORD_BYTES: u32 = 1024;

// Where the first attribute of a written record begins.
const FIRST_ATTRIBUTE: usize = 0x38;

/// A record that is written, and edited before.
pub trait WrittenRecord: Sized {
    /// The record that contracts see.
    ghost seen: { Self → Record };

    /// How many bytes of its 1,024 the record uses as it is written (Linux-NTFS documentation,
    /// "FILE Record"), the end mark with 8 bytes among them. It takes time linear in the
    /// attributes, and no memory.
    fn used(&self) -> u32
        requires { used_of (seen self.now).attrs < 2 ^ 32 }
        ensures value { result ≡ used_of (seen self.now).attrs };

    /// Whether the record has a spelling: its base's number is below 2^48, the types of its
    /// attributes don't fall and are below FFFFFFFF, each attribute has a spelling, file names and
    /// standard information have lawful values, and it uses at most 1,024 bytes. One that was read
    /// may have none, where it isn't written as this project writes. It takes time linear in the
    /// record, and no memory.
    fn has_spelling(&self) -> bool
        ensures value { IsTrue result ↔ FitsRecord (seen self.now) };

    /// Writes the record as 1,024 bytes, a body: the array of the update sequence stands at 0x30
    /// as zeros, and the first attribute at 0x38 (Linux-NTFS documentation, "FILE
    /// Record"). The record has a spelling, as [`WrittenRecord::has_spelling`] tells. It takes time
    /// linear in the bytes, and no memory.
    fn write(&self, out: &mut [u8])
        requires fits { FitsRecord (seen self.now) }
        requires whole { length out.old ≡ 1024 }
        ensures spelled { out.new ≡ record_spelling (seen self.now) }
        ensures table { IsFileRecord out.new (seen self.now) };

    /// The record with a copy of this attribute at a place, which may be the end; those from there
    /// on stand behind it. Both have a spelling, as [`WrittenRecord::has_spelling`] and
    /// [`attr_has_spelling`](crate::attr_has_spelling) tell. It takes time and memory linear in the
    /// record, and leaves the record from before.
    ///
    /// - [`RoomFault::Full`]: it would use these bytes, which are above 1,024.
    /// - [`RoomFault::Memory`]: want of memory.
    fn with_attr(&self, alloc: Global, at: u32, attr: &Attr) -> Result<Self, RoomFault>
        requires place { at ≤ length (seen self.now).attrs }
        requires fits { FitsRecord (seen self.now) }
        requires spelled { FitsAttr attr.now }
        ensures value { Gives seen room_cause result (extended (seen self.now) at attr.now) };

    /// A record with these header fields and copies of these attributes, in their order. It takes
    /// time and memory linear in the attributes, which are copied once, and none where it refuses.
    ///
    /// - [`RoomFault::Full`]: it would use these bytes, which are above 1,024.
    /// - [`RoomFault::Memory`]: want of memory.
    fn with_attrs(alloc: Global, head: RecHead, attrs: &[Attr]) -> Result<Self, RoomFault>
        requires { used_of attrs.now < 2 ^ 32 }
        ensures value { Gives seen room_cause result (made_of head attrs.now) };

    /// The record without the attribute at a place. The error is want of memory. It takes time and
    /// memory linear in the record, and leaves the record from before.
    fn without_attr(&self, alloc: Global, at: u32) -> Result<Self, Memory>
        requires { at < length (seen self.now).attrs }
        ensures value { IfOk result (λ r. seen r ≡ without_attr_at (seen self.now) at) };
}

// Puts the fields of a written record's header, which uses so many bytes.
fn put_head(out: &mut [u8], head: &RecHead, used: u32)
    requires room { 0x38 ≤ length out.old }
    requires base { head.now.base.number < 2 ^ 48 }
    ensures { out.new ≡ written 0 (head_spelling head.now used) out.old }
{
    put_bytes(out, 0x00, b"FILE");
    put_u16(out, 0x04, 0x30);
    put_u16(out, 0x06, 3);
    put_u64(out, 0x08, head.lsn);
    put_u16(out, 0x10, head.seq);
    put_u16(out, 0x12, head.links);
    put_u16(out, 0x14, 0x38);
    put_u16(out, 0x16, head.flags);
    put_u32(out, 0x18, used);
    put_u32(out, 0x1c, 1024);
    put_u64(out, 0x20, head.base.pack());
    put_u16(out, 0x28, head.next_id);
    put_zeros(out, 0x2a, 2);
    put_u32(out, 0x2c, head.number);
    put_zeros(out, 0x30, 8);
}

// Puts the record's spelling.
fn put_record(out: &mut [u8], file: &FileRec, used: u32)
    requires fits { FitsRecord file.now }
    requires used { used ≡ used_of file.now.attrs }
    requires whole { length out.old ≡ 1024 }
    ensures { out.new ≡ record_spelling file.now }
{
    put_head(out, &file.head(), used);
    let end = put_attrs(file.attrs().as_slice(), out, FIRST_ATTRIBUTE);
    put_u32(out, end, END_MARK);
    put_zeros(out, end + 4, 4);
    put_zeros(out, end + 8, 1024 - used as usize);
}

// How many bytes a record with these attributes uses.
fn used_by(attrs: &[Attr]) -> u32
    requires { used_of attrs.now < 2 ^ 32 }
    ensures { result ≡ used_of attrs.now }
{
    (FIRST_ATTRIBUTE + spelled_bytes(attrs) + 8) as u32
}

// The record with these header fields and copies of these attributes.
fn copied(alloc: Global, head: RecHead, attrs: &[Attr]) -> Result<FileRec, AllocError>
    ensures { IfOk result (λ r. r ≡ record { head = head; attrs = attrs.now }) }
{
    let mut new = FileRec::empty(alloc, head);
    push_copies(alloc, attrs, &mut new)?;
    Ok(new)
}

// The record with a copy of the attribute at a place.
fn inserted(alloc: Global, file: &FileRec, at: usize, attr: &Attr) -> Result<FileRec, AllocError>
    requires { at ≤ length file.now.attrs }
    ensures { IfOk result (λ r. r ≡ record { head = file.now.head; attrs = insert file.now.attrs at attr.now }) }
{
    let (front, back) = file.attrs().as_slice().split_at(at);
    let mut new = FileRec::empty(alloc, file.head());
    push_copies(alloc, front, &mut new)?;
    push_copy(alloc, attr, &mut new)?;
    push_copies(alloc, back, &mut new)?;
    Ok(new)
}

// The record without the attribute at a place.
fn removed(alloc: Global, file: &FileRec, at: usize) -> Result<FileRec, AllocError>
    requires { at < length file.now.attrs }
    ensures { IfOk result (λ r. r ≡ record { head = file.now.head; attrs = take at file.now.attrs ++ drop (at + 1) file.now.attrs }) }
{
    let attrs = file.attrs().as_slice();
    let mut new = FileRec::empty(alloc, file.head());
    push_copies(alloc, attrs.split_at(at).0, &mut new)?;
    push_copies(alloc, attrs.split_at(at + 1).1, &mut new)?;
    Ok(new)
}

impl WrittenRecord for FileRec {
    ghost seen = { λ r. r };

    fn used(&self) -> u32 {
        used_by(self.attrs().as_slice())
    }

    fn has_spelling(&self) -> bool {
        let attrs = self.attrs().as_slice();
        fits_head(self.head()) && each_fits(attrs) && types_rise(attrs) && have_room(attrs)
    }

    fn write(&self, out: &mut [u8]) {
        let used = self.used();
        put_record(out, self, used);
    }

    fn with_attr(&self, alloc: Global, at: u32, attr: &Attr) -> Result<Self, RoomFault> {
        let used = self.used() + spelled_length(attr) as u32;
        if used > RECORD_BYTES {
            return Err(RoomFault::Full { used });
        }
        Ok(inserted(alloc, self, at as usize, attr)?)
    }

    fn with_attrs(alloc: Global, head: RecHead, attrs: &[Attr]) -> Result<Self, RoomFault> {
        let whole = used_by(attrs);
        if whole > RECORD_BYTES {
            return Err(RoomFault::Full { used: whole });
        }
        Ok(copied(alloc, head, attrs)?)
    }

    fn without_attr(&self, alloc: Global, at: u32) -> Result<Self, Memory> {
        Ok(removed(alloc, self, at as usize)?)
    }
}
