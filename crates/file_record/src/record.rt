ghost use Rattle.std.specs.Prelude.{◌≡◌, ◌++◌, [], ◌∷◌, true, length, IfOk, OnOk, OnErr};
ghost use Rattle.state_model.specs.host_base.Answers.{Gives};
ghost use Rattle.record_model.specs.Records.{has_first, has_size, attribute_bytes, rec_head_of, record_at, shaped_at, has_lawful_values};
ghost use Rattle.file_record.specs.Faults.{rec_cause};
ghost use Rattle.file_record.specs.Walks.{attributes_at};

use crate::fault::RecFault;
use crate::walk::{Attributes, attributes_at};
use attr_codec::{u16_at, u32_at, u64_at};
use record_model::{Attr, AttrList, RecHead};
use state_model::FileRef;
use std::alloc::{AllocError, Global};
use std::marker::Model;

/// A file record: the fields of its header, and its attributes in order.
#[derive(Debug, Drop)]
pub struct FileRec {
    head: RecHead,
    attrs: AttrList,
}

impl Model for FileRec {
    ghost use Rattle.record_model.specs.Records.{Record};

    ghost Value = { Record };

    ghost view = { λ r. record { head = r.head; attrs = r.attrs } };
}

// Whether the first attribute begins at a multiple of 8 inside the used bytes.
#[tactic(auto, unfolding(record_model::specs::Records::has_first))]
fn has_first(body: &[u8]) -> bool
    requires { length body.now ≡ 1024 }
    ensures { result ≡ has_first body.now }
{
    let first = u32::from(u16_at(body, 0x14));
    first % 8 == 0 && first < u32_at(body, 0x18)
}

// Whether the used bytes lie inside the allocated ones, which are 1,024.
#[tactic(auto, unfolding(record_model::specs::Records::has_size))]
fn has_size(body: &[u8]) -> bool
    requires { length body.now ≡ 1024 }
    ensures { result ≡ has_size body.now }
{
    let allocated = u32_at(body, 0x1c);
    u32_at(body, 0x18) <= allocated && allocated == 1024
}

// The fields of the header.
#[tactic(auto, unfolding(record_model::specs::Records::rec_head_of))]
fn rec_head(body: &[u8]) -> RecHead
    requires { length body.now ≡ 1024 }
    ensures { result ≡ rec_head_of body.now }
{
    RecHead {
        lsn: u64_at(body, 0x08),
        seq: u16_at(body, 0x10),
        links: u16_at(body, 0x12),
        flags: u16_at(body, 0x16),
        base: FileRef::unpack(u64_at(body, 0x20)),
        next_id: u16_at(body, 0x28),
        number: u32_at(body, 0x2c),
    }
}

// The attributes of a body whose first two rules hold.
#[tactic(auto, using(crate::proofs::Whole::bounds), unfolding(record_model::specs::Records::attribute_bytes))]
fn attributes(alloc: Global, body: &[u8]) -> Result<Attributes, RecFault>
    requires whole { length body.now ≡ 1024 }
    requires first { has_first body.now ≡ true }
    requires size { has_size body.now ≡ true }
    ensures { Gives (λ attributes. attributes) rec_cause result (attributes_at (attribute_bytes body.now)) }
{
    let first = u16_at(body, 0x14) as usize;
    let used = u32_at(body, 0x18) as usize;
    let later = body.split_at(first).1;
    attributes_at(alloc, later.split_at(used - first).0)
}

/// A record by the shape of its bytes, and whether its values are lawful.
#[derive(Debug, Drop)]
pub struct Shaped {
    pub file: FileRec,
    /// Whether its standard information and its file names are resident and in shape (rule 8).
    pub lawful: bool,
}

impl FileRec {
    /// The record of these 1,024 bytes, whose update sequence is undone, whatever its values hold
    /// (Linux-NTFS documentation, "FILE Record"). `Rule` has the least of the rules 1 to 6 that
    /// they break, and `Memory` is want of memory. It takes time and memory linear in the bytes.
    #[tactic(auto, using(crate::proofs::Whole::answers))]
    pub fn read_shaped(alloc: Global, body: &[u8]) -> Result<Shaped, RecFault>
        requires { length body.now ≡ 1024 }
        ensures value { Gives (λ s. s.file) rec_cause result (shaped_at body.now) }
        ensures lawful { IfOk result (λ s. s.lawful ≡ has_lawful_values s.file) }
    {
        if !has_first(body) {
            return Err(RecFault::Rule { rule: 1 });
        }
        if !has_size(body) {
            return Err(RecFault::Rule { rule: 2 });
        }
        let Attributes { attrs, lawful } = attributes(alloc, body)?;
        let file = FileRec {
            head: rec_head(body),
            attrs,
        };
        Ok(Shaped { file, lawful })
    }

    /// The record of these 1,024 bytes, whose update sequence is undone (Linux-NTFS documentation,
    /// "FILE Record"). `Rule` has the least rule that they break, and `Memory` is want of memory.
    /// It takes time and memory linear in the bytes.
    #[tactic(auto, using(crate::proofs::Whole::by_shape))]
    pub fn read(alloc: Global, body: &[u8]) -> Result<FileRec, RecFault>
        requires { length body.now ≡ 1024 }
        ensures value { Gives (λ r. r) rec_cause result (record_at body.now) }
    {
        let Shaped { file, lawful } = FileRec::read_shaped(alloc, body)?;
        if !lawful {
            return Err(RecFault::Rule { rule: 8 });
        }
        Ok(file)
    }

    /// A record with these header fields and no attribute (Linux-NTFS documentation, "FILE
    /// Record"); this takes no memory.
    pub fn empty(alloc: Global, head: RecHead) -> FileRec
        ensures value { result ≡ record { head = head; attrs = [] } }
    {
        FileRec {
            head,
            attrs: AttrList::new(alloc),
        }
    }

    /// Puts other fields into the header. The attributes stay.
    pub fn set_head(&mut self, head: RecHead)
        ensures value { self.new ≡ record { head = head; attrs = self.old.attrs } }
    {
        self.head = head;
    }

    /// The fields of the header.
    pub fn head(&self) -> RecHead
        ensures value { result ≡ self.now.head }
    {
        self.head
    }

    /// One attribute more at the end. The error is want of memory, and leaves the record.
    pub fn push(&mut self, attr: Attr) -> Result<(), AllocError>
        ensures ok { OnOk result (self.new ≡ record { head = self.old.head; attrs = self.old.attrs ++ attr ∷ [] }) }
        ensures err { OnErr result (self.new ≡ self.old) }
    {
        self.attrs.push(attr)
    }

    /// The attributes, in the record's order.
    pub fn attrs(&self) -> &AttrList
        ensures value { result.now ≡ self.now.attrs }
    {
        &self.attrs
    }
}
