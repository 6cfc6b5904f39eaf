ghost use Rattle.std.specs.Prelude.{◌≡◌, [], ◌∷◌, ◌++◌, OnOk, OnErr, length};

use disk_model::Bytes;
use std::alloc::{AllocError, Global};
use std::marker::Model;
use utf16_name::Units;

/// What every attribute header has (Linux-NTFS documentation, "Attribute Header").
#[derive(Clone, Copy, Debug, PartialEq, Eq)]
pub struct Head {
    /// The attribute's type, as 0x30 for a file name.
    pub kind: u32,
    pub flags: u16,
    pub id: u16,
}

/// The numbers of an attribute whose value stands in clusters.
#[derive(Clone, Copy, Debug, PartialEq, Eq)]
pub struct Sizes {
    /// The first VCN of this piece, and its last.
    pub first: u64,
    pub last: u64,
    /// The compression unit, as a power of 2 of clusters.
    pub unit: u16,
    /// Allocated, real and initialised size, in bytes.
    pub allocated: u64,
    pub real: u64,
    pub initialised: u64,
    /// The size of the clusters really held, where the header has that field.
    pub held: Option<u64>,
}

/// Where an attribute has its value: in the record, or in clusters by mapping pairs.
#[derive(Clone, Debug, PartialEq, Eq, Drop)]
pub enum OwnForm {
    Resident { value: Bytes, indexed: u8 },
    Mapped { sizes: Sizes, pairs: Bytes },
}

/// An attribute of a file record. Its name is in UTF-16 units.
#[derive(Clone, Debug, PartialEq, Eq, Drop)]
pub struct Attr {
    pub head: Head,
    pub name: Units,
    pub form: OwnForm,
}

/// Attributes, which contracts see as a list.
#[derive(Debug, Drop)]
pub struct AttrList {
    items: Vec<Attr>,
}

impl Model for AttrList {
    ghost use Rattle.std.specs.Prelude.{List};
    ghost use Rattle.record_model.specs.declared.attribute.Attr.{Attr};

    ghost Value = { List Attr };

    ghost view = { λ l. l.items.items };
}

impl AttrList {
    /// No attribute; this takes no memory.
    pub fn new(alloc: Global) -> Self
        ensures { result ≡ [] }
    {
        AttrList {
            items: Vec::new(alloc),
        }
    }

    /// One attribute more at the end. The error is want of memory, and leaves the list.
    pub fn push(&mut self, attr: Attr) -> Result<(), AllocError>
        ensures ok { OnOk result (self.new ≡ self.old ++ attr ∷ []) }
        ensures err { OnErr result (self.new ≡ self.old) }
    {
        self.items.push(attr)?;
        Ok(())
    }

    /// The attributes in the record's order.
    pub fn as_slice(&self) -> &[Attr]
        ensures { result.now ≡ self.now }
    {
        &self.items
    }

    /// How many attributes there are.
    pub fn len(&self) -> usize
        ensures { result ≡ length self.now }
    {
        self.items.len()
    }
}
