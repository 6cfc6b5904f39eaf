//! The bits of flags, by their names (Linux-NTFS documentation, "FILE Record", "Attribute Header",
//! "File Attribute Flags", "$VOLUME_INFORMATION", "Index Record" and "Index Entry").
ghost use Rattle.std.specs.Prelude.{⊤, ◌≡◌, ◌==◌, ◌/◌, ◌%◌, [], ◌∷◌, codes};

use bitflags::{Flag, Flags, bitflag_items};

/// The flags of a file record.
#[derive(Clone, Copy, Debug, PartialEq, Eq)]
pub struct RecordFlags(u16);

bitflag_items! {
    impl RecordFlags: u16 {
        const IN_USE = 1;
        const DIRECTORY = 2;
    }
}

impl Flags for RecordFlags {
    type Bits = u16;

    ghost exact = { ⊤ };

    ghost table = { (codes "IN_USE", 1) ∷ (codes "DIRECTORY", 2) ∷ [] };

    ghost set_of = { λ f. f.0 };

    fn flags<'a>() -> &'a [Flag<RecordFlags>] {
        RecordFlags::FLAGS
    }

    fn bits(&self) -> u16 {
        self.0
    }

    fn from_bits_retain(bits: u16) -> RecordFlags {
        RecordFlags(bits)
    }
}

impl RecordFlags {
    /// Whether these bits say that the record is in use.
    pub fn has_in_use(bits: u16) -> bool
        ensures { result ≡ (bits % 2 == 1) }
    {
        RecordFlags::from_bits_retain(bits).contains(RecordFlags::IN_USE)
    }

    /// Whether these bits say that the record is that of a directory.
    #[tactic(auto, using(crate::proofs::FlagBits::bit_1))]
    pub fn has_directory(bits: u16) -> bool
        ensures { result ≡ (bits / 2 % 2 == 1) }
    {
        RecordFlags::from_bits_retain(bits).contains(RecordFlags::DIRECTORY)
    }
}

/// The flags of an attribute.
#[derive(Clone, Copy, Debug, PartialEq, Eq)]
pub struct AttributeFlags(u16);

bitflag_items! {
    impl AttributeFlags: u16 {
        const COMPRESSED = 0x0001;
        const ENCRYPTED = 0x4000;
        const SPARSE = 0x8000;
    }
}

impl Flags for AttributeFlags {
    type Bits = u16;

    ghost exact = { ⊤ };

    ghost table = { (codes "COMPRESSED", 0x0001) ∷ (codes "ENCRYPTED", 0x4000) ∷ (codes "SPARSE", 0x8000) ∷ [] };

    ghost set_of = { λ f. f.0 };

    fn flags<'a>() -> &'a [Flag<AttributeFlags>] {
        AttributeFlags::FLAGS
    }

    fn bits(&self) -> u16 {
        self.0
    }

    fn from_bits_retain(bits: u16) -> AttributeFlags {
        AttributeFlags(bits)
    }
}

impl AttributeFlags {
    /// Whether these bits say that the value is compressed.
    pub fn has_compressed(bits: u16) -> bool
        ensures { result ≡ (bits % 2 == 1) }
    {
        AttributeFlags::from_bits_retain(bits).contains(AttributeFlags::COMPRESSED)
    }

    /// Whether these bits say that the value is encrypted.
    #[tactic(auto, using(crate::proofs::FlagBits::bit_14))]
    pub fn has_encrypted(bits: u16) -> bool
        ensures { result ≡ (bits / 0x4000 % 2 == 1) }
    {
        AttributeFlags::from_bits_retain(bits).contains(AttributeFlags::ENCRYPTED)
    }

    /// Whether these bits say that the value has sparse runs.
    #[tactic(auto, using(crate::proofs::FlagBits::bit_15))]
    pub fn has_sparse(bits: u16) -> bool
        ensures { result ≡ (bits / 0x8000 % 2 == 1) }
    {
        AttributeFlags::from_bits_retain(bits).contains(AttributeFlags::SPARSE)
    }
}

/// The flags of a file, in its standard information and its names.
#[derive(Clone, Copy, Debug, PartialEq, Eq)]
pub struct FileFlags(u32);

bitflag_items! {
    impl FileFlags: u32 {
        const READ_ONLY = 0x0001;
        const HIDDEN = 0x0002;
        const SYSTEM = 0x0004;
        const ARCHIVE = 0x0020;
        const DIRECTORY = 0x1000_0000;
    }
}

impl Flags for FileFlags {
    type Bits = u32;

    ghost exact = { ⊤ };

    ghost table = { (codes "READ_ONLY", 0x0001) ∷ (codes "HIDDEN", 0x0002) ∷ (codes "SYSTEM", 0x0004) ∷ (codes "ARCHIVE", 0x0020) ∷ (codes "DIRECTORY", 0x10000000) ∷ [] };

    ghost set_of = { λ f. f.0 };

    fn flags<'a>() -> &'a [Flag<FileFlags>] {
        FileFlags::FLAGS
    }

    fn bits(&self) -> u32 {
        self.0
    }

    fn from_bits_retain(bits: u32) -> FileFlags {
        FileFlags(bits)
    }
}

impl FileFlags {
    /// Whether these bits say that a name is that of a directory.
    #[tactic(auto, using(crate::proofs::FlagBits::bit_28))]
    pub fn has_directory(bits: u32) -> bool
        ensures { result ≡ (bits / 0x10000000 % 2 == 1) }
    {
        FileFlags::from_bits_retain(bits).contains(FileFlags::DIRECTORY)
    }
}

/// The flags of a volume.
#[derive(Clone, Copy, Debug, PartialEq, Eq)]
pub struct VolumeFlags(u16);

bitflag_items! {
    impl VolumeFlags: u16 {
        const DIRTY = 1;
    }
}

impl Flags for VolumeFlags {
    type Bits = u16;

    ghost exact = { ⊤ };

    ghost table = { (codes "DIRTY", 1) ∷ [] };

    ghost set_of = { λ f. f.0 };

    fn flags<'a>() -> &'a [Flag<VolumeFlags>] {
        VolumeFlags::FLAGS
    }

    fn bits(&self) -> u16 {
        self.0
    }

    fn from_bits_retain(bits: u16) -> VolumeFlags {
        VolumeFlags(bits)
    }
}

impl VolumeFlags {
    /// Whether these bits say that the volume is dirty.
    pub fn has_dirty(bits: u16) -> bool
        ensures { result ≡ (bits % 2 == 1) }
    {
        VolumeFlags::from_bits_retain(bits).contains(VolumeFlags::DIRTY)
    }
}

/// The flags of an index node.
#[derive(Clone, Copy, Debug, PartialEq, Eq)]
pub struct NodeFlags(u8);

bitflag_items! {
    impl NodeFlags: u8 {
        const CHILDREN = 1;
    }
}

impl Flags for NodeFlags {
    type Bits = u8;

    ghost exact = { ⊤ };

    ghost table = { (codes "CHILDREN", 1) ∷ [] };

    ghost set_of = { λ f. f.0 };

    fn flags<'a>() -> &'a [Flag<NodeFlags>] {
        NodeFlags::FLAGS
    }

    fn bits(&self) -> u8 {
        self.0
    }

    fn from_bits_retain(bits: u8) -> NodeFlags {
        NodeFlags(bits)
    }
}

impl NodeFlags {
    /// Whether these bits say that the entries have children.
    pub fn has_children(bits: u8) -> bool
        ensures { result ≡ (bits % 2 == 1) }
    {
        NodeFlags::from_bits_retain(bits).contains(NodeFlags::CHILDREN)
    }
}

/// The flags of an index entry.
#[derive(Clone, Copy, Debug, PartialEq, Eq)]
pub struct EntryFlags(u16);

bitflag_items! {
    impl EntryFlags: u16 {
        const CHILD = 1;
        const LAST = 2;
    }
}

impl Flags for EntryFlags {
    type Bits = u16;

    ghost exact = { ⊤ };

    ghost table = { (codes "CHILD", 1) ∷ (codes "LAST", 2) ∷ [] };

    ghost set_of = { λ f. f.0 };

    fn flags<'a>() -> &'a [Flag<EntryFlags>] {
        EntryFlags::FLAGS
    }

    fn bits(&self) -> u16 {
        self.0
    }

    fn from_bits_retain(bits: u16) -> EntryFlags {
        EntryFlags(bits)
    }
}

impl EntryFlags {
    /// Whether these bits say that the entry has a child.
    pub fn has_child(bits: u16) -> bool
        ensures { result ≡ (bits % 2 == 1) }
    {
        EntryFlags::from_bits_retain(bits).contains(EntryFlags::CHILD)
    }

    /// Whether these bits say that the entry is the last one of its node.
    #[tactic(auto, using(crate::proofs::FlagBits::bit_1))]
    pub fn has_last(bits: u16) -> bool
        ensures { result ≡ (bits / 2 % 2 == 1) }
    {
        EntryFlags::from_bits_retain(bits).contains(EntryFlags::LAST)
    }
}
