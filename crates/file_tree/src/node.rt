ghost use Rattle.std.specs.Prelude.{◌≡◌, [], ◌∷◌, ◌++◌, IfOk, OnOk, OnErr};

use std::alloc::{AllocError, Global};
use std::marker::Model;
use utf16_name::Bytes;

/// What kind of file a node is.
#[derive(Clone, Copy, Debug, PartialEq, Eq)]
pub enum Kind {
    Directory,
    /// A file whose bytes can be read and changed.
    File,
    /// A file whose bytes can be read and not changed: it has an attribute list or is sparse.
    Fixed,
    /// A file whose bytes aren't read: a reparse point, encrypted or compressed.
    Opaque,
    /// A file of the volume itself.
    System,
}

/// Why a node can't be changed, the first that applies.
#[derive(Clone, Copy, Debug, PartialEq, Eq)]
pub enum Why {
    /// It has an attribute list.
    List,
    /// It is a reparse point.
    Reparse,
    Encrypted,
    Compressed,
    Sparse,
    /// It has an object id.
    Object,
}

/// A file of the tree. Times count 100 ns since 1601-01-01.
#[derive(Debug, PartialEq, Eq, Drop)]
pub struct Node {
    /// The number and the sequence of its file record.
    pub number: u64,
    pub seq: u16,
    pub kind: Kind,
    pub why: Option<Why>,
    /// Whether it has an object id.
    pub held: bool,
    /// The size of its unnamed stream in bytes, how many of them are initialised, and the stream's
    /// clusters, 0 where its value stands in the record.
    pub size: u64,
    pub valid: u64,
    pub clusters: u64,
    pub bytes: Bytes,
    /// The flags of its standard information.
    pub flags: u32,
    pub created: u64,
    pub modified: u64,
    pub changed: u64,
    pub read_at: u64,
}

impl Clone for Node {
    fn clone(&self) -> Result<Self, AllocError>
        ensures { IfOk result (λ n. n ≡ self.now) }
    {
        Ok(Node {
            number: self.number,
            seq: self.seq,
            kind: self.kind,
            why: self.why,
            held: self.held,
            size: self.size,
            valid: self.valid,
            clusters: self.clusters,
            bytes: self.bytes.clone()?,
            flags: self.flags,
            created: self.created,
            modified: self.modified,
            changed: self.changed,
            read_at: self.read_at,
        })
    }
}

/// Files of a tree, which contracts see as a list.
#[derive(Debug, Drop)]
pub struct NodeList {
    items: Vec<Node>,
}

impl Model for NodeList {
    ghost use Rattle.std.specs.Prelude.{List};
    ghost use Rattle.file_tree.specs.declared.node.Node.{Node};

    ghost Value = { List Node };

    ghost view = { λ l. l.items.items };
}

impl From<Vec<Node>> for NodeList {
    ghost from_gives = { λ items list. list ≡ items.items };

    fn from(items: Vec<Node>) -> Self {
        NodeList { items }
    }
}

impl NodeList {
    /// No node; this takes no memory.
    pub fn new(alloc: Global) -> Self
        ensures { result ≡ [] }
    {
        NodeList {
            items: Vec::new(alloc),
        }
    }

    /// One node more at the end. The error is want of memory, and leaves the list.
    pub fn push(&mut self, node: Node) -> Result<(), AllocError>
        ensures ok { OnOk result (self.new ≡ self.old ++ node ∷ []) }
        ensures err { OnErr result (self.new ≡ self.old) }
    {
        self.items.push(node)?;
        Ok(())
    }

    /// The nodes in order.
    pub fn as_slice(&self) -> &[Node]
        ensures { result.now ≡ self.now }
    {
        &self.items
    }
}

impl Clone for NodeList {
    fn clone(&self) -> Result<Self, AllocError>
        ensures { IfOk result (λ l. l ≡ self.now) }
    {
        let mut copy = NodeList::new(*self.items.allocator());
        for node in &self.items {
            copy.push(node.clone()?)?;
        }
        Ok(copy)
    }
}
