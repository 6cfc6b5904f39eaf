ghost use Rattle.std.specs.Prelude.{◌≡◌, [], ◌∷◌, ◌++◌, IfOk, OnOk, OnErr};

use crate::path::Path;
use file_tree::{Bytes, Name};
use std::alloc::{AllocError, Global};
use std::marker::Model;

/// An operation on the tree, with its words. Offsets, counts and sizes are in bytes.
#[derive(Debug, Drop)]
pub enum Op {
    /// A new file without bytes.
    Create {
        path: Path,
    },
    /// A new directory.
    Mkdir {
        path: Path,
    },
    /// These bytes stand in a file from the offset on.
    Write {
        path: Path,
        offset: u64,
        bytes: Bytes,
    },
    /// So many bytes of one value stand in a file from the offset on.
    Fill {
        path: Path,
        offset: u64,
        count: u64,
        byte: u8,
    },
    /// A file gets this size.
    Truncate {
        path: Path,
        size: u64,
    },
    /// At most so many bytes of a file from the offset on.
    Read {
        path: Path,
        offset: u64,
        count: u64,
    },
    /// What file a path names.
    Stat {
        path: Path,
    },
    /// The long names of the directory that a path names.
    List {
        path: Path,
    },
    /// A file gets one name more.
    Link {
        path: Path,
        to: Path,
    },
    /// A file gets another name.
    Rename {
        path: Path,
        to: Path,
    },
    /// A name of a file goes, and the file with its last one.
    Remove {
        path: Path,
    },
    /// What all turns before this one changed comes onto the disk.
    Sync,
    /// The name index comes to the journal's end.
    Index,
    /// Records of the change journal from a USN on.
    Journal {
        from: u64,
    },
}

// A write of these bytes.
fn written(path: &Path, offset: u64, bytes: &Bytes) -> Result<Op, AllocError>
    ensures { IfOk result (λ op. op ≡ Op.Write path.now offset bytes.now) }
{
    Ok(Op::Write {
        path: path.clone()?,
        offset,
        bytes: bytes.clone()?,
    })
}

// A write of so many bytes of one value.
fn filled(path: &Path, offset: u64, count: u64, byte: u8) -> Result<Op, AllocError>
    ensures { IfOk result (λ op. op ≡ Op.Fill path.now offset count byte) }
{
    Ok(Op::Fill {
        path: path.clone()?,
        offset,
        count,
        byte,
    })
}

// A read of so many bytes.
fn read(path: &Path, offset: u64, count: u64) -> Result<Op, AllocError>
    ensures { IfOk result (λ op. op ≡ Op.Read path.now offset count) }
{
    Ok(Op::Read {
        path: path.clone()?,
        offset,
        count,
    })
}

// A second name of a file.
fn linked(path: &Path, to: &Path) -> Result<Op, AllocError>
    ensures { IfOk result (λ op. op ≡ Op.Link path.now to.now) }
{
    Ok(Op::Link {
        path: path.clone()?,
        to: to.clone()?,
    })
}

// Another name of a file.
fn renamed(path: &Path, to: &Path) -> Result<Op, AllocError>
    ensures { IfOk result (λ op. op ≡ Op.Rename path.now to.now) }
{
    Ok(Op::Rename {
        path: path.clone()?,
        to: to.clone()?,
    })
}

impl Clone for Op {
    fn clone(&self) -> Result<Self, AllocError>
        ensures { IfOk result (λ op. op ≡ self.now) }
    {
        let op = match self {
            Op::Create { path } => Op::Create {
                path: path.clone()?,
            },
            Op::Mkdir { path } => Op::Mkdir {
                path: path.clone()?,
            },
            Op::Write {
                path,
                offset,
                bytes,
            } => written(path, *offset, bytes)?,
            Op::Fill {
                path,
                offset,
                count,
                byte,
            } => filled(path, *offset, *count, *byte)?,
            Op::Truncate { path, size } => Op::Truncate {
                path: path.clone()?,
                size: *size,
            },
            Op::Read {
                path,
                offset,
                count,
            } => read(path, *offset, *count)?,
            Op::Stat { path } => Op::Stat {
                path: path.clone()?,
            },
            Op::List { path } => Op::List {
                path: path.clone()?,
            },
            Op::Link { path, to } => linked(path, to)?,
            Op::Rename { path, to } => renamed(path, to)?,
            Op::Remove { path } => Op::Remove {
                path: path.clone()?,
            },
            Op::Sync => Op::Sync,
            Op::Index => Op::Index,
            Op::Journal { from } => Op::Journal { from: *from },
        };
        Ok(op)
    }
}

/// What a command asks for.
#[derive(Debug, Drop)]
pub enum What {
    /// An operation on the tree, which is one turn.
    Op(Op),
    /// A find in the name index.
    Find(Name),
}

impl Clone for What {
    fn clone(&self) -> Result<Self, AllocError>
        ensures { IfOk result (λ what. what ≡ self.now) }
    {
        match self {
            What::Op(op) => Ok(What::Op(op.clone()?)),
            What::Find(name) => Ok(What::Find(name.clone()?)),
        }
    }
}

/// A command of a script: its client, its number among that client's commands, from 1 on, and what
/// it asks for.
#[derive(Debug, Drop)]
pub struct Command {
    pub client: u32,
    pub number: u32,
    pub what: What,
}

impl Clone for Command {
    fn clone(&self) -> Result<Self, AllocError>
        ensures { IfOk result (λ c. c ≡ self.now) }
    {
        Ok(Command {
            client: self.client,
            number: self.number,
            what: self.what.clone()?,
        })
    }
}

/// The commands of a script in its order, which contracts see as a list.
#[derive(Debug, Drop)]
pub struct Script {
    items: Vec<Command>,
}

impl Model for Script {
    ghost use Rattle.std.specs.Prelude.{List};
    ghost use Rattle.tree_model.specs.declared.script.Command.{Command};

    ghost Value = { List Command };

    ghost view = { λ l. l.items.items };
}

impl From<Vec<Command>> for Script {
    ghost from_gives = { λ items list. list ≡ items.items };

    fn from(items: Vec<Command>) -> Self {
        Script { items }
    }
}

impl Script {
    /// No command; this takes no memory.
    pub fn new(alloc: Global) -> Self
        ensures { result ≡ [] }
    {
        Script {
            items: Vec::new(alloc),
        }
    }

    /// One command more at the end. The error is want of memory, and leaves the list.
    pub fn push(&mut self, command: Command) -> Result<(), AllocError>
        ensures ok { OnOk result (self.new ≡ self.old ++ command ∷ []) }
        ensures err { OnErr result (self.new ≡ self.old) }
    {
        self.items.push(command)?;
        Ok(())
    }

    /// The commands in order.
    pub fn as_slice(&self) -> &[Command]
        ensures { result.now ≡ self.now }
    {
        &self.items
    }
}

impl Clone for Script {
    fn clone(&self) -> Result<Self, AllocError>
        ensures { IfOk result (λ l. l ≡ self.now) }
    {
        let mut copy = Script::new(*self.items.allocator());
        for command in &self.items {
            copy.push(command.clone()?)?;
        }
        Ok(copy)
    }
}
