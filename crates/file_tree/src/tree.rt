ghost use Rattle.std.specs.Prelude.{◌≡◌, IfOk};

use crate::journal::Journal;
use crate::link::{FileRefList, LinkList};
use crate::node::NodeList;
use std::alloc::AllocError;

/// The root's number.
pub const ROOT: u64 = 5;

/// File records below this one are those of the volume itself.
pub const FIRST_USER_RECORD: u64 = 24;

/// A file tree.
#[derive(Debug, Drop)]
pub struct Tree {
    pub nodes: NodeList,
    pub links: LinkList,
    /// The record numbers that new files may get, with the sequence that each would get.
    pub spare: FileRefList,
    /// How many records the file table has.
    pub count: u64,
    pub journal: Option<Journal>,
    /// How many clusters are free.
    pub room: u64,
}

fn copy_of(journal: &Option<Journal>) -> Result<Option<Journal>, AllocError>
    ensures { IfOk result (λ j. j ≡ journal.now) }
{
    match journal {
        Some(journal) => Ok(Some(journal.clone()?)),
        None => Ok(None),
    }
}

impl Clone for Tree {
    fn clone(&self) -> Result<Self, AllocError>
        ensures { IfOk result (λ t. t ≡ self.now) }
    {
        Ok(Tree {
            nodes: self.nodes.clone()?,
            links: self.links.clone()?,
            spare: self.spare.clone()?,
            count: self.count,
            journal: copy_of(&self.journal)?,
            room: self.room,
        })
    }
}
