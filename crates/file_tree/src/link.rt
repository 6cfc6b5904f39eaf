ghost use Rattle.std.specs.Prelude.{◌≡◌, [], ◌∷◌, ◌++◌, IfOk, OnOk, OnErr};

use std::alloc::{AllocError, Global};
use std::marker::Model;
use utf16_name::{FileRef, Name};

/// The namespace of Win32 (Linux-NTFS documentation, "$FILE_NAME").
pub const WIN32: u8 = 1;

/// The namespace of short names, that of DOS (Linux-NTFS documentation, "$FILE_NAME").
pub const SHORT: u8 = 2;

/// A name of a file in a directory (Linux-NTFS documentation, "$FILE_NAME").
#[derive(Debug, PartialEq, Eq, Drop)]
pub struct Link {
    /// The directory.
    pub parent: FileRef,
    pub name: Name,
    /// The namespace: 0 POSIX, 1 Win32, 2 DOS, 3 both.
    pub space: u8,
    /// The file.
    pub child: FileRef,
}

impl Clone for Link {
    fn clone(&self) -> Result<Self, AllocError>
        ensures { IfOk result (λ l. l ≡ self.now) }
    {
        Ok(Link {
            parent: self.parent,
            name: self.name.clone()?,
            space: self.space,
            child: self.child,
        })
    }
}

/// Names of files, which contracts see as a list.
#[derive(Debug, Drop)]
pub struct LinkList {
    items: Vec<Link>,
}

impl Model for LinkList {
    ghost use Rattle.std.specs.Prelude.{List};
    ghost use Rattle.file_tree.specs.declared.link.Link.{Link};

    ghost Value = { List Link };

    ghost view = { λ l. l.items.items };
}

impl From<Vec<Link>> for LinkList {
    ghost from_gives = { λ items list. list ≡ items.items };

    fn from(items: Vec<Link>) -> Self {
        LinkList { items }
    }
}

impl LinkList {
    /// No link; this takes no memory.
    pub fn new(alloc: Global) -> Self
        ensures { result ≡ [] }
    {
        LinkList {
            items: Vec::new(alloc),
        }
    }

    /// One link more at the end. The error is want of memory, and leaves the list.
    pub fn push(&mut self, link: Link) -> Result<(), AllocError>
        ensures ok { OnOk result (self.new ≡ self.old ++ link ∷ []) }
        ensures err { OnErr result (self.new ≡ self.old) }
    {
        self.items.push(link)?;
        Ok(())
    }

    /// The links in order.
    pub fn as_slice(&self) -> &[Link]
        ensures { result.now ≡ self.now }
    {
        &self.items
    }
}

impl Clone for LinkList {
    fn clone(&self) -> Result<Self, AllocError>
        ensures { IfOk result (λ l. l ≡ self.now) }
    {
        let mut copy = LinkList::new(*self.items.allocator());
        for link in &self.items {
            copy.push(link.clone()?)?;
        }
        Ok(copy)
    }
}

/// References to file records, which contracts see as a list.
#[derive(Debug, Drop)]
pub struct FileRefList {
    items: Vec<FileRef>,
}

impl Model for FileRefList {
    ghost use Rattle.std.specs.Prelude.{List};
    ghost use Rattle.utf16_name.specs.host_base.declared.file_ref.FileRef.{FileRef};

    ghost Value = { List FileRef };

    ghost view = { λ l. l.items.items };
}

impl From<Vec<FileRef>> for FileRefList {
    ghost from_gives = { λ items list. list ≡ items.items };

    fn from(items: Vec<FileRef>) -> Self {
        FileRefList { items }
    }
}

impl FileRefList {
    /// No reference; this takes no memory.
    pub fn new(alloc: Global) -> Self
        ensures { result ≡ [] }
    {
        FileRefList {
            items: Vec::new(alloc),
        }
    }

    /// One reference more at the end. The error is want of memory, and leaves the list.
    pub fn push(&mut self, file: FileRef) -> Result<(), AllocError>
        ensures ok { OnOk result (self.new ≡ self.old ++ file ∷ []) }
        ensures err { OnErr result (self.new ≡ self.old) }
    {
        self.items.push(file)?;
        Ok(())
    }

    /// The references in order.
    pub fn as_slice(&self) -> &[FileRef]
        ensures { result.now ≡ self.now }
    {
        &self.items
    }
}

impl Clone for FileRefList {
    fn clone(&self) -> Result<Self, AllocError>
        ensures { IfOk result (λ l. l ≡ self.now) }
    {
        Ok(FileRefList {
            items: self.items.clone()?,
        })
    }
}
