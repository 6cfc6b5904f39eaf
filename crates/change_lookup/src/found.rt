use tree_lookup::{FileRef, Name, Node, Reply};

/// What an operation that makes, writes or cuts a file comes to, before it is done.
#[derive(Debug, Drop)]
pub enum Found {
    /// It is refused by this row.
    Refused(Reply),
    /// The file that is written or cut, without its bytes, and whether the operation changes it: a
    /// write of no bytes and a truncate to the same size don't.
    File {
        node: Node,
        changes: bool,
    },
    /// Where a new file comes: the directory, its name there, and its number and sequence.
    Place {
        directory: Node,
        name: Name,
        number: FileRef,
    },
}
