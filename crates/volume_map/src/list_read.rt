ghost use Rattle.volume_map.specs.Lists.{read_of};
ghost use Rattle.std.specs.Prelude.{◌≡◌, [], true};

use record_model::ListEntry;
use std::alloc::Global;

/// The entries of an attribute list up to the first that is at fault, and whether there is none.
#[derive(Debug, Drop)]
pub struct ListRead {
    pub entries: Vec<ListEntry>,
    pub whole: bool,
}

impl ListRead {
    /// That of a list of no bytes; this takes no memory.
    pub fn empty(alloc: Global) -> ListRead
        ensures { read_of result ≡ record { entries = []; whole = true } }
    {
        ListRead {
            entries: Vec::new(alloc),
            whole: true,
        }
    }
}
