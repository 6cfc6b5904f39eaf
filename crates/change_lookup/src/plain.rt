//! A tree in memory, of which each list is gone through from the front.
use crate::census::Census;
use std::alloc::Global;
use tree_lookup::{FileRef, LookupFault, Plain, is_in_system, least_ref};

impl Census for Plain<'_> {
    fn room(&self) -> u64 {
        self.tree.room
    }

    fn count(&self) -> u64 {
        self.tree.count
    }

    /// The least spare number, in time linear in the spare numbers.
    fn least_spare(&mut self, _alloc: Global) -> Result<Option<FileRef>, LookupFault> {
        Ok(least_ref(self.tree.spare.as_slice()))
    }

    /// Whether the way up passes a directory of the volume itself, in time linear in the links for
    /// each step of it.
    fn is_in_system(&mut self, _alloc: Global, directory: u64) -> Result<bool, LookupFault> {
        let nodes = self.tree.nodes.as_slice().len();
        Ok(is_in_system(self.tree.links.as_slice(), nodes, directory))
    }
}
