ghost use Rattle.std.specs.Prelude.{◌≡◌};
ghost use Rattle.index_model.specs.Indexes.{number_of, node_block};
ghost use Rattle.index_tree.specs.Places.{place_of};

use crate::blocks::BlockList;
use stream_map::Block;
use volume_model::Bytes;

/// Where a directory's index lies.
#[derive(Drop)]
pub struct DirPlace {
    /// The value of the index root.
    pub root: Bytes,
    /// The index blocks in order; block i has the VCN i * step.
    pub blocks: BlockList,
    /// The VCNs from one block to the next.
    pub step: u64,
    /// The used bytes of the file record that holds the root.
    pub used: u32,
}

impl DirPlace {
    /// The number of the block that has this VCN, if one has it.
    pub fn number_of(&self, vcn: u64) -> u64
        ensures { result ≡ number_of (place_of self.now) vcn }
    {
        if self.step == 0 { 0 } else { vcn / self.step }
    }

    /// The block that has this VCN. There is none where the VCN lies outside the allocation. As
    /// [`BlockList::get`], it goes over no other block.
    #[tactic(auto, unfolding(index_model::specs::Indexes::node_block))]
    pub fn node_block(&self, vcn: u64) -> Option<Block>
        ensures { result ≡ node_block (place_of self.now) vcn }
    {
        if self.step == 0 || vcn % self.step != 0 {
            return None;
        }
        self.blocks.get(self.number_of(vcn))
    }
}
