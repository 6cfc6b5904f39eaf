//! The blocks of an index, which are found by their numbers and not listed.
ghost use Rattle.std.specs.Prelude.{◌≡◌, ◌↔◌, [], ◌∷◌, ◌++◌, ◌+◌, ◌*◌, ◌/◌, ◌^◌, ◌<◌, ◌≤◌, ℕ, true, IsTrue, OnOk, OnErr, find, length, min, slice_get};
ghost use Rattle.stream_map.specs.state_model.Streams.{holds, block_at};
ghost use Rattle.stream_map.specs.record_model.Runs.{AreSmall};
ghost use Rattle.stream_map.specs.disk_model.declared.block.BlockKind.TheVariants.{Index};
ghost use Rattle.volume_model.specs.Indexes.{or_void, runs_end, index_block, block_count, blocks_of};
ghost use Rattle.index_tree.specs.Allocations.{stand_apart};

use index_node::Run;
use std::alloc::{AllocError, Global};
use std::marker::Model;
use stream_map::{Block, BlockKind, ClusterSize, Extents, block_at, no_extents};

// The sectors of an index block.
const BLOCK_SECTORS: u64 = 8;

// The bytes of an index block.
const BLOCK_BYTES: u64 = 4096;

// A block past the end of every disk, which is zeros.
const VOID: Block = Block {
    first: 0x4000_0000_0000_0000,
    kind: BlockKind::Index,
};

/// The blocks of an index, which contracts see as a list: those of an index allocation
/// (Linux-NTFS documentation, "$INDEX_ALLOCATION"), each found among the runs when it is asked
/// for, and behind them those that were added. It holds the runs and the blocks that were added,
/// however many blocks the allocation has.
#[derive(Drop)]
pub struct BlockList {
    // The sectors of a cluster.
    per: ClusterSize,
    extents: Extents,
    // Whether the runs stand in order.
    apart: bool,
    // The blocks that the allocation has.
    count: u64,
    more: Vec<Block>,
}

impl Model for BlockList {
    ghost use Rattle.std.specs.Prelude.{List, ◌++◌};
    ghost use Rattle.stream_map.specs.disk_model.declared.block.Block.{Block};

    ghost Value = { List Block };

    ghost use Rattle.volume_model.specs.Indexes.{blocks_of};
    ghost use Rattle.index_tree.specs.Allocations.{IsCounted};

    ghost view = { λ b. blocks_of b.per b.extents ++ b.more.items };

    ghost invariant = { λ b. IsCounted b.per b.extents b.apart b.count };
}

// The number of the block in which the cluster with this VCN lies, or `most`, if that is less.
fn number_in(per: ClusterSize, vcn: u128, most: u64) -> u64
    requires place { vcn < 2 ^ 66 }
    ensures { result ≡ min (vcn * per / 8) most }
{
    let number = vcn * u128::from(per.sectors()) / 8;
    number.min(u128::from(most)) as u64
}

// The VCN behind the last run.
fn runs_end(runs: &[Run]) -> u128
    requires { AreSmall runs.now }
    ensures value { result ≡ runs_end runs.now }
    ensures small { result < 2 ^ 66 }
{
    let mut end = 0;
    for run in runs {
        end = end.max(u128::from(run.vcn) + u128::from(run.len));
    }
    end
}

// How many blocks there are.
#[tactic(auto, unfolding(volume_model::specs::Indexes::block_count))]
fn block_count(per: ClusterSize, extents: &Extents) -> u64
    ensures value { result ≡ block_count per extents.now }
    ensures most { result < 2 ^ 52 }
{
    let most = extents.real / BLOCK_BYTES;
    number_in(per, runs_end(extents.runs.as_slice()), most)
}

// Whether runs stand in order: each begins where the one before it ends, or behind.
fn stand_apart(runs: &[Run]) -> bool
    requires { AreSmall runs.now }
    ensures { result ≡ stand_apart 0 runs.now }
{
    let mut end = 0u128;
    for run in runs {
        if u128::from(run.vcn) < end {
            return false;
        }
        end = u128::from(run.vcn) + u128::from(run.len);
    }
    true
}

// The run in which a block lies that begins at this VCN, if it lies in one of these, which stand in
// order. It is found by halves.
fn run_near(runs: &[Run], vcn: u64) -> &[Run]
    requires apart { stand_apart 0 runs.now ≡ true }
    requires small { AreSmall runs.now }
    ensures small { AreSmall result.now }
    ensures same { (last : ℕ) → vcn ≤ last → find (holds vcn last) result.now ≡ find (holds vcn last) runs.now }
{
    let behind = runs.partition_point(|run| run.vcn <= vcn);
    &runs[behind.saturating_sub(1)..behind]
}

// The run in which the block with this number lies, if it lies in one of these, which stand in
// order.
fn run_of_block(per: ClusterSize, runs: &[Run], number: u64) -> &[Run]
    requires apart { stand_apart 0 runs.now ≡ true }
    requires small { AreSmall runs.now }
    requires place { number < 2 ^ 52 }
    ensures small { AreSmall result.now }
    ensures block { block_at per result.now Index number ≡ block_at per runs.now Index number }
{
    let per = per.sectors();
    run_near(runs, BLOCK_SECTORS * number / per)
}

// The runs among which the block with this number lies, if it lies in one of these.
fn runs_near(per: ClusterSize, runs: &[Run], apart: bool, number: u64) -> &[Run]
    requires apart { apart ≡ stand_apart 0 runs.now }
    requires small { AreSmall runs.now }
    requires place { number < 2 ^ 52 }
    ensures small { AreSmall result.now }
    ensures block { block_at per result.now Index number ≡ block_at per runs.now Index number }
{
    if apart {
        run_of_block(per, runs, number)
    } else {
        runs
    }
}

fn or_void(block: Option<Block>) -> Block
    ensures { result ≡ or_void block }
{
    block.unwrap_or(VOID)
}

// The block of an allocation with this number.
#[tactic(auto, unfolding(volume_model::specs::Indexes::index_block))]
fn index_block(per: ClusterSize, extents: &Extents, apart: bool, number: u64) -> Block
    requires apart { apart ≡ stand_apart 0 extents.now.runs }
    requires place { number < 2 ^ 52 }
    ensures { result ≡ index_block per extents.now number }
{
    if extents.initialised <= BLOCK_BYTES * number {
        return VOID;
    }
    let runs = runs_near(per, extents.runs.as_slice(), apart, number);
    or_void(block_at(per, runs, BlockKind::Index, number))
}

// The block that was added with this number.
fn added(more: &Vec<Block>, number: u64) -> Option<Block>
    ensures { result ≡ slice_get more.now.items number }
{
    more.get(number as usize).copied()
}

impl BlockList {
    /// No blocks; this takes no memory.
    pub fn new(alloc: Global) -> Self
        ensures { result ≡ [] }
    {
        BlockList::of_blocks(alloc, Vec::new(alloc))
    }

    /// These blocks, block i at number i; this takes no memory.
    pub fn of_blocks(alloc: Global, blocks: Vec<Block>) -> Self
        ensures { result ≡ blocks.items }
    {
        BlockList {
            per: ClusterSize::new(8).unwrap(),
            extents: no_extents(alloc),
            apart: true,
            count: 0,
            more: blocks,
        }
    }

    /// The blocks of an index allocation (Linux-NTFS documentation, "$INDEX_ALLOCATION"), in a
    /// volume of `per` sectors a cluster: as many as its real size has and its runs begin. Each
    /// lies in the first run that holds all its clusters. One that lies in no run, or in a sparse
    /// one, and one past the initialised size is a block past the end of every disk.
    ///
    /// It takes no memory, and time linear in the runs.
    pub fn of_extents(alloc: Global, per: ClusterSize, extents: Extents) -> Self
        ensures { result ≡ blocks_of per extents }
    {
        let apart = stand_apart(extents.runs.as_slice());
        let count = block_count(per, &extents);
        BlockList {
            per,
            extents,
            apart,
            count,
            more: Vec::new(alloc),
        }
    }

    /// How many blocks there are.
    pub fn len(&self) -> u64
        ensures { result ≡ length self.now }
    {
        self.count + self.more.len() as u64
    }

    /// Whether there are none.
    pub fn is_empty(&self) -> bool
        ensures { IsTrue result ↔ (self.now ≡ []) }
    {
        self.len() == 0
    }

    /// The block with this number; none from the end on. It takes time logarithmic in the runs of
    /// the allocation, where these stand in order, and linear in them else.
    pub fn get(&self, number: u64) -> Option<Block>
        ensures { result ≡ slice_get self.now number }
    {
        if number < self.count {
            return Some(index_block(self.per, &self.extents, self.apart, number));
        }
        added(&self.more, number - self.count)
    }

    /// Adds a block at the end. The error is want of memory, and leaves the blocks as they were.
    pub fn push(&mut self, block: Block) -> Result<(), AllocError>
        ensures pushed { OnOk result (self.new ≡ self.old ++ block ∷ []) }
        ensures unchanged { OnErr result (self.new ≡ self.old) }
    {
        self.more.push(block)?;
        Ok(())
    }
}
