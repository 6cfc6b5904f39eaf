//! Where things lie in the volumes of the rows, in pieces of eight sectors: the file table in the
//! pieces 2 to 9, with room for more of it from 16 on, the bitmaps in 10 and 11, an attribute list
//! in 12, and an index in 13.
ghost use Rattle.std.specs.Prelude.{◌*◌, ◌^◌, ◌<◌};

use block_view::{Block, BlockKind};
use state_model::ClusterSize;
use volume_images::per_cluster;
use volume_map::Geometry;

/// A volume: the sectors of its clusters, 1 or 8, and whether its files may get attribute lists.
#[derive(Clone, Copy)]
pub struct Layout {
    pub per: u8,
    pub lists: bool,
}

/// The piece of the clusters' bitmap.
pub const BITMAP_PIECE: u16 = 10;

/// The piece of the records' bitmap.
pub const MARKS_PIECE: u16 = 11;

/// The piece of an attribute list.
pub const LIST_PIECE: u16 = 12;

/// The piece of an index block.
pub const INDEX_PIECE: u16 = 13;

impl Layout {
    /// The clusters of so many pieces.
    pub fn clusters(&self, pieces: u16) -> u16 {
        if self.per == 1 {
            pieces.saturating_mul(8)
        } else {
            pieces
        }
    }

    /// The sectors of a cluster.
    pub fn size(&self) -> ClusterSize {
        per_cluster(self.per)
    }

    /// Where the file table is found.
    pub fn geometry(&self) -> Geometry
        ensures { result.mft * result.per_cluster < 2 ^ 62 }
    {
        Geometry {
            per_cluster: self.size(),
            mft: u64::from(self.clusters(2)),
        }
    }

    /// How many clusters the volume has.
    pub fn count(&self) -> u64 {
        u64::from(self.clusters(40))
    }
}

/// The first sector of a piece.
pub fn sector_of(piece: u16) -> u64 {
    u64::from(piece).saturating_mul(8)
}

/// Where a record lies: 32 in the first place of the table, and the others in the second.
pub fn record_block(number: u16) -> Block {
    let first = if number < 32 {
        u64::from(number).saturating_mul(2).saturating_add(16)
    } else {
        u64::from(number).saturating_mul(2).saturating_add(64)
    };
    Block {
        first,
        kind: BlockKind::FileRec,
    }
}

/// A sector of a piece.
pub fn sector_block(piece: u16) -> Block {
    Block {
        first: sector_of(piece),
        kind: BlockKind::Plain,
    }
}
