//! One entry, against one block.
ghost use Rattle.std.specs.Prelude.{◌≡◌, ◌+◌, ◌*◌, ◌≤◌, length};
ghost use Rattle.log_reading.specs.disk_model.Sectors.{sectors, are_rivals};
ghost use Rattle.log_reading.specs.disk_model.Writes.{bytes_after};
ghost use Rattle.log_model.specs.Logs.{kind_of, block_of_kind, updates, updates_rival, covers, act_says, undo_of, redo_of, is_misplaced};
ghost use Rattle.log_recovery.specs.Blocks.{LiesInside};
ghost use Rattle.log_recovery.specs.Finding.{update_block};

use log_model::Act;
use log_reading::{Block, BlockKind, Body};

fn kind_of(kind: u16) -> BlockKind
    ensures { result ≡ kind_of kind }
{
    match kind {
        1 => BlockKind::FileRec,
        2 => BlockKind::Index,
        _ => BlockKind::Plain,
    }
}

/// The block from this sector on, of the kind with this number.
pub fn block_of_kind(first: u64, kind: u16) -> Block
    ensures { result ≡ block_of_kind first kind }
{
    Block {
        first,
        kind: kind_of(kind),
    }
}

// Whether they are of different kinds and share a sector.
fn are_rivals(a: Block, b: Block) -> bool
    ensures { result ≡ are_rivals a b }
{
    let before = a.first < b.first || a.first - b.first < b.kind.sectors() as u64;
    let after = b.first < a.first || b.first - a.first < a.kind.sectors() as u64;
    a.kind != b.kind && before && after
}

/// Whether it is an update of this block.
pub fn updates(block: Block, act: &Act) -> bool
    ensures { result ≡ updates block act.now }
{
    match act {
        Act::Update { first, kind, .. } => block == block_of_kind(*first, *kind),
        Act::Commit => false,
    }
}

/// Whether it is an update of a rival of this block.
pub fn updates_rival(block: Block, act: &Act) -> bool
    ensures { result ≡ updates_rival block act.now }
{
    match act {
        Act::Update { first, kind, .. } => are_rivals(block, block_of_kind(*first, *kind)),
        Act::Commit => false,
    }
}

/// Whether it covers this byte of this block.
pub fn covers(block: Block, i: usize, act: &Act) -> bool
    ensures { result ≡ covers block i act.now }
{
    match act {
        Act::Update {
            first,
            kind,
            at,
            redo,
            ..
        } => {
            let at = *at as usize;
            block == block_of_kind(*first, *kind) && at <= i && i - at < redo.len()
        }
        Act::Commit => false,
    }
}

/// What it says of a block: true, an update of a rival; false, an update of its own that is ended.
pub fn act_says(block: Block, ended: bool, act: &Act) -> Option<bool>
    ensures { result ≡ act_says block ended act.now }
{
    if updates_rival(block, act) {
        Some(true)
    } else if updates(block, act) && ended {
        Some(false)
    } else {
        None
    }
}

/// Whether it reaches past a volume of so many clusters, or past the body of its block.
#[tactic(auto, unfolding(log_model::specs::Logs::is_misplaced))]
pub fn is_misplaced(clusters: u64, act: &Act) -> bool
    ensures { result ≡ is_misplaced clusters act.now }
{
    match act {
        Act::Update {
            first,
            kind,
            at,
            redo,
            ..
        } => {
            let room = 512 * kind_of(*kind).sectors();
            let at = *at as usize;
            clusters <= *first / 8 || room < at || room - at < redo.len()
        }
        Act::Commit => false,
    }
}

/// Puts the old bytes back, where it is an update of this block.
pub fn undo_act(block: Block, act: &Act, out: &mut Body)
    requires lies { LiesInside act.now }
    requires size { length out.old.bytes ≡ 512 * sectors block.kind }
    ensures bytes { out.new.bytes ≡ bytes_after (undo_of act.now) block out.old.bytes }
    ensures torn { out.new.torn ≡ out.old.torn }
    ensures size { length out.new.bytes ≡ 512 * sectors block.kind }
{
    if let Act::Update {
        first,
        kind,
        at,
        undo,
        ..
    } = act
    {
        if block == block_of_kind(*first, *kind) {
            out.put(*at as usize, undo.as_slice());
        }
    }
}

/// Puts the new bytes, where it is an update of this block by an ended transaction.
pub fn redo_act(block: Block, ended: bool, act: &Act, out: &mut Body)
    requires lies { LiesInside act.now }
    requires size { length out.old.bytes ≡ 512 * sectors block.kind }
    ensures bytes { out.new.bytes ≡ bytes_after (redo_of ended act.now) block out.old.bytes }
    ensures torn { out.new.torn ≡ out.old.torn }
    ensures size { length out.new.bytes ≡ 512 * sectors block.kind }
{
    if let Act::Update {
        first,
        kind,
        at,
        redo,
        ..
    } = act
    {
        if ended && block == block_of_kind(*first, *kind) {
            out.put(*at as usize, redo.as_slice());
        }
    }
}

/// The block of an update.
pub fn update_block(act: &Act) -> Option<Block>
    ensures { result ≡ update_block act.now }
{
    match act {
        Act::Update { first, kind, .. } => Some(block_of_kind(*first, *kind)),
        Act::Commit => None,
    }
}
