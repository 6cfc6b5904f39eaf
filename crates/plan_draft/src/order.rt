//! Touched blocks in their order.
ghost use Rattle.std.specs.Prelude.{◌≡◌, ◌*◌, ◌<◌, ◌≤◌, true, IfSome, MatchResult, All, length, nat_lt};
ghost use Rattle.std.specs.Option.{option_copied};
ghost use Rattle.plan_bodies.specs.disk_model.Sectors.{sectors};
ghost use Rattle.plan_draft.specs.Touching.{kind_place, block_key, keys_of, rises, place_in, touched_at, IsWhole, StandsAt, WouldStandAt};

use crate::touched::Touched;
use block_view::{Block, BlockKind};

fn kind_place(kind: BlockKind) -> u8
    ensures value { result ≡ kind_place kind }
    ensures few { result < 3 }
{
    match kind {
        BlockKind::Plain => 0,
        BlockKind::FileRec => 1,
        BlockKind::Index => 2,
    }
}

// Whether a block stands before another one.
fn is_before(a: Block, b: Block) -> bool
    ensures { result ≡ nat_lt (block_key a) (block_key b) }
{
    a.first < b.first || a.first == b.first && kind_place(a.kind) < kind_place(b.kind)
}

// How many blocks stand before this one, by halves.
fn place_of(touched: &[Touched], block: Block) -> usize
    requires { rises 0 (keys_of touched.now) ≡ true }
    ensures place { result ≡ place_in (block_key block) (keys_of touched.now) }
    ensures within { result ≤ length touched.now }
{
    let mut low = 0;
    let mut high = touched.len();
    while low < high {
        let middle = low + (high - low) / 2;
        if is_before(touched[middle].block, block) {
            low = middle + 1;
        } else {
            high = middle;
        }
    }
    low
}

// Where a block stands among those that are touched, or where it would stand.
pub fn locate(touched: &[Touched], block: Block) -> Result<usize, usize>
    requires { rises 0 (keys_of touched.now) ≡ true }
    ensures { MatchResult result (λ at. StandsAt touched.now block at) (λ at. WouldStandAt touched.now block at) }
{
    let at = place_of(touched, block);
    if at < touched.len() && block == touched[at].block {
        Ok(at)
    } else {
        Err(at)
    }
}

// What is touched of a block, if it is.
pub fn find(touched: &[Touched], block: Block) -> Option<&Touched>
    requires rises { rises 0 (keys_of touched.now) ≡ true }
    requires whole { All IsWhole touched.now }
    ensures value { option_copied result ≡ touched_at touched.now block }
    ensures size { IfSome result (λ t. length t.now.new ≡ 512 * sectors block.kind) }
{
    match locate(touched, block) {
        Ok(at) => Some(&touched[at]),
        Err(_) => None,
    }
}
