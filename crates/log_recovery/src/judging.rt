//! What recovery makes of one block.
ghost use Rattle.std.specs.Prelude.{◌≡◌, ◌*◌, ◌≤◌, false, true, length, All, IfOk, IfSome, IfErr};
ghost use Rattle.std.specs.Ordering.{nat_cmp};
ghost use Rattle.std.specs.BTreeSet.{contains};
ghost use Rattle.log_reading.specs.disk_model.Sectors.{sectors};
ghost use Rattle.log_reading.specs.block_view.Views.{AsksView};
ghost use Rattle.log_reading.specs.Views.{NeverForeign, recovery_cause};
ghost use Rattle.log_recovery.specs.Blocks.{Judges, shadowed_by};
ghost use Rattle.log_recovery.specs.Groups.{lent, LentLies};
ghost use Rattle.log_recovery.specs.Finding.{IsSizedFor};

use crate::covering::is_covered_whole;
use crate::ended::Ended;
use crate::found::{Judged, RecoveredBody};
use crate::making::remake;
use crate::walks::is_shadowed;
use log_model::Entry;
use log_reading::{Block, BlockKind, Body, RecoveryFault, View};
use std::alloc::{AllocError, Global};

// A copy of a body.
fn copy_of(alloc: Global, body: &Body) -> Result<Body, AllocError>
    requires { length body.now.bytes ≤ 4096 }
    ensures { IfOk result (λ copy. copy ≡ body.now) }
{
    let mut copy = Body::empty(alloc)?;
    copy.set(body.bytes(), body.torn());
    Ok(copy)
}

// What is found of a block that isn't shadowed, and has this body on the disk.
#[tactic(auto, unfolding(crate::specs::Blocks::other_by))]
fn judge_seen(
    alloc: Global,
    ended: &Ended,
    entries: &[&Entry],
    block: Block,
    before: &Body,
) -> Result<Judged, AllocError>
    requires lies { All LentLies entries.now }
    requires size { length before.now.bytes ≡ 512 * sectors block.kind }
    requires seen { shadowed_by (contains nat_cmp ended.now) (lent entries.now) block ≡ false }
    ensures judged { IfOk result (Judges (contains nat_cmp ended.now) (lent entries.now) block before.now) }
    ensures sized { IfOk result (IsSizedFor block) }
{
    let mut body = copy_of(alloc, before)?;
    remake(ended, entries, block, &mut body);
    let other = body.bytes() != before.bytes();
    let whole = is_covered_whole(alloc, entries, block)?;
    body.set_torn(before.torn() && !whole);
    if block.kind != BlockKind::Plain && !whole && other {
        return Ok(Judged::Partial);
    }
    if other || (before.torn() && whole) {
        let body = RecoveredBody::copy_of(alloc, &body)?;
        return Ok(Judged::Made { body });
    }
    Ok(Judged::Kept)
}

/// What is found of a block by these entries. `body` is room for its body. The view isn't asked for
/// a block that is shadowed.
///
/// - [`RecoveryFault::Fault`]: the view failed. The other error is want of memory.
pub fn judge<V: View>(
    alloc: Global,
    view: &mut V,
    ended: &Ended,
    entries: &[&Entry],
    block: Block,
    body: &mut Body,
) -> Result<Judged, RecoveryFault>
    requires { All LentLies entries.now }
    ensures judged { IfSome (V.content view.old) (λ c. IfOk result (Judges (contains nat_cmp ended.now) (lent entries.now) block (c block))) }
    ensures sized { IfOk result (IsSizedFor block) }
    ensures never { IfErr result NeverForeign }
    ensures kept { AsksView V.content V.kept V.faults recovery_cause view.old view.new result }
    ensures unasked { shadowed_by (contains nat_cmp ended.now) (lent entries.now) block ≡ true → view.new ≡ view.old }
{
    if is_shadowed(ended, entries, block) {
        return Ok(Judged::Shadowed);
    }
    view.body(block, body)?;
    Ok(judge_seen(alloc, ended, entries, block, body)?)
}
