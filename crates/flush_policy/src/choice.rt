//! The choice of the next step.
ghost use Rattle.std.specs.Prelude.{◌≡◌};
ghost use Rattle.flush_policy.specs.Choice.{may_begin, is_half_used, step_of_ring, step_of_blocks, next_step};

use crate::facts::{Facts, StoreStep};
use disk_model::Block;

fn may_begin(facts: &Facts) -> bool
    ensures { result ≡ may_begin facts.now }
{
    facts.fresh && !facts.begun
}

fn is_half_used(facts: &Facts) -> bool
    ensures { result ≡ is_half_used facts.now }
{
    facts.pages.saturating_sub(facts.pages_used) <= facts.pages_used
}

/// The step where all that was written is durable and no block may be written out.
#[tactic(auto, unfolding(crate::specs::Choice::step_of_ring))]
fn step_of_ring(facts: &Facts) -> Option<StoreStep>
    ensures { result ≡ step_of_ring facts.now }
{
    if facts.begun && facts.noted_left == 0 {
        Some(StoreStep::WriteRestart)
    } else if may_begin(facts) && is_half_used(facts) {
        Some(StoreStep::BeginCheckpoint)
    } else if facts.filling {
        Some(StoreStep::SealPage)
    } else if may_begin(facts) {
        Some(StoreStep::BeginCheckpoint)
    } else {
        None
    }
}

/// The step where each sealed page was written, and this block is ready.
#[tactic(auto, unfolding(crate::specs::Choice::step_of_blocks))]
fn step_of_blocks(ready: Option<Block>, facts: &Facts) -> Option<StoreStep>
    ensures { result ≡ step_of_blocks ready facts.now }
{
    match ready {
        Some(block) => Some(StoreStep::WriteOut(block)),
        None => {
            if facts.unsynced {
                Some(StoreStep::SyncDevice)
            } else {
                step_of_ring(facts)
            }
        }
    }
}

/// The step that a store takes next: the first that applies of a page's write, a write-out, a sync,
/// the restart page of a checkpoint that owes nothing more, a checkpoint where half of the ring is
/// used, the seal of a page, and a checkpoint; or none. Takes no memory, in constant time.
#[tactic(auto, unfolding(crate::specs::Choice::next_step))]
pub fn next_step(facts: &Facts) -> Option<StoreStep>
    ensures { result ≡ next_step facts.now }
{
    if facts.sealed != 0 {
        Some(StoreStep::WritePage)
    } else {
        step_of_blocks(facts.ready, facts)
    }
}
