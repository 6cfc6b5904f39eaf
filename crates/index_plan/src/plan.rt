ghost use Rattle.std.specs.Prelude.{◌≡◌, ◌≤◌, ◌<◌, ℕ, Some, IfOk, IfErr, OnOk, true, false, length, IsTrue};
ghost use Rattle.index_plan.specs.Lists.{rise, rooted, overfull};
ghost use Rattle.index_plan.specs.Growth.{fits_in};
ghost use Rattle.index_plan.specs.Takings.{drawn, key_of, none_drawn, plan_with, removed, rooted_raws, too_full};
ghost use Rattle.index_plan.specs.Faults.{OnlyDeep};

use crate::draft::Draft;
use crate::fault::PlanFault;
use crate::frame::Frame;
use crate::node::{fits_in, last_node, put_instead};
use crate::numbers::Numbers;
use crate::write::Write;
use index_model::Key;
use record_model::{Entry, EntryList};
use std::alloc::Global;

/// The root's new entries, and the plan of the blocks.
#[derive(Debug, Drop)]
pub struct Rooted {
    pub root: EntryList,
    pub plan: Draft,
}

/// The root gets these entries; where its room is too small, they go into a fresh block.
fn fill_root(
    alloc: Global,
    root: EntryList,
    plan: Draft,
    room: usize,
    height: u32,
) -> Result<Rooted, PlanFault>
    ensures plan { IfOk result (λ p. p ≡ rooted_raws room root plan) }
    ensures deep { IfErr result (λ e. OnlyDeep e (λ h. (h ≡ height) × (16 ≤ height) × (fits_in room root ≡ false))) }
    ensures level { OnOk result (fits_in room root ≡ false → height < 16) }
{
    if fits_in(&root, room) {
        return Ok(Rooted { root, plan });
    }
    if 16 <= height {
        return Err(PlanFault::Deep { height });
    }
    let mut plan = plan;
    match plan.take_fresh() {
        None => Ok(Rooted { root, plan }),
        Some(fresh) => {
            plan.write(fresh, root)?;
            Ok(Rooted {
                root: last_node(alloc, Some(fresh))?,
                plan,
            })
        }
    }
}

/// The root takes what is pending.
#[tactic(auto, unfolding(crate::specs::Lists::rooted, crate::specs::Lists::overfull))]
fn take_root(
    alloc: Global,
    root: EntryList,
    at: usize,
    pending: Option<Entry>,
    plan: Draft,
    room: usize,
    height: u32,
) -> Result<Rooted, PlanFault>
    requires { at ≤ length root }
    ensures plan { IfOk result (λ p. p ≡ rooted room root at (record { pending = pending; plan = plan })) }
    ensures deep { IfErr result (λ e. OnlyDeep e (λ h. (h ≡ height) × (16 ≤ height) × IsTrue (overfull room root at (record { pending = pending; plan = plan })))) }
    ensures level { OnOk result (IsTrue (overfull room root at (record { pending = pending; plan = plan })) → height < 16) }
{
    let Some(entry) = pending else {
        return Ok(Rooted { root, plan });
    };
    let mut root = root;
    root.insert(at, entry)?;
    fill_root(alloc, root, plan, room, height)
}

/// The plan that puts an entry into the place that the way leads to.
pub fn plan_at(
    alloc: Global,
    root: EntryList,
    at: usize,
    path: Vec<Frame>,
    entry: Entry,
    draft: Draft,
    room: usize,
    height: u32,
) -> Result<Rooted, PlanFault>
    requires { at ≤ length root }
    ensures plan { IfOk result (λ p. p ≡ rooted room root at (rise path.items (record { pending = Some entry; plan = draft }))) }
    ensures deep { IfErr result (λ e. OnlyDeep e (λ h. (h ≡ height) × (16 ≤ height) × IsTrue (overfull room root at (rise path.items (record { pending = Some entry; plan = draft }))))) }
    ensures level { OnOk result (IsTrue (overfull room root at (rise path.items (record { pending = Some entry; plan = draft }))) → height < 16) }
{
    let mut draft = draft;
    let pending = draft.climb(alloc, path, Some(entry))?;
    take_root(alloc, root, at, pending, draft, room, height)
}

/// The plan that takes an entry out of the place that the way leads to; key is what comes in its
/// place.
#[tactic(auto, unfolding(crate::specs::Takings::removed, crate::specs::Takings::too_full))]
fn take_out(
    alloc: Global,
    root: EntryList,
    at: usize,
    path: Vec<Frame>,
    key: Option<Key>,
    draft: Draft,
    room: usize,
    height: u32,
) -> Result<Rooted, PlanFault>
    requires { at < length root }
    ensures plan { IfOk result (λ p. p ≡ removed room root at path.items key draft) }
    ensures deep { IfErr result (λ e. OnlyDeep e (λ h. (h ≡ height) × (16 ≤ height) × IsTrue (too_full room root at path.items key draft))) }
    ensures level { OnOk result (IsTrue (too_full room root at path.items key draft) → height < 16) }
{
    let mut path = path;
    let mut draft = draft;
    match path.pop() {
        None => {
            let mut root = root;
            put_instead(&mut root, at, key);
            fill_root(alloc, root, draft, room, height)
        }
        Some(frame) => {
            let (vcn, mut node, place) = frame.into_parts();
            put_instead(&mut node, place, key);
            let pending = draft.settle(alloc, vcn, node)?;
            let pending = draft.climb(alloc, path, pending)?;
            take_root(alloc, root, at, pending, draft, room, height)
        }
    }
}

/// The plan that takes an entry out, with the chain of nodes below it.
pub fn plan_out(
    alloc: Global,
    root: EntryList,
    at: usize,
    path: Vec<Frame>,
    chain: Vec<Write>,
    draft: Draft,
    room: usize,
    height: u32,
) -> Result<(Rooted, Numbers), PlanFault>
    requires { at < length root }
    ensures plan { IfOk result (λ p. p.0 ≡ removed room root at path.items (key_of (drawn none_drawn chain.items).taken) (plan_with draft (drawn none_drawn chain.items).taken)) }
    ensures freed { IfOk result (λ p. p.1 ≡ (drawn none_drawn chain.items).freed) }
    ensures deep { IfErr result (λ e. OnlyDeep e (λ h. (h ≡ height) × (16 ≤ height) × IsTrue (too_full room root at path.items (key_of (drawn none_drawn chain.items).taken) (plan_with draft (drawn none_drawn chain.items).taken)))) }
    ensures level { OnOk result (IsTrue (too_full room root at path.items (key_of (drawn none_drawn chain.items).taken) (plan_with draft (drawn none_drawn chain.items).taken)) → height < 16) }
{
    let mut draft = draft;
    let mut freed = Numbers::new(alloc);
    let key = draft.pull(alloc, chain, &mut freed)?;
    let rooted = take_out(alloc, root, at, path, key, draft, room, height)?;
    Ok((rooted, freed))
}
