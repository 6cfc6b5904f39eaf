ghost use Rattle.std.specs.Prelude.{◌≡◌, ◌+◌, ◌<◌, ◌≤◌, ◌++◌, ◌∷◌, [], IfSome, IfErr, IfOk, OnOk, length, drop};
ghost use Rattle.index_model.specs.host_base.Answers.{GivesOrFails};
ghost use Rattle.index_plan.specs.Faults.{Fails, OnlyReading, way_cause};
ghost use Rattle.index_plan.specs.declared.fault.PlanFault.TheVariants.{Memory as no_memory};
ghost use Rattle.index_plan.specs.Lists.{entry_at};
ghost use Rattle.index_plan.specs.Room.{EachNodeSized, Sized};
ghost use Rattle.index_plan.specs.Seeking.{OnFound, chain_down, last_down, look_at, own_look, seek_down, seek_in, side_of, with_spot};

use crate::fault::PlanFault;
use crate::frame::Frame;
use crate::look::Look;
use crate::node::down_at;
use crate::nodes::{Nodes, read_below};
use crate::place::Place;
use crate::side::{KeySide, Target};
use crate::trail::Trail;
use crate::write::Write;
use record_model::EntryList;
use std::alloc::{AllocError, Global};

// The search for a key that is there. It goes below the first entry that the key doesn't stand
// behind, and on through the entries of the same name.

fn push(chain: &mut Vec<Write>, write: Write) -> Result<(), PlanFault>
    ensures pushed { OnOk result (chain.new.items ≡ chain.old.items ++ write ∷ []) }
    ensures fault { IfErr result (λ e. e ≡ no_memory) }
{
    match chain.push(write) {
        Ok(()) => Ok(()),
        Err(e) => Err(PlanFault::from(AllocError::from(e))),
    }
}

fn last_down(node: &EntryList) -> Option<u64>
    requires { 0 < length node.now }
    ensures { result ≡ last_down node.now }
{
    down_at(node, node.len() - 1)
}

/// The nodes that last entries lead down to, from the node `down` on, which an entry of the node
/// `above` leads to, on so many levels at most; each is read once.
///
/// - `Node`: the first of them that breaks a rule; 7 where it leads to no block or a level too low.
/// - `Failed`: a node could not be read.
/// - `Memory`: there is no memory left.
fn chain<N: Nodes>(
    nodes: &mut N,
    alloc: Global,
    above: u64,
    down: Option<u64>,
    levels: u32,
) -> Result<Vec<Write>, PlanFault>
    ensures chain { IfSome (N.reads nodes.old) (λ reads. GivesOrFails (λ chain. chain.items) way_cause result (chain_down reads levels above down)) }
    ensures sized { IfOk result (λ chain. EachNodeSized chain.items) }
    ensures only { IfErr result OnlyReading }
    ensures unchanged { N.reads nodes.new ≡ N.reads nodes.old }
    ensures cause { Fails (N.faults nodes.old) (N.faults nodes.new) result }
{
    let mut chain = Vec::new(alloc);
    let mut above = above;
    let mut down = down;
    for level in 0..levels {
        let Some(vcn) = down else {
            return Ok(chain);
        };
        let entries = read_below(nodes, alloc, above, vcn)?;
        down = last_down(&entries);
        push(&mut chain, Write { vcn, entries })?;
        above = vcn;
    }
    match down {
        None => Ok(chain),
        Some(_) => Err(PlanFault::Node {
            vcn: above,
            rule: 7,
        }),
    }
}

// Where the key stands against the entry at `at`; on either side of the last one.
fn side_at<T: Target>(target: &T, node: &EntryList, at: usize) -> KeySide
    requires { at < length node.now }
    ensures { result ≡ side_of (T.side target.now) (entry_at at node.now) (drop (at + 1) node.now) }
{
    if at == node.len() - 1 {
        return KeySide::Beside;
    }
    target.side(&node.as_slice()[at])
}

// What an entry says below which the key isn't.
fn own_look<N: Nodes>(
    nodes: &mut N,
    alloc: Global,
    side: KeySide,
    vcn: u64,
    down: Option<u64>,
    levels: u32,
) -> Result<Look, PlanFault>
    ensures look { IfSome (N.reads nodes.old) (λ reads. GivesOrFails (λ look. look) way_cause result (own_look side (chain_down reads levels vcn down))) }
    ensures few { IfOk result (λ look. OnFound look (λ t. t.path ≡ [])) }
    ensures only { IfErr result OnlyReading }
    ensures unchanged { N.reads nodes.new ≡ N.reads nodes.old }
    ensures cause { Fails (N.faults nodes.old) (N.faults nodes.new) result }
{
    match side {
        KeySide::Behind => Ok(Look::On),
        KeySide::Beside => Ok(Look::On),
        KeySide::Here => {
            let chain = chain(nodes, alloc, vcn, down, levels)?;
            Ok(Look::Found(Trail::new(alloc, chain)))
        }
        KeySide::Before => Ok(Look::Stop),
    }
}

// What the entry at `at` of the node `vcn` says, with so many levels below.
#[cycle(search)]
fn look_at<N: Nodes, T: Target>(
    nodes: &mut N,
    alloc: Global,
    target: &T,
    vcn: u64,
    node: &EntryList,
    at: usize,
    levels: u32,
) -> Result<Look, PlanFault>
    requires { at < length node.now }
    ensures look { IfSome (N.reads nodes.old) (λ reads. GivesOrFails (λ look. look) way_cause result (look_at (side_of (T.side target.now) (entry_at at node.now) (drop (at + 1) node.now)) (seek_down reads (T.side target.now) levels vcn (entry_at at node.now).down) (chain_down reads levels vcn (entry_at at node.now).down))) }
    ensures few { IfOk result (λ look. OnFound look (λ t. length t.path ≤ levels)) }
    ensures only { IfErr result OnlyReading }
    ensures unchanged { N.reads nodes.new ≡ N.reads nodes.old }
    ensures cause { Fails (N.faults nodes.old) (N.faults nodes.new) result }
{
    let side = side_at(target, node, at);
    if side.is_behind() {
        return Ok(Look::On);
    }
    let down = down_at(node, at);
    match seek_down(nodes, alloc, target, vcn, down, levels)? {
        Some(trail) => Ok(Look::Found(trail)),
        None => own_look(nodes, alloc, side, vcn, down, levels),
    }
}

/// The search for a key in the node `vcn` and below it, on so many levels at most. It reads the
/// nodes on one way down, and those between entries of the same name.
///
/// - `Node`: the first node that was read and breaks a rule; 7 where it leads to no block or a
///   level too low.
/// - `Failed`: a node could not be read.
/// - `Memory`: there is no memory left.
#[cycle(search)]
pub fn seek_in<N: Nodes, T: Target>(
    nodes: &mut N,
    alloc: Global,
    target: &T,
    vcn: u64,
    node: &EntryList,
    levels: u32,
) -> Result<Option<Place>, PlanFault>
    ensures place { IfSome (N.reads nodes.old) (λ reads. GivesOrFails (λ place. place) way_cause result (seek_in reads (T.side target.now) levels vcn node.now)) }
    ensures inside { IfOk result (λ place. IfSome place (λ p. p.at < length node.now)) }
    ensures few { IfOk result (λ place. IfSome place (λ p. length p.trail.path ≤ levels)) }
    ensures only { IfErr result OnlyReading }
    ensures unchanged { N.reads nodes.new ≡ N.reads nodes.old }
    ensures cause { Fails (N.faults nodes.old) (N.faults nodes.new) result }
{
    for at in 0..node.len() {
        match look_at(nodes, alloc, target, vcn, node, at, levels)? {
            Look::Found(trail) => return Ok(Some(Place { at, trail })),
            Look::Stop => return Ok(None),
            Look::On => {}
        }
    }
    Ok(None)
}

// The trail from above the node in which a place was found.
fn with_spot(vcn: u64, node: EntryList, place: Option<Place>) -> Result<Option<Trail>, AllocError>
    requires inside { IfSome place (λ p. p.at < length node) }
    requires sized { Sized node }
    ensures { IfOk result (λ trail. trail ≡ with_spot vcn node place) }
{
    let Some(place) = place else {
        return Ok(None);
    };
    let Place { at, mut trail } = place;
    trail.put_above(Frame::new(vcn, node, at))?;
    Ok(Some(trail))
}

// The search below an entry of the node `above`, which leads down to `down`.
#[cycle(search)]
fn seek_down<N: Nodes, T: Target>(
    nodes: &mut N,
    alloc: Global,
    target: &T,
    above: u64,
    down: Option<u64>,
    levels: u32,
) -> Result<Option<Trail>, PlanFault>
    ensures trail { IfSome (N.reads nodes.old) (λ reads. GivesOrFails (λ trail. trail) way_cause result (seek_down reads (T.side target.now) levels above down)) }
    ensures few { IfOk result (λ trail. IfSome trail (λ t. length t.path ≤ levels)) }
    ensures only { IfErr result OnlyReading }
    ensures unchanged { N.reads nodes.new ≡ N.reads nodes.old }
    ensures cause { Fails (N.faults nodes.old) (N.faults nodes.new) result }
{
    let Some(vcn) = down else {
        return Ok(None);
    };
    if levels == 0 {
        return Err(PlanFault::Node {
            vcn: above,
            rule: 7,
        });
    }
    let node = read_below(nodes, alloc, above, vcn)?;
    let place = seek_in(nodes, alloc, target, vcn, &node, levels - 1)?;
    Ok(with_spot(vcn, node, place)?)
}
