ghost use Rattle.std.specs.Prelude.{◌≡◌, ◌<◌, ◌≤◌, ◌++◌, ◌∷◌, [], IfSome, IfErr, IfOk, OnOk, OnErr, length};
ghost use Rattle.index_model.specs.host_base.Answers.{GivesOrFails};
ghost use Rattle.index_plan.specs.Faults.{Fails, OnlyReading, way_cause};
ghost use Rattle.index_plan.specs.declared.fault.PlanFault.TheVariants.{Memory as no_memory};
ghost use Rattle.index_plan.specs.Lists.{own_key};
ghost use Rattle.index_plan.specs.Reading.{first_stop, way_of};
ghost use Rattle.index_plan.specs.Room.{EachSpotSized};

use crate::fault::PlanFault;
use crate::frame::Frame;
use crate::node::down_at;
use crate::nodes::{Nodes, read_below};
use index_model::ROOT_VCN;
use record_model::{Entry, EntryList};
use std::alloc::{AllocError, Global};

// The way from the root down to the place of a new key.

/// Which keys a new one goes before.
pub trait Test {
    ghost use Rattle.std.specs.Prelude.{Bool};
    ghost use Rattle.index_model.specs.declared.key.Key.{Key};

    ghost goes: { Self → Key → Bool };

    fn goes_before(&self, entry: &Entry) -> bool
        ensures { result ≡ goes self.now (own_key entry.now) };
}

/// The first entry with a key that the new one goes before, else the last one. Linear in the
/// entries.
pub fn stop<T: Test>(test: &T, node: &EntryList) -> usize
    requires { 0 < length node.now }
    ensures value { result ≡ first_stop (T.goes test.now) node.now }
    ensures inside { result < length node.now }
{
    let entries = node.as_slice();
    for (i, entry) in entries.iter().enumerate() {
        if i + 1 == entries.len() || test.goes_before(entry) {
            return i;
        }
    }
    0
}

fn push(path: &mut Vec<Frame>, frame: Frame) -> Result<(), PlanFault>
    ensures pushed { OnOk result (path.new.items ≡ path.old.items ++ frame ∷ []) }
    ensures fault { IfErr result (λ e. e ≡ no_memory) }
{
    match path.push(frame) {
        Ok(()) => Ok(()),
        Err(e) => Err(PlanFault::from(AllocError::from(e))),
    }
}

/// The nodes on the way to the place of a new key, from below the root down, at most fifteen; each
/// is read once.
///
/// - `Node`: the first node on the way that breaks a rule; 7 where it leads to no block or below
///   the sixteenth level.
/// - `Failed`: a node could not be read.
/// - `Memory`: there is no memory left.
pub fn way<N: Nodes, T: Test>(
    nodes: &mut N,
    alloc: Global,
    test: &T,
    root: &EntryList,
) -> Result<Vec<Frame>, PlanFault>
    requires { 0 < length root.now }
    ensures way { IfSome (N.reads nodes.old) (λ reads. GivesOrFails (λ path. path.items) way_cause result (way_of reads (T.goes test.now) root.now)) }
    ensures sized { IfOk result (λ path. EachSpotSized path.items) }
    ensures few { IfOk result (λ path. length path.items ≤ 15) }
    ensures only { IfErr result OnlyReading }
    ensures unchanged { N.reads nodes.new ≡ N.reads nodes.old }
    ensures cause { Fails (N.faults nodes.old) (N.faults nodes.new) result }
{
    let mut path = Vec::new(alloc);
    let mut above = ROOT_VCN;
    let mut down = down_at(root, stop(test, root));
    for level in 0u32..15 {
        let Some(vcn) = down else {
            return Ok(path);
        };
        let node = read_below(nodes, alloc, above, vcn)?;
        let at = stop(test, &node);
        down = down_at(&node, at);
        push(&mut path, Frame::new(vcn, node, at))?;
        above = vcn;
    }
    match down {
        None => Ok(path),
        Some(_) => Err(PlanFault::Node {
            vcn: above,
            rule: 7,
        }),
    }
}
