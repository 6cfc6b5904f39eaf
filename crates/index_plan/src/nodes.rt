ghost use Rattle.std.specs.Prelude.{◌≡◌, ◌<◌, IfErr, IfOk, IfSome, length};
ghost use Rattle.index_model.specs.host_base.Answers.{GivesOrFails};
ghost use Rattle.index_plan.specs.Faults.{Fails, OnlyReading, ReadFails, read_cause, told, way_cause};
ghost use Rattle.index_plan.specs.Reading.{read_by};
ghost use Rattle.index_plan.specs.Room.{Sized};

use crate::fault::{PlanFault, ReadFault};
use record_model::EntryList;
use std::alloc::Global;

/// The nodes of an index below its root, by VCN.
pub trait Nodes {
    ghost use Rattle.std.specs.Prelude.{ℕ, Option};
    ghost use Rattle.index_plan.specs.Reading.{NodeReads};

    /// The entries of each node, or the rule that it breaks, where they are known.
    ghost reads: { Self → Option NodeReads };

    /// How often a node could not be read; this never falls.
    ghost faults: { Self → ℕ };

    /// The entries of the node under this VCN, the last one among them.
    ///
    /// - `Rule`: the rule of index nodes that the node breaks; 7 where no block has this VCN.
    /// - `Failed`: the node could not be read, and that is counted.
    /// - `Memory`: there is no memory left.
    fn read(&mut self, alloc: Global, vcn: u64) -> Result<EntryList, ReadFault>
        ensures node { IfSome (reads self.old) (λ r. GivesOrFails (λ node. node) read_cause result (r vcn)) }
        ensures some { IfOk result (λ node. 0 < length node) }
        ensures sized { IfOk result Sized }
        ensures unchanged { reads self.new ≡ reads self.old }
        ensures cause { ReadFails (faults self.old) (faults self.new) result };
}

// What is said of a node below the node `above` that was not read.
fn told(above: u64, vcn: u64, fault: ReadFault) -> PlanFault
    ensures value { result ≡ told above vcn fault }
    ensures only { OnlyReading result }
{
    match fault {
        ReadFault::Rule { rule } => PlanFault::Node {
            vcn: if rule == 7 { above } else { vcn },
            rule,
        },
        ReadFault::Failed => PlanFault::Failed,
        ReadFault::Memory => PlanFault::Memory,
    }
}

/// The entries of the node `vcn`, which an entry of the node `above` leads to.
///
/// - `Node`: the node breaks a rule; where no block has its VCN, the node `above` breaks rule 7.
/// - `Failed`: the node could not be read.
/// - `Memory`: there is no memory left.
pub fn read_below<N: Nodes>(
    nodes: &mut N,
    alloc: Global,
    above: u64,
    vcn: u64,
) -> Result<EntryList, PlanFault>
    ensures node { IfSome (N.reads nodes.old) (λ r. GivesOrFails (λ node. node) way_cause result (read_by above vcn (r vcn))) }
    ensures some { IfOk result (λ node. 0 < length node) }
    ensures sized { IfOk result Sized }
    ensures only { IfErr result OnlyReading }
    ensures unchanged { N.reads nodes.new ≡ N.reads nodes.old }
    ensures cause { Fails (N.faults nodes.old) (N.faults nodes.new) result }
{
    match nodes.read(alloc, vcn) {
        Ok(node) => Ok(node),
        Err(fault) => Err(told(above, vcn, fault)),
    }
}
