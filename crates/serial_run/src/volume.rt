ghost use Rattle.std.specs.Prelude.{◌≡◌, ℕ, List, Option, true, IfSome};
ghost use Rattle.file_tree.specs.declared.tree.Tree.{Tree as the_tree};
ghost use Rattle.tree_model.specs.Steps.{is_look, IsStep};
ghost use Rattle.serial_run.specs.Volumes.{LeavesVolume};

use std::alloc::Global;
use tree_model::{Op, Reply};

/// A volume on a device, whose operations that only look are answered.
pub trait AskedVolume {
    /// Its tree, where it is known.
    ghost tree: { Self → Option the_tree };

    /// The table of upper-case units by which its names are in order.
    ghost upper: { Self → List ℕ };

    /// What each answer leaves as it is, beside these.
    ghost Kept: { Type 0 };

    ghost kept: { Self → Self.Kept };

    /// How often the device has failed, and its moment.
    ghost fault_count: { Self → ℕ };

    ghost moment_of: { Self → ℕ };

    /// What is replied to an operation that only looks: a step of the tree; `fault` where the
    /// device failed, and `memory` for want of memory.
    fn answer(&mut self, alloc: Global, op: &Op) -> Reply
        requires looks { is_look op.now ≡ true }
        ensures step { IfSome (tree self.old) (λ t. (stamp : ℕ) → IsStep (upper self.old) op.now stamp result t t) }
        ensures leaves { LeavesVolume tree upper Self.kept fault_count moment_of self.old self.new result };

    /// How often the device has failed; in constant time.
    fn faults(&self) -> u64
        ensures { result ≡ fault_count self.now };

    /// The device's moment; in constant time.
    fn moment(&self) -> u64
        ensures { result ≡ moment_of self.now };
}
