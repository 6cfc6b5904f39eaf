ghost use Rattle.std.specs.Prelude.{◌≡◌, ℕ, List, Option, Ok, true, length, IfSome};
ghost use Rattle.host_base.specs.Answers.{GivesOrFails};
ghost use Rattle.file_tree.specs.declared.tree.Tree.{Tree as the_tree};
ghost use Rattle.file_tree.specs.Trees.{is_directory, look_up, long_names_of, IsListing};
ghost use Rattle.tree_model.specs.Fronts.{front_of};
ghost use Rattle.tree_lookup.specs.Asked.{lookup_cause, bare_at, bytes_at, AnswersOrFails, AsksTree};

use crate::fault::LookupFault;
use std::alloc::Global;
use tree_model::{Link, Name, NameList, Node};

/// A tree as something that is asked for its nodes, names and bytes, and may fail. Each call names
/// its cost.
///
/// - [`LookupFault::Outside`]: what is behind the tree failed, and counts it.
/// - [`LookupFault::Memory`]: there is no memory left.
/// - [`LookupFault::Broken`]: what was read is part of no tree; never where the tree is known.
pub trait Lookup {
    /// The table of upper-case units by which names are in order.
    ghost upper: { Self → List ℕ };

    /// The tree, where it is known.
    ghost tree: { Self → Option the_tree };

    /// How often what is behind the tree has failed; this never falls.
    ghost faults: { Self → ℕ };

    /// What each call leaves as it is, beside the tree.
    ghost Kept: { Type 0 };

    ghost kept: { Self → Self.Kept };

    /// The node with this number without its bytes, if there is one.
    fn node(&mut self, alloc: Global, number: u64) -> Result<Option<Node>, LookupFault>
        ensures value { IfSome (tree self.old) (λ t. GivesOrFails (λ node. node) lookup_cause result (Ok (bare_at t.nodes number))) }
        ensures asks { AsksTree tree upper Self.kept faults self.old self.new result };

    /// The link that this part leads to in this directory: the one of equal units, else the first
    /// in order that is the same, if there is one.
    fn link(
        &mut self,
        alloc: Global,
        directory: u64,
        part: &Name,
    ) -> Result<Option<Link>, LookupFault>
        requires directory { IfSome (tree self.old) (λ t. is_directory t.nodes directory ≡ true) }
        ensures value { IfSome (tree self.old) (λ t. GivesOrFails (λ link. link) lookup_cause result (Ok (look_up (upper self.old) t.links directory part.now))) }
        ensures asks { AsksTree tree upper Self.kept faults self.old self.new result };

    /// How many long names the file has.
    fn long_names_of(&mut self, alloc: Global, number: u64) -> Result<u64, LookupFault>
        ensures value { IfSome (tree self.old) (λ t. GivesOrFails (λ count. count) lookup_cause result (Ok (long_names_of t.links number))) }
        ensures asks { AsksTree tree upper Self.kept faults self.old self.new result };

    /// The long names of this directory, in order.
    fn listing(&mut self, alloc: Global, directory: u64) -> Result<NameList, LookupFault>
        requires directory { IfSome (tree self.old) (λ t. is_directory t.nodes directory ≡ true) }
        ensures value { IfSome (tree self.old) (λ t. AnswersOrFails result (λ names. IsListing (upper self.old) t.links directory names)) }
        ensures asks { AsksTree tree upper Self.kept faults self.old self.new result };

    /// Makes `out` the bytes of the node with this number from a place on, and zeros behind its
    /// end; without such a node, zeros. After an error any bytes may stand in `out`.
    fn front(
        &mut self,
        alloc: Global,
        number: u64,
        at: u64,
        out: &mut [u8],
    ) -> Result<(), LookupFault>
        ensures value { IfSome (tree self.old) (λ t. AnswersOrFails result (λ done. out.new ≡ front_of (bytes_at t.nodes number) at (length out.old))) }
        ensures asks { AsksTree tree upper Self.kept faults self.old self.new result };
}
