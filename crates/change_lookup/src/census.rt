ghost use Rattle.std.specs.Prelude.{◌≡◌, Ok, true, length, IfSome};
ghost use Rattle.host_base.specs.Answers.{GivesOrFails};
ghost use Rattle.tree_lookup.specs.file_tree.Trees.{is_directory};
ghost use Rattle.tree_lookup.specs.tree_model.Refusals.{is_in_system};
ghost use Rattle.tree_lookup.specs.tree_model.Effects.{least_ref};
ghost use Rattle.tree_lookup.specs.Asked.{lookup_cause, AsksTree};

use std::alloc::Global;
use tree_lookup::{FileRef, Lookup, LookupFault};

/// A tree that is asked, beside its nodes and names, for what a change of it needs. Each call that
/// may fail does so as those of [`Lookup`] do, and names its cost.
pub trait Census: Lookup {
    /// How many clusters are free.
    fn room(&self) -> u64
        ensures { IfSome (Self.tree self.now) (λ t. result ≡ t.room) };

    /// How many records the file table has.
    fn count(&self) -> u64
        ensures { IfSome (Self.tree self.now) (λ t. result ≡ t.count) };

    /// The least record number that a new file may get, with the sequence that it would get, if a
    /// number is spare.
    fn least_spare(&mut self, alloc: Global) -> Result<Option<FileRef>, LookupFault>
        ensures value { IfSome (Self.tree self.old) (λ t. GivesOrFails (λ number. number) lookup_cause result (Ok (least_ref t.spare))) }
        ensures asks { AsksTree Self.tree Self.upper Self.kept Self.faults self.old self.new result };

    /// Whether this directory is one of the volume itself, by its way up.
    fn is_in_system(&mut self, alloc: Global, directory: u64) -> Result<bool, LookupFault>
        requires directory { IfSome (Self.tree self.old) (λ t. is_directory t.nodes directory ≡ true) }
        ensures value { IfSome (Self.tree self.old) (λ t. GivesOrFails (λ is. is) lookup_cause result (Ok (is_in_system t.links (length t.nodes) directory))) }
        ensures asks { AsksTree Self.tree Self.upper Self.kept Self.faults self.old self.new result };
}
