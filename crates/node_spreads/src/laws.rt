//! The laws of these definitions.
ghost use Rattle.node_spreads.specs.Nodes.{NodesAreSpread, BlocksAreCounted, SpreadsWiden};
ghost use Rattle.node_spreads.specs.Rises.{LevelsAreNeeded};
ghost use Rattle.node_spreads.specs.Raised.{RootsStay, LevelsLift, PlansFit, RootsGrow};

/// Law: by a plan of its nodes an index is spread as an operation may leave it, by as many blocks
/// more as the plan takes.
pub fn nodes_are_spread()
    ensures { NodesAreSpread }
{}

/// Law: an index has as many blocks more as its plan took and didn't free.
pub fn blocks_are_counted()
    ensures { BlocksAreCounted }
{}

/// Law: an index that is spread for a record with more used bytes is spread for one with fewer.
pub fn spreads_widen()
    ensures { SpreadsWiden }
{}

/// Law: where a plan needs a level more, the index could be spread without one too, each block on
/// the way of the entry has few free bytes, and the record is crowded.
pub fn levels_are_needed()
    ensures { LevelsAreNeeded }
{}

/// Law: in an index whose root has one child with free bytes, a plan that puts a key in leaves the
/// root.
pub fn roots_stay()
    ensures { RootsStay }
{}

/// Law: an index that got a level before a key came is spread as one that gets a level with it.
pub fn levels_lift()
    ensures { LevelsLift }
{}

/// Law: each node that a plan writes has room in its block.
pub fn plans_fit()
    ensures { PlansFit }
{}

/// Law: the root of a plan that needs no level stays, or has one entry more.
pub fn roots_grow()
    ensures { RootsGrow }
{}
