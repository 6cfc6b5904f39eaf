//! Laws of plans that are made over one place and laid out over another.
ghost use Rattle.index_change.specs.NodePlans.{GrownKeeps, PlansJoin};

/// Law: a plan of nodes that is made over one content and place, and laid out over others that have
/// each of its nodes, is what an insertion there promises.
pub fn plans_join()
    ensures { PlansJoin }
{}

/// Law: where a place gets more blocks behind its own, and the bodies of its own stay, each node
/// that was there still is.
pub fn grown_keeps()
    ensures { GrownKeeps }
{}
