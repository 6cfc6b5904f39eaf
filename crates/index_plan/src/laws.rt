//! Laws of the definitions: what a plan does to an index.
ghost use Rattle.index_plan.specs.Laws.{InsertLaw, LevelLaw, RegrownNumbers, RegrownWalk, RemoveLaw};

/// Law: cutting nodes in two changes no walk.
pub fn regrown_walk()
    ensures { RegrownWalk }
{}

/// Law: each VCN is used as often as before, in the tree and among the fresh ones.
pub fn regrown_numbers()
    ensures { RegrownNumbers }
{}

/// Law: an insertion is an insertion into the list of keys.
pub fn insert_law()
    ensures { InsertLaw }
{}

/// Law: a removal is a removal from the list of keys.
pub fn remove_law()
    ensures { RemoveLaw }
{}

/// Law: a level comes only where the root has room for fewer than 600 bytes more.
pub fn level_law()
    ensures { LevelLaw }
{}
