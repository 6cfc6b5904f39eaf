ghost use Rattle.tree_model.specs.Worked.{WorkedNames, WorkedChanges, WorkedReads, WorkedBytes};

/// A law: what refuses a new name, on a small tree.
pub fn worked_names()
    ensures { WorkedNames }
{}

/// A law: what refuses a write, a fill and a truncate, on a small tree.
pub fn worked_changes()
    ensures { WorkedChanges }
{}

/// A law: what refuses a read, on a small tree, and the bytes that one gives.
pub fn worked_reads()
    ensures { WorkedReads }
{}

/// A law: the bytes that a write and a longer size leave.
pub fn worked_bytes()
    ensures { WorkedBytes }
{}
