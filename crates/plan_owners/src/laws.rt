ghost use Rattle.plan_owners.specs.Agreeing.{OwnedIsAll};
ghost use Rattle.plan_owners.specs.Kinds.{OwnersByKind};
ghost use Rattle.plan_owners.specs.States.{StatesStand};

/// Law: in a state the file table begins where the boot sector says, no cluster lies twice in the
/// volume, and no attribute list names a record that isn't one of its own file's.
pub fn states_stand()
    ensures { StatesStand }
{}

/// Law: at eight sectors a cluster each block that a volume owns lies in the grid, and a state owns
/// each cluster as one kind of block.
pub fn owners_by_kind()
    ensures { OwnersByKind }
{}

/// Law: a content that agrees with a state's on what the volume owns, but for what is wholly past its
/// stream's initialised size, is a state of the same volume and tree.
pub fn owned_is_all()
    ensures { OwnedIsAll }
{}
