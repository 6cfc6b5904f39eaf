ghost use Rattle.index_laws.specs.Levels.{EvenRootIsLeaf, LevelNeeded, LevelOfInsertion, RootIsLowered};

/// Law: an insertion adds a level only where the file record has no room for the root with the
/// entry, and the root is a leaf where the entry goes, or takes an entry that was cut upwards out
/// of a block.
pub fn level_of_insertion()
    ensures { LevelOfInsertion }
{}

/// Law: an insertion that is refused because it needs a level needs it for the same cause.
pub fn level_needed()
    ensures { LevelNeeded }
{}

/// Law: where the root takes an entry that the file record has no room for, the root's entries go
/// down into a new node.
pub fn root_is_lowered()
    ensures { RootIsLowered }
{}

/// Law: where all ways down an index have as many nodes, its root is a leaf where a new entry goes
/// only if it is one whole, and the index has no blocks.
pub fn even_root_is_leaf()
    ensures { EvenRootIsLeaf }
{}
