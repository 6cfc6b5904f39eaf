//! The laws of these definitions.
ghost use Rattle.index_places.specs.Places.{IndexesAreLaidOut};

/// Law: in a state no two nodes of a directory's index lie in one block, nor a node and a block
/// that its allocation has initialised; each such block is one of the volume's.
pub fn indexes_are_laid_out()
    ensures { IndexesAreLaidOut }
{}
