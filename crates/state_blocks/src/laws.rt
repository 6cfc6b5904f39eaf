//! The laws of these definitions.
ghost use Rattle.state_blocks.specs.Needing.{NeededIsAll};

/// Law: a content that has the bodies of a state in the blocks from which this is read is a state of
/// the same volume and tree, read from the same blocks; and its records, bitmaps and upper-case
/// units are the same.
pub fn needed_is_all()
    ensures { NeededIsAll }
{}
