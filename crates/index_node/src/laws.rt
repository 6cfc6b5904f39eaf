//! The law of the edits of a node.
ghost use Rattle.index_node.specs.EditLaws.{EditsFit};

/// Law: each edit of a node that has a spelling leaves one.
pub fn edits_fit()
    ensures { EditsFit }
{}
