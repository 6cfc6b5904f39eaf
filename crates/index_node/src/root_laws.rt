//! The laws of the spelling of an index root.
ghost use Rattle.index_node.specs.RootLaws.{RootReadAgain, SpelledInEachBlock};

/// Law: the written spelling of entries is the value of a root that spells them, and is read again.
#[tactic(auto, using(crate::proofs::RootSpelled::root_law))]
pub fn root_read_again()
    ensures { RootReadAgain }
{}

/// Law: entries that have a spelling have one in each block.
#[tactic(auto, using(crate::proofs::RootSpelled::each_block))]
pub fn spelled_in_each_block()
    ensures { SpelledInEachBlock }
{}
