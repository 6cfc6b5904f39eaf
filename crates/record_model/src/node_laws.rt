//! The laws of an index node's grammar.
ghost use Rattle.record_model.specs.NodeLaws.{NodeIsTable, RootIsTable, SpellsOneNode, NodeReadAgain, ReadNodeFits, WrittenNoLonger, NodeIsBody, NodeRuleIsLeast};

/// Law: a body is read as a node exactly where it spells that node.
pub fn node_is_table()
    ensures { NodeIsTable }
{}

/// Law: the value of an index root is read as entries exactly where it spells them.
pub fn root_is_table()
    ensures { RootIsTable }
{}

/// Law: a body spells at most one node, and the value of an index root at most one list of entries.
pub fn spells_one_node()
    ensures { SpellsOneNode }
{}

/// Law: the written spelling of a node is a body of 4,096 bytes that spells it, and is read again.
pub fn node_read_again()
    ensures { NodeReadAgain }
{}

/// Law: the written spelling of a node begins `INDX` and has the update sequence's array at
/// 0x28, as zeros.
pub fn node_is_body()
    ensures { NodeIsBody }
{}

/// Law: a node that is read has a spelling, where its entries have room as they are written.
pub fn read_node_fits()
    ensures { ReadNodeFits }
{}

/// Law: the entries that are read of a node take no more bytes as they are written.
pub fn written_no_longer()
    ensures { WrittenNoLonger }
{}

/// Law: a refusal is the least rule that a node's bytes break, behind the signature of a block (1)
/// or the type, the collation and the bytes of a block with which an index root begins (3).
pub fn node_rule_is_least()
    ensures { NodeRuleIsLeast }
{}
