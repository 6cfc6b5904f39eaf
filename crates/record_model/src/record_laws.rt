//! The laws of a file record's grammar.
ghost use Rattle.record_model.specs.RecordLaws.{AttrTableIsRead, AttrReadIsTable, AttrReadAgain, TableIsRead, ReadIsTable, SpellsOneRecord, RecordReadAgain, RecordIsBody, RuleIsLeast, RecordIsShaped};

/// Law: bytes that are an attribute's spelling, whatever stands behind them, are read as it.
pub fn attr_table_is_read()
    ensures { AttrTableIsRead }
{}

/// Law: what is read of an attribute's own bytes is spelled by them.
pub fn attr_read_is_table()
    ensures { AttrReadIsTable }
{}

/// Law: the written spelling of an attribute is one of its spellings, and is read again.
pub fn attr_read_again()
    ensures { AttrReadAgain }
{}

/// Law: a body that spells a record is read as that record.
pub fn table_is_read()
    ensures { TableIsRead }
{}

/// Law: a body of bytes that is read as a record spells it.
pub fn read_is_table()
    ensures { ReadIsTable }
{}

/// Law: a body spells at most one record.
pub fn spells_one_record()
    ensures { SpellsOneRecord }
{}

/// Law: the written spelling of a record is a body of 1,024 bytes that spells it, and is read
/// again.
pub fn record_read_again()
    ensures { RecordReadAgain }
{}

/// Law: the written spelling of a record begins `FILE` and has the update sequence's array at
/// 0x30, as zeros.
pub fn record_is_body()
    ensures { RecordIsBody }
{}

/// Law: a refusal is the least rule that the body breaks.
pub fn rule_is_least()
    ensures { RuleIsLeast }
{}

/// Law: a body is read as a record where its shape is that record's, whose values are lawful.
pub fn record_is_shaped()
    ensures { RecordIsShaped }
{}
