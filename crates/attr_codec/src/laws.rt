//! The laws of reading and writing attributes.
ghost use Rattle.attr_codec.specs.AttrLaws.{SpelledIsRead, ReadIsSpelled, WrittenIsRead};

/// Law: bytes that begin with a spelling of an attribute are read as it.
pub fn spelled_is_read()
    ensures { SpelledIsRead }
{}

/// Law: an attribute that is read is spelled by its own bytes.
pub fn read_is_spelled()
    ensures { ReadIsSpelled }
{}

/// Law: what was written is read again.
pub fn written_is_read()
    ensures { WrittenIsRead }
{}
