//! The laws of the change journal: its records, its pages, and the pages of a stream.
ghost use Rattle.journal_model.specs.UsnLaws.{UsnIsTable, UsnReadAgain};
ghost use Rattle.journal_model.specs.JournalLaws.{PageIsTable, EndsAreRecords, RecordsJoin, JournalIsPages};
ghost use Rattle.journal_model.specs.UsnVector.{UsnVector};

/// Law: a record is read exactly where its table holds, and each refusal is the first fault.
pub fn usn_is_table()
    ensures { UsnIsTable }
{}

/// Law: a written record is read again, and an entry that is read has this one spelling.
pub fn usn_read_again()
    ensures { UsnReadAgain }
{}

/// Law: a worked record is written and read.
pub fn usn_vector()
    ensures { UsnVector }
{}

/// Law: a page is read exactly where it is whole records and then zeros, and refused at its first
/// fault.
pub fn page_is_table()
    ensures { PageIsTable }
{}

/// Law: the last record ends where the bytes end exactly where these are records, at least one, and
/// nothing else; so a record owns the bytes before a journal's end exactly where its page is such.
pub fn ends_are_records()
    ensures { EndsAreRecords }
{}

/// Law: records that stand one behind the other are read one behind the other, and zeros behind
/// them add nothing.
pub fn records_join()
    ensures { RecordsJoin }
{}

/// Law: a journal is read page by page, and only the bytes inside it count.
pub fn journal_is_pages()
    ensures { JournalIsPages }
{}
