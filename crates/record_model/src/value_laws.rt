//! The laws of the values of attributes.
ghost use Rattle.record_model.specs.StdValuesLaws.{StdInfoIsTable, StdInfoReadAgain, FileNameIsTable, FileNameReadAgain, VolumeInfoIsTable, VolumeInfoReadAgain, JournalMaxIsTable, JournalMaxReadAgain};

/// Law: standard information is read exactly where its table holds.
pub fn std_info_is_table()
    ensures { StdInfoIsTable }
{}

/// Law: written standard information is read again, and other bytes stay.
pub fn std_info_read_again()
    ensures { StdInfoReadAgain }
{}

/// Law: a file name is read exactly where its table holds, and each refusal is the first fault.
pub fn file_name_is_table()
    ensures { FileNameIsTable }
{}

/// Law: a written file name is read again, and other bytes stay.
pub fn file_name_read_again()
    ensures { FileNameReadAgain }
{}

/// Law: volume information is read exactly where its table holds.
pub fn volume_info_is_table()
    ensures { VolumeInfoIsTable }
{}

/// Law: written volume information is read again, and other bytes stay.
pub fn volume_info_read_again()
    ensures { VolumeInfoReadAgain }
{}

/// Law: a journal's limits are read exactly where their table holds.
pub fn journal_max_is_table()
    ensures { JournalMaxIsTable }
{}

/// Law: a journal's written limits are read again, and other bytes stay.
pub fn journal_max_read_again()
    ensures { JournalMaxReadAgain }
{}
