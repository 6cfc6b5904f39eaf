//! The laws of these definitions.
ghost use Rattle.new_files.specs.Laws.{NewFileReads};

/// Law: the record of a new file is spelled as it is and read so, keeps the rules of names and sizes
/// by itself, and stands for the node, the link and the key of a new file.
pub fn new_file_reads()
    ensures { NewFileReads }
{}
