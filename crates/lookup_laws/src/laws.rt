ghost use Rattle.lookup_laws.specs.Directories.{DirectoryByIndex};
ghost use Rattle.lookup_laws.specs.Files.{NamesByFile, SystemByNames};

/// Law: where rules 2 and 3 are kept, a directory's index holds the names that stand in the
/// directory among all names of the volume, and a look-up and a listing among all names are those
/// of the index.
pub fn directory_by_index()
    ensures { DirectoryByIndex }
{}

/// Law: the names of a file among those of all files are its own.
pub fn names_by_file()
    ensures { NamesByFile }
{}

/// Law: a climb over the nodes and names of a tree says which files are those of the volume itself.
pub fn system_by_names()
    ensures { SystemByNames }
{}
