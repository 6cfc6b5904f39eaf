/// A command that runs no script.
#[derive(Clone, Copy, Debug, PartialEq, Eq)]
pub enum Quiet {
    /// Prints the long names of the volume.
    Scan,
    /// Prints the tree of the volume: its nodes, its names, its journal and its free clusters.
    Dump,
    /// Prints whether the volume stands for a tree, and how many parts this has.
    Check,
    /// Prints the records of the volume's change journal.
    Journal,
    /// Makes a new volume with this serial number; all its times are `time`, in units of 100 ns
    /// since 1601-01-01.
    Format { seed: u64, time: u64 },
}

/// What the words of a line ask for.
#[derive(Clone, Copy, Debug, PartialEq, Eq)]
pub enum Asked {
    /// A command that runs no script.
    Quietly(Quiet),
    /// The run of a script, from this time on, in units of 100 ns since 1601-01-01.
    Run { time: u64 },
    /// Nothing: they are no line of a command.
    NoLine,
}
