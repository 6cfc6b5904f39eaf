/// What a command line asks for.
#[derive(Clone, Copy, Debug, PartialEq, Eq)]
pub enum Command {
    /// Prints the long names of an image.
    Scan,
    /// Prints the tree of an image.
    Dump,
    /// Says whether an image stands for a tree.
    Check,
    /// Prints the change journal of an image.
    Journal,
    /// Makes a volume of this serial number, whose files have this time.
    Format { seed: u64, time: u64 },
    /// Makes a change journal of this size in bytes, and of this time.
    Enable { max: u64, time: u64 },
    /// Runs a script from this time on.
    Run { time: u64 },
    /// Runs a script that is made from this seed, from this time on.
    Gen { seed: u64, time: u64 },
}
