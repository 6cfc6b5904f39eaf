/// A rule that the records of a volume break, and the least number at which they do.
#[derive(Clone, Copy, Debug, PartialEq, Eq)]
pub struct Broken {
    pub rule: u32,
    pub number: u64,
}
