use tree_model::{Op, Reply};

/// A command that had its turn: every command but `find` has one.
#[derive(Debug, Drop)]
pub struct Turn {
    /// The client, and the command's number among the client's commands, from 1 on.
    pub client: u32,
    pub number: u32,
    /// The turn's number over all clients, from 1 on.
    pub serial: u64,
    /// Where the journal's next record goes after the turn, 0 without a journal.
    pub usn: u64,
    /// The device's moment at the turn.
    pub moment: u64,
    /// The device's count of faults when the command began and at its turn.
    pub faults_before: u64,
    pub faults_after: u64,
    pub op: Op,
    pub reply: Reply,
}

/// A find: its client and number, the position of the index that answered it, and its reply.
#[derive(Debug, Drop)]
pub struct FindLine {
    pub client: u32,
    pub number: u32,
    pub usn: u64,
    pub reply: Reply,
}
