use log_reading::Restart;

/// A restart page that was sent to its place, perhaps in part, and isn't known to stand there.
#[derive(Clone, Copy, Debug, PartialEq, Eq)]
pub struct SentRestart {
    pub page: Restart,
    /// The word by which it is protected.
    pub check: u16,
}
