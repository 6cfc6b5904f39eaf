//! What is known of the check word of a block.
ghost use Rattle.std.specs.Prelude.{◌≡◌, IfSome};
ghost use Rattle.log_area.specs.Areas.{IsWord};
ghost use Rattle.device_blocks.specs.Words.{known_word, changed_word, IsFitWord};

use fixup_record::next_check;

/// What is known of the check word of a block on the device (Linux-NTFS documentation, "Fixup"),
/// and so under which word a body is written there next.
#[derive(Clone, Copy, Debug, PartialEq, Eq)]
pub enum CheckWord {
    /// Nothing: the block is read first.
    Unread,
    /// None stands there: the block isn't signed, or is torn.
    Missing,
    /// This one stands there, or did before a body was sent that was changed since.
    Stands(u16),
    /// A body was sent under this one in a write that failed, and wasn't changed since.
    Sent(u16),
}

impl CheckWord {
    /// The word of the next write: that behind the one that stands there, 1 where none does, and
    /// the same again where it was sent in a write that failed. None where the block has to be read
    /// first. It is neither 0 nor 0xFFFF. It takes constant time.
    pub fn next(self) -> Option<u16>
        ensures value { result ≡ known_word self }
        ensures word { IsFitWord self → IfSome result IsWord }
    {
        match self {
            CheckWord::Unread => None,
            CheckWord::Missing => Some(1),
            CheckWord::Stands(check) => Some(next_check(check)),
            CheckWord::Sent(check) => Some(check),
        }
    }

    /// The word once the body of the block was changed: one that was sent may stand there in part,
    /// so that the next write takes another one. It takes constant time.
    pub fn changed(self) -> CheckWord
        ensures value { result ≡ changed_word self }
        ensures fit { IsFitWord result }
    {
        match self {
            CheckWord::Sent(check) => CheckWord::Stands(check),
            word => word,
        }
    }
}
