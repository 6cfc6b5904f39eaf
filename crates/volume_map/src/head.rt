//! The heads of file records.
ghost use Rattle.std.specs.Prelude.{◌≡◌, length};
ghost use Rattle.volume_map.specs.Heads.{head_of, no_head};

use record_model::RecordFlags;
use stream_map::u16_at;

/// What the head of a file record says (Linux-NTFS documentation, "FILE Record").
#[derive(Clone, Copy, Debug, PartialEq, Eq)]
pub struct Head {
    /// The record is in use: it begins `FILE` and is flagged so.
    pub in_use: bool,
    /// The sequence that a new file would get in a record that isn't in use: the record's own, or 1
    /// where this is 0, or where the record doesn't begin `FILE`.
    pub sequence: u16,
}

/// The head of a record with these bytes; it takes constant time.
#[tactic(auto, unfolding(crate::specs::Heads::head_of, volume_model::specs::Nodes::spare_sequence, record_model::specs::Records::has_in_use_flag))]
pub fn head_of(bytes: &[u8]) -> Head
    requires { length bytes.now ≡ 1024 }
    ensures { result ≡ head_of bytes.now }
{
    let is_signed = bytes.starts_with(b"FILE");
    let sequence = u16_at(bytes, 0x10);
    Head {
        in_use: is_signed && RecordFlags::has_in_use(u16_at(bytes, 0x16)),
        sequence: if is_signed && sequence != 0 {
            sequence
        } else {
            1
        },
    }
}

/// The head of a record that isn't there: it isn't in use, and a new file would get sequence 1.
pub fn no_head() -> Head
    ensures { result ≡ no_head }
{
    Head {
        in_use: false,
        sequence: 1,
    }
}
