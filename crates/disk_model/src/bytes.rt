ghost use Rattle.std.specs.Prelude.{◌≡◌};
ghost use Rattle.disk_model.specs.Bytes.{all_zeros};

/// Whether all bytes are zeros; linear in their number.
#[tactic(auto, unfolding(crate::specs::Bytes::all_zeros))]
pub fn all_zeros(bytes: &[u8]) -> bool
    ensures { result ≡ all_zeros bytes.now }
{
    bytes.iter().all(|byte| *byte == 0)
}
