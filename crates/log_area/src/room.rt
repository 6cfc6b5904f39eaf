ghost use Rattle.std.specs.Prelude.{◌≡◌, length, IfOk};
ghost use Rattle.disk_model.specs.Bytes.{zeros};

use std::alloc::{AllocError, Global};

/// So many zeros. The error is want of memory.
#[tactic(auto, unfolding(disk_model::specs::Bytes::zeros))]
pub fn zeroed(alloc: Global, count: usize) -> Result<Vec<u8>, AllocError>
    ensures { IfOk result (λ bytes. bytes.items ≡ zeros count) }
{
    vec![in alloc; 0u8; count]
}

/// Makes all bytes zeros.
#[tactic(auto, unfolding(disk_model::specs::Bytes::zeros))]
pub fn clear(bytes: &mut [u8])
    ensures { bytes.new ≡ zeros (length bytes.old) }
{
    bytes.fill(0);
}
