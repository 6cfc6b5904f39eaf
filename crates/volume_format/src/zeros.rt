ghost use Rattle.std.specs.Prelude.{◌≡◌, ◌+◌, ◌++◌, ◌≤◌, IfOk, OnOk, length};
ghost use Rattle.disk_model.specs.Bytes.{zeros};

use std::alloc::{AllocError, Global};

/// So many zeros. The error is want of memory.
#[tactic(auto, unfolding(disk_model::specs::Bytes::zeros))]
pub fn zeroed(alloc: Global, count: usize) -> Result<Vec<u8>, AllocError>
    ensures value { IfOk result (λ bytes. bytes.items ≡ zeros count) }
    ensures size { IfOk result (λ bytes. length bytes.items ≡ count) }
{
    vec![in alloc; 0u8; count]
}

/// Puts so many zeros at the end. The error is want of memory.
#[tactic(auto, unfolding(disk_model::specs::Bytes::zeros))]
pub fn push_zeros(bytes: &mut Vec<u8>, count: usize) -> Result<(), AllocError>
    requires { count ≤ 8192 }
    ensures value { OnOk result (bytes.new.items ≡ bytes.old.items ++ zeros count) }
    ensures size { OnOk result (length bytes.new.items ≡ length bytes.old.items + count) }
{
    bytes.resize(bytes.len() + count, 0)?;
    Ok(())
}
