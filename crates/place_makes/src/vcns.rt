//! VCNs behind the blocks of an index.
ghost use Rattle.std.specs.Prelude.{◌≡◌, ◌<◌, ◌^◌, IfOk};
ghost use Rattle.std.specs.List.{range_with_len};

use std::alloc::{AllocError, Global};

// A plan of nodes takes at most so many VCNs.
const MOST_TAKEN: u64 = 17;

/// Seventeen VCNs from this one on.
pub fn vcns_from(alloc: Global, first: u64) -> Result<Vec<u64>, AllocError>
    requires { first < 2 ^ 62 }
    ensures { IfOk result (λ vcns. vcns.items ≡ range_with_len first 17) }
{
    let mut vcns = Vec::new(alloc);
    for i in 0..MOST_TAKEN {
        vcns.push(first + i)?;
    }
    Ok(vcns)
}
