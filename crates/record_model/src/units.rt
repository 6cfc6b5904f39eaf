ghost use Rattle.std.specs.Prelude.{◌≡◌, ◌+◌, ◌*◌, ◌≤◌, length, IfOk};
ghost use Rattle.record_model.specs.Attributes.{units_at};

use disk_model::u16_at;
use std::alloc::{AllocError, Global};
use utf16_name::Units;

/// The UTF-16 units from `at` on, low byte first, in time and memory linear in their number. The
/// error is want of memory.
pub fn units_at(alloc: Global, at: usize, count: usize, bytes: &[u8]) -> Result<Units, AllocError>
    requires { at + 2 * count ≤ length bytes.now }
    ensures value { IfOk result (λ units. units ≡ units_at at count bytes.now) }
{
    let mut items = Vec::new(alloc);
    for i in 0..count {
        items.push(u16_at(bytes, at + 2 * i))?;
    }
    Ok(Units::from(items))
}
