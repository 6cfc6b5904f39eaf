ghost use Rattle.std.specs.Prelude.{◌≡◌, ◌+◌, ◌*◌, ◌<◌, ◌≤◌, length};
ghost use Rattle.record_model.specs.disk_model.Numbers.{spell};
ghost use Rattle.record_model.specs.disk_model.Bytes.{written};
ghost use Rattle.record_model.specs.Attributes.{unit_bytes};

use record_model::put_u16;

/// Puts a byte at this place.
pub fn put_byte(bytes: &mut [u8], at: usize, value: u8)
    requires { at < length bytes.old }
    ensures { bytes.new ≡ written at (spell 1 value) bytes.old }
{
    bytes[at] = value;
}

/// Puts UTF-16 units from this place on, in time linear in their number.
pub fn put_units(bytes: &mut [u8], at: usize, units: &[u16])
    requires { at + 2 * length units.now ≤ length bytes.old }
    ensures { bytes.new ≡ written at (unit_bytes units.now) bytes.old }
{
    for (i, unit) in units.iter().enumerate() {
        put_u16(bytes, at + 2 * i, *unit);
    }
}
