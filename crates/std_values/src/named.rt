ghost use Rattle.std.specs.Prelude.{◌≡◌, true, ℕ, List, Result, ◌+◌, ◌*◌, ◌<◌, ◌≤◌, ◌^◌, length, not, is_ok};
ghost use Rattle.record_model.specs.host_base.Answers.{Gives};
ghost use Rattle.record_model.specs.utf16_name.Names.{is_bad_unit, name_of};
ghost use Rattle.record_model.specs.declared.values.ValueFault.{ValueFault};
ghost use Rattle.record_model.specs.Values.{units_of, has_name_length, is_file_name};
ghost use Rattle.record_model.specs.StdValues.{value_cause, name_head_over};
ghost use Rattle.std_values.specs.Naming.{lawful_name};

use crate::bytes::{put_byte, put_units};
use record_model::{
    FileNameValue, FileRef, Name, NameFault, ValueFault, check, put_u32, put_u64, u8_at, u16_at,
    u32_at, u64_at, units_at,
};
use std::alloc::Global;

/// The last namespace: Win32 and DOS.
const LAST_SPACE: u8 = 3;

/// A value with a name of its own length.
pub trait NamedValue: Sized {
    /// Whether so many bytes are the value's.
    ghost has_size: { Self → List ℕ → Type 0 };

    /// Whether the value's fields have a spelling.
    ghost fits: { Self → Type 0 };

    /// The fields of a value, or what refuses it.
    ghost fields_of: { List ℕ → Result Self ValueFault };

    /// A value after these fields are written.
    ghost over: { Self → List ℕ → List ℕ };

    /// Reads the fields, in time and memory linear in the bytes. `Length` comes where the value has
    /// not exactly 0x42 bytes and those of its units; `Shape` where the namespace is
    /// above 3, or where the units are no name; `Memory` is want of memory.
    fn read(alloc: Global, value: &[u8]) -> Result<Self, ValueFault>
        ensures { Gives (λ fields. fields) value_cause result (fields_of value.now) };

    /// Sets the bytes of the fields, the name among them, and leaves the others. The parent's
    /// number is below 2^48, the namespace is at most 3, and the value has 0x42 bytes
    /// and those of the name; then `read` gives the fields again.
    fn write(&self, out: &mut [u8])
        requires fits { fits self.now }
        requires size { has_size self.now out.old }
        ensures { out.new ≡ over self.now out.old };
}

/// The bytes of a file-name value before its units.
const HEAD: usize = 0x42;

// Whether a value has its 0x42 bytes and those of its units.
fn has_name_length(value: &[u8]) -> bool
    ensures { result ≡ has_name_length value.now }
{
    value.len() >= HEAD && value.len() == HEAD + 2 * usize::from(u8_at(value, 0x40))
}

// Whether a unit may stand in a name: alone it is one then.
#[tactic(auto, using(crate::proofs::Naming::one_unit))]
fn is_name_unit(unit: u16) -> bool
    ensures { result ≡ not (is_bad_unit unit) }
{
    check(&[unit]).is_none()
}

// Whether the units in a value of the right length are a name.
fn has_name(value: &[u8]) -> bool
    requires { has_name_length value.now ≡ true }
    ensures { result ≡ is_ok (name_of (units_of value.now)) }
{
    let count = usize::from(u8_at(value, 0x40));
    for i in 0..count {
        if !is_name_unit(u16_at(value, HEAD + 2 * i)) {
            return false;
        }
    }
    count > 0
}

/// Whether a value is a file name: it has exactly 0x42 bytes and those of its units, a
/// namespace of 0 to 3, and units that are a name (Linux-NTFS documentation, "$FILE_NAME"). It
/// takes no memory, and time linear in the bytes.
#[tactic(auto, unfolding(record_model::specs::Values::is_file_name, record_model::specs::Values::space_of))]
pub fn is_file_name(value: &[u8]) -> bool
    ensures value { result ≡ is_file_name value.now }
{
    has_name_length(value) && u8_at(value, 0x41) <= LAST_SPACE && has_name(value)
}

// The name of these units. `Shape` is the answer where they are none.
fn checked(alloc: Global, units: &[u16]) -> Result<Name, ValueFault>
    ensures { Gives (λ name. name) value_cause result (lawful_name units.now) }
{
    match Name::checked(alloc, units) {
        Ok(name) => Ok(name),
        Err(NameFault::Memory) => Err(ValueFault::Memory),
        Err(_) => Err(ValueFault::Shape),
    }
}

// The name in a value of the right length.
#[tactic(auto, using(crate::proofs::Naming::units_inside), unfolding(record_model::specs::Values::units_of))]
fn name(alloc: Global, value: &[u8]) -> Result<Name, ValueFault>
    requires { has_name_length value.now ≡ true }
    ensures { Gives (λ name. name) value_cause result (lawful_name (units_of value.now)) }
{
    let units = units_at(alloc, HEAD, usize::from(u8_at(value, 0x40)), value)?;
    checked(alloc, units.as_slice())
}

// Sets the fields before the name.
#[tactic(auto, unfolding(record_model::specs::StdValues::name_head_over))]
fn write_head(fields: &FileNameValue, out: &mut [u8])
    requires parent { fields.now.parent.number < 2 ^ 48 }
    requires size { 0x42 ≤ length out.old }
    ensures { out.new ≡ name_head_over fields.now out.old }
{
    put_u64(out, 0x00, fields.parent.pack());
    put_u64(out, 0x08, fields.created);
    put_u64(out, 0x10, fields.modified);
    put_u64(out, 0x18, fields.changed);
    put_u64(out, 0x20, fields.read_at);
    put_u64(out, 0x28, fields.allocated);
    put_u64(out, 0x30, fields.real);
    put_u32(out, 0x38, fields.flags);
}

impl NamedValue for FileNameValue {
    ghost use Rattle.record_model.specs.declared.values.FileNameValue.{FileNameValue};
    ghost use Rattle.record_model.specs.StdValues.{FitsFileName, file_name_of, file_name_over};

    ghost has_size = { λ f value. length value ≡ 0x42 + 2 * length f.name };

    ghost fits = { FitsFileName };

    ghost fields_of = { file_name_of };

    ghost over = { file_name_over };

    #[tactic(auto, using(crate::proofs::Naming::answers), unfolding(record_model::specs::Values::parent_of, record_model::specs::Values::space_of))]
    fn read(alloc: Global, value: &[u8]) -> Result<Self, ValueFault> {
        if !has_name_length(value) {
            return Err(ValueFault::Length {
                len: value.len() as u64,
            });
        }
        if u8_at(value, 0x41) > LAST_SPACE {
            return Err(ValueFault::Shape);
        }
        let name = name(alloc, value)?;
        Ok(FileNameValue {
            parent: FileRef::unpack(u64_at(value, 0x00)),
            created: u64_at(value, 0x08),
            modified: u64_at(value, 0x10),
            changed: u64_at(value, 0x18),
            read_at: u64_at(value, 0x20),
            allocated: u64_at(value, 0x28),
            real: u64_at(value, 0x30),
            flags: u32_at(value, 0x38),
            space: u8_at(value, 0x41),
            name,
        })
    }

    #[tactic(auto, unfolding(record_model::specs::StdValues::file_name_over))]
    fn write(&self, out: &mut [u8]) {
        write_head(self, out);
        let units = self.name.units();
        put_byte(out, 0x40, units.len() as u8);
        put_byte(out, 0x41, self.space);
        put_units(out, HEAD, units);
    }
}
