ghost use Rattle.std.specs.Prelude.{◌≡◌, ◌+◌, ◌-◌, ◌*◌, ◌<◌, ◌≤◌, IfOk, length};
ghost use Rattle.index_model.specs.host_base.Answers.{Gives};
ghost use Rattle.index_model.specs.record_model.Attributes.{units_at};
ghost use Rattle.index_model.specs.file_tree.Names.{name_order, same_name};
ghost use Rattle.upcase_order.specs.declared.upcase.UpcaseFault.TheVariants.{Memory as no_memory};
ghost use Rattle.upcase_order.specs.Tables.{upcase_of, upcase_cause, standard_upper, standard_units, standard_table};

use byteorder::{ByteOrder, LittleEndian};
use index_model::{Memory, compare_names, is_same_name};
use std::alloc::{AllocError, Global};
use std::cmp::Ordering;
use std::marker::Model;
use thiserror::Error;

/// Why bytes are no table of upper-case units.
#[derive(Clone, Copy, Debug, PartialEq, Eq, Error)]
pub enum UpcaseFault {
    /// There aren't 131,072 bytes.
    #[error("a table of upper-case units can't have {len} bytes")]
    Length { len: u64 },
    #[error("no memory")]
    Memory,
}

impl From<AllocError> for UpcaseFault {
    ghost from_gives = { λ _ e. e ≡ no_memory };

    fn from(_: AllocError) -> Self {
        UpcaseFault::Memory
    }
}

/// The units that a table gives their upper-case units.
const UNITS: usize = 65_536;

/// The bytes of a table, two to a unit.
const TABLE_BYTES: usize = 131_072;

// The values in two bytes each, low byte first.
fn values_of(alloc: Global, bytes: &[u8], count: usize) -> Result<Vec<u16>, AllocError>
    requires { length bytes.now ≡ 2 * count }
    ensures { IfOk result (λ values. values.items ≡ units_at 0 count bytes.now) }
{
    let mut values = vec![in alloc; 0u16; count]?;
    LittleEndian::read_u16_into(bytes, &mut values);
    Ok(values)
}

// The upper-case unit of a unit, on a volume that this project formats.
fn standard_upper(unit: u16) -> u16
    ensures { result ≡ standard_upper unit }
{
    if unit >= 0x61 && unit <= 0x7A {
        unit - 0x20
    } else {
        unit
    }
}

// The upper-case units of the first units, on a volume that this project formats.
fn standard_values(alloc: Global, count: usize) -> Result<Vec<u16>, AllocError>
    requires { count ≤ 65536 }
    ensures { IfOk result (λ values. values.items ≡ standard_units count) }
{
    let mut values = Vec::with_capacity(alloc, count)?;
    for unit in 0..count {
        values.push(standard_upper(unit as u16))?;
    }
    Ok(values)
}

/// The table that gives each UTF-16 unit its upper-case unit. Contracts see it as the list of its
/// 65,536 values.
#[derive(Debug, Drop)]
pub struct Upcase {
    table: Vec<u16>,
}

impl Model for Upcase {
    ghost use Rattle.std.specs.Prelude.{◌≡◌, ℕ, List, length};

    ghost Value = { List ℕ };

    ghost view = { λ u. u.table.items };

    ghost invariant = { λ u. length u.table.items ≡ 65536 };
}

impl Upcase {
    /// The table that the data of `$UpCase` spell, low byte first; it takes time linear in the
    /// bytes. The errors are `Length` where there aren't 131,072 bytes, and want of memory.
    pub fn read(alloc: Global, bytes: &[u8]) -> Result<Upcase, UpcaseFault>
        ensures value { Gives (λ table. table) upcase_cause result (upcase_of bytes.now) }
    {
        if bytes.len() != TABLE_BYTES {
            return Err(UpcaseFault::Length {
                len: bytes.len() as u64,
            });
        }
        Ok(Upcase {
            table: values_of(alloc, bytes, UNITS)?,
        })
    }

    /// The table of a volume that this project formats: `a` to `z` give `A` to `Z`, and each other
    /// unit gives itself. The error is want of memory. It takes time linear in the 65,536 units.
    pub fn standard(alloc: Global) -> Result<Upcase, Memory>
        ensures value { IfOk result (λ table. table ≡ standard_table) }
    {
        Ok(Upcase {
            table: standard_values(alloc, UNITS)?,
        })
    }

    /// The table's values: at each unit its upper-case unit.
    pub fn as_slice(&self) -> &[u16]
        ensures value { result.now ≡ self.now }
        ensures size { length self.now ≡ 65536 }
    {
        &self.table
    }

    /// The order of two names: by their upper-case units, and where these are equal by the units
    /// themselves. It takes time linear in the shorter name.
    pub fn order(&self, a: &[u16], b: &[u16]) -> Ordering
        ensures value { result ≡ name_order self.now a.now b.now }
    {
        compare_names(&self.table, a, b)
    }

    /// Whether two names are the same: their upper-case units are equal. It takes time linear in
    /// the shorter name.
    pub fn same(&self, a: &[u16], b: &[u16]) -> bool
        ensures value { result ≡ same_name self.now a.now b.now }
    {
        is_same_name(&self.table, a, b)
    }
}

impl Clone for Upcase {
    fn clone(&self) -> Result<Self, AllocError>
        ensures { IfOk result (λ u. u ≡ self.now) }
    {
        Ok(Upcase {
            table: self.table.clone()?,
        })
    }
}
