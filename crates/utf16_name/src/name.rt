ghost use Rattle.std.specs.Prelude.{◌≡◌, ◌↔◌, ◌++◌, IsNone, IfOk, OnOk, OnErr, position, string_bytes};
ghost use Rattle.host_base.specs.Answers.{Gives};
ghost use Rattle.utf16_name.specs.declared.name.NameFault.TheVariants.{Memory as no_memory};
ghost use Rattle.utf16_name.specs.Lawful.{IsName};
ghost use Rattle.utf16_name.specs.Names.{is_bad_unit, name_fault, name_of, name_cause};
ghost use Rattle.utf16_name.specs.Reading.{name_of_text};
ghost use Rattle.utf16_name.specs.Texts.{name_text};

use crate::reading::text_units;
use crate::text::shown;
use crate::units::Units;
use host_base::Memory;
use std::alloc::{AllocError, Global};
use std::marker::Model;
use thiserror::Error;

/// Why a list of units is no name.
#[derive(Clone, Copy, Debug, PartialEq, Eq, Error)]
pub enum NameFault {
    /// The unit at this place, the first such one, is 0 or `/`.
    #[error("the unit at {at} can't be in a name")]
    BadUnit { at: u64 },
    /// There are no units, or more than 255.
    #[error("a name can't have {len} units")]
    Length { len: u64 },
    /// The text's first element at fault begins at this byte.
    #[error("the name's text is at fault at byte {at}")]
    Text { at: u64 },
    #[error("no memory")]
    Memory,
}

impl From<AllocError> for NameFault {
    ghost from_gives = { λ _ e. e ≡ no_memory };

    fn from(_: AllocError) -> Self {
        NameFault::Memory
    }
}

/// The most units that a name has.
const LONGEST: usize = 255;

// The place of the first unit that no name holds.
fn first_bad(units: &[u16]) -> Option<usize>
    ensures { result ≡ position is_bad_unit units.now }
{
    units.iter().position(|unit| *unit == 0 || *unit == 0x2f)
}

/// What refuses the units as a name, if anything does: `BadUnit` at the first unit that is 0 or
/// `/`, else `Length` where there are no units or more than 255 (Linux-NTFS documentation,
/// "Attribute - $FILE_NAME"). It takes no memory, and time linear in the number of units.
pub fn check(units: &[u16]) -> Option<NameFault>
    ensures fault { result ≡ name_fault units.now }
    ensures lawful { IsNone result ↔ IsName units.now }
{
    if let Some(at) = first_bad(units) {
        return Some(NameFault::BadUnit { at: at as u64 });
    }
    if units.is_empty() || units.len() > LONGEST {
        return Some(NameFault::Length {
            len: units.len() as u64,
        });
    }
    None
}

/// A name: 1 to 255 UTF-16 units, none of them 0 or `/`, which contracts see as the list of its
/// units. Surrogates need no partner.
#[derive(Debug, Drop)]
pub struct Name {
    units: Units,
}

impl Model for Name {
    ghost use Rattle.std.specs.Prelude.{ℕ, List};
    ghost use Rattle.utf16_name.specs.Lawful.{IsName};

    ghost Value = { List ℕ };

    ghost view = { λ n. n.units };

    ghost invariant = { λ n. IsName n.units };
}

impl Name {
    /// The name of these units, in time linear in their number. The errors are those of `check`,
    /// and want of memory.
    pub fn checked(alloc: Global, units: &[u16]) -> Result<Name, NameFault>
        ensures value { Gives (λ name. name) name_cause result (name_of units.now) }
    {
        if let Some(fault) = check(units) {
            return Err(fault);
        }
        Ok(Name {
            units: Units::copy_of(alloc, units)?,
        })
    }

    /// The name that a text spells, in time linear in the text. The errors are `Text` as of
    /// `text_units`, then those of `check`, and want of memory.
    pub fn from_text(alloc: Global, text: &str) -> Result<Name, NameFault>
        ensures value { Gives (λ name. name) name_cause result (name_of_text text.now) }
    {
        let units = text_units(alloc, text)?;
        if let Some(fault) = check(units.as_slice()) {
            return Err(fault);
        }
        Ok(Name { units })
    }

    /// The name's units.
    pub fn units(&self) -> &[u16]
        ensures value { result.now ≡ self.now }
        ensures lawful { IsName self.now }
    {
        self.units.as_slice()
    }

    /// Appends the printed name: the character itself for 0x21 to 0x7E without `\` and `/`, and
    /// `\u` with four upper-case hexadecimal digits for every other unit. The error is want of
    /// memory, and leaves the text as it was. It takes time linear in the number of units.
    pub fn append_text(&self, text: &mut String) -> Result<(), Memory>
        ensures ok { OnOk result
            (string_bytes text.new ≡ string_bytes text.old ++ name_text self.now) }
        ensures err { OnErr result (string_bytes text.new ≡ string_bytes text.old) }
    {
        let name = shown(*text.allocator(), self.units())?;
        text.push_str(&name)?;
        Ok(())
    }
}

impl Clone for Name {
    fn clone(&self) -> Result<Self, AllocError>
        ensures { IfOk result (λ n. n ≡ self.now) }
    {
        Ok(Name {
            units: self.units.clone()?,
        })
    }
}

impl PartialEq for Name {
    ghost use Rattle.std.specs.Prelude.{nat_eq};
    ghost use Rattle.std.specs.Cmp.Lexicographic.{pointwise};
    ghost use Rattle.std.specs.Cmp.{partial_equiv_from_equiv};
    ghost use Rattle.std.proofs.lemmas.Cmp.{nat_list_eq_equiv};

    ghost eq = { pointwise nat_eq };

    ghost laws = { partial_equiv_from_equiv nat_list_eq_equiv };

    fn eq(&self, other: &Self) -> bool {
        self.units == other.units
    }
}

impl Eq for Name {
    ghost use Rattle.std.proofs.lemmas.Cmp.{nat_list_eq_equiv};

    ghost laws = { nat_list_eq_equiv };
}
