ghost use Rattle.std.specs.Prelude.{◌≡◌, ◌++◌, OnOk};
ghost use Rattle.host_base.specs.Answers.{Gives};
ghost use Rattle.utf16_name.specs.Names.{name_cause};
ghost use Rattle.utf16_name.specs.Reading.{units_of_text};
ghost use Rattle.utf16_name.specs.Spelled.{units_spelled};

use crate::elements::{Spelled, element};
use crate::name::NameFault;
use crate::units::Units;
use std::alloc::{AllocError, Global};

// Appends the units of an element.
fn push_spelled(units: &mut Vec<u16>, spelled: Spelled) -> Result<(), AllocError>
    ensures { OnOk result (units.new.items ≡ units.old.items ++ units_spelled spelled) }
{
    match spelled {
        Spelled::Unit(unit) => units.push(unit)?,
        Spelled::Pair(high, low) => units.extend_from_slice(&[high, low])?,
    }
    Ok(())
}

/// The units that a text spells, which need not be a name's: none, more than 255, or a 0 or `/`
/// that an escape spells. A character from 0x21 to 0x7E other than `\` and `/` stands for itself,
/// `\u` and four hexadecimal digits of either case for that unit, and a character above 0x7F for
/// its UTF-16 units. The errors are `Text` at the byte of the text where the first element at fault
/// begins, and want of memory. It takes time linear in the text.
pub fn text_units(alloc: Global, text: &str) -> Result<Units, NameFault>
    ensures value { Gives (λ units. units) name_cause result (units_of_text text.now) }
{
    let mut units = Vec::new(alloc);
    let mut rest = text;
    while !rest.is_empty() {
        let Some((spelled, behind)) = element(rest) else {
            return Err(NameFault::Text {
                at: (text.len() - rest.len()) as u64,
            });
        };
        push_spelled(&mut units, spelled)?;
        rest = behind;
    }
    Ok(Units::from(units))
}
