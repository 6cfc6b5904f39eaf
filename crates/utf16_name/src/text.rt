ghost use Rattle.std.specs.Prelude.{◌≡◌, ◌++◌, OnOk, IfOk, string_bytes};
ghost use Rattle.utf16_name.specs.Texts.{unit_text, name_text};

use std::alloc::{AllocError, Global};

// Appends the printed unit.
fn push_unit(text: &mut String, unit: u16) -> Result<(), AllocError>
    ensures { OnOk result (string_bytes text.new ≡ string_bytes text.old ++ unit_text unit) }
{
    if unit >= 0x21 && unit <= 0x7e && unit != 0x5c && unit != 0x2f {
        return text.push(char::from(unit as u8));
    }
    let digits = hex::encode_upper(*text.allocator(), unit.to_be_bytes())?;
    text.push_str("\\u")?;
    text.push_str(&digits)
}

// The printed name.
#[tactic(auto, unfolding(crate::specs::Texts::name_text))]
pub fn shown(alloc: Global, units: &[u16]) -> Result<String, AllocError>
    ensures { IfOk result (λ text. string_bytes text ≡ name_text units.now) }
{
    let mut text = String::with_capacity(alloc, units.len())?;
    for unit in units {
        push_unit(&mut text, *unit)?;
    }
    Ok(text)
}
