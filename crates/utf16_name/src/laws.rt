//! The laws between the printed text of a name and its reading.
ghost use Rattle.std.specs.Prelude.{◌≡◌, ℕ, ◌^◌, ◌<◌, List, All, Ok, Err};
ghost use Rattle.std.specs.Str.{chars, IsUtf8};
ghost use Rattle.utf16_name.specs.declared.name.NameFault.{NameFault};
ghost use Rattle.utf16_name.specs.Lawful.{IsName};
ghost use Rattle.utf16_name.specs.Reading.{units_of_text, name_of_text};
ghost use Rattle.utf16_name.specs.Spelling.{Spells, IsFaultOf};
ghost use Rattle.utf16_name.specs.Texts.{name_text};

/// Law: the printed text of any UTF-16 units is read as these units.
pub fn printed_is_read()
    ensures { (units : List ℕ) → All (λ unit. unit < 2 ^ 16) units →
        units_of_text (name_text units) ≡ Ok units }
{}

/// Law: the printed text of a name is read as this name.
pub fn printed_name_is_read()
    ensures { (units : List ℕ) → IsName units → name_of_text (name_text units) ≡ Ok units }
{}

/// Law: where characters spell units element by element, a text of these characters is read as
/// them.
pub fn spelled_is_read()
    ensures { (text units : List ℕ) → Spells (chars text) units → units_of_text text ≡ Ok units }
{}

/// Law: the units that are read from a text are spelled by it, element by element.
pub fn read_is_spelled()
    ensures { (text units : List ℕ) → units_of_text text ≡ Ok units → Spells (chars text) units }
{}

/// Law: a fault names the byte where the first element at fault begins.
pub fn fault_is_first()
    ensures { (text : List ℕ) (fault : NameFault) → IsUtf8 text →
        units_of_text text ≡ Err fault → IsFaultOf text fault }
{}
