ghost use Rattle.std.specs.Prelude.{◌≡◌, ◌<◌, length, IfSome};
ghost use Rattle.std.specs.Char.Escape.{encode_utf16};
ghost use Rattle.std.specs.Str.{chars, IsUtf8};
ghost use Rattle.utf16_name.specs.Elements.{Finds, first_at, digit_at, digits_at, escape_at, element_at};
ghost use Rattle.utf16_name.specs.Spelled.{units_spelled};

/// What an element of a text stands for: one unit, or a surrogate pair.
#[derive(Clone, Copy)]
pub enum Spelled {
    Unit(u16),
    Pair(u16, u16),
}

// The first character, and the text behind it.
pub fn split_first(text: &str) -> Option<(char, &str)>
    ensures value { Finds (λ x. (x.0, chars x.1.now)) result (first_at (chars text.now)) }
    ensures utf8 { IfSome result (λ x. IsUtf8 x.1.now) }
    ensures shorter { IfSome result (λ x. length x.1.now < length text.now) }
{
    let mut rest = text.chars();
    match rest.next() {
        Some(first) => Some((first, rest.as_str())),
        None => None,
    }
}

// The hexadecimal digit at the front, of either case, and the text behind it.
#[tactic(auto, using(std::proofs::lemmas::Bool::Decides::nat_tests), unfolding(crate::specs::Elements::digit_at, crate::specs::Elements::digit_of))]
fn digit(text: &str) -> Option<(u16, &str)>
    ensures value { Finds (λ x. (x.0, chars x.1.now)) result (digit_at (chars text.now)) }
    ensures below { IfSome result (λ x. x.0 < 16) }
    ensures utf8 { IfSome result (λ x. IsUtf8 x.1.now) }
    ensures shorter { IfSome result (λ x. length x.1.now < length text.now) }
{
    let (first, rest) = split_first(text)?;
    let value = first.to_digit(16)?;
    Some((value as u16, rest))
}

// The unit that four hexadecimal digits at the front spell, and the text behind them.
#[tactic(auto, unfolding(crate::specs::Elements::digits_at))]
fn digits(text: &str) -> Option<(u16, &str)>
    ensures value { Finds (λ x. (x.0, chars x.1.now)) result (digits_at (chars text.now)) }
    ensures utf8 { IfSome result (λ x. IsUtf8 x.1.now) }
    ensures shorter { IfSome result (λ x. length x.1.now < length text.now) }
{
    let (a, text) = digit(text)?;
    let (b, text) = digit(text)?;
    let (c, text) = digit(text)?;
    let (d, text) = digit(text)?;
    Some((((a * 16 + b) * 16 + c) * 16 + d, text))
}

// The unit of an escape behind its `\`, and the text behind it.
#[tactic(auto, using(std::proofs::lemmas::Bool::Decides::nat_tests), unfolding(crate::specs::Elements::escape_at))]
fn escape(text: &str) -> Option<(Spelled, &str)>
    ensures value { Finds (λ x. (units_spelled x.0, chars x.1.now))
        result (escape_at (chars text.now)) }
    ensures utf8 { IfSome result (λ x. IsUtf8 x.1.now) }
    ensures shorter { IfSome result (λ x. length x.1.now < length text.now) }
{
    let (first, rest) = split_first(text)?;
    if first != 'u' {
        return None;
    }
    let (unit, rest) = digits(rest)?;
    Some((Spelled::Unit(unit), rest))
}

// The UTF-16 units of a character.
fn character_units(character: char) -> Spelled
    ensures { units_spelled result ≡ encode_utf16 character }
{
    let code = character as u32;
    if code < 0x1_0000 {
        return Spelled::Unit(code as u16);
    }
    let above = code - 0x1_0000;
    Spelled::Pair(
        (0xd800 + above / 0x400) as u16,
        (0xdc00 + above % 0x400) as u16,
    )
}

// The element at the front, and the text behind it; nothing where no element begins there.
#[tactic(auto, using(std::proofs::lemmas::Bool::Decides::nat_tests), unfolding(crate::specs::Elements::element_at, crate::specs::Elements::element_of))]
pub fn element(text: &str) -> Option<(Spelled, &str)>
    ensures value { Finds (λ x. (units_spelled x.0, chars x.1.now))
        result (element_at (chars text.now)) }
    ensures utf8 { IfSome result (λ x. IsUtf8 x.1.now) }
    ensures shorter { IfSome result (λ x. length x.1.now < length text.now) }
{
    let (first, rest) = split_first(text)?;
    match first {
        '\\' => escape(rest),
        '/' => None,
        '!'..='~' => Some((Spelled::Unit(first as u16), rest)),
        '\u{80}'.. => Some((character_units(first), rest)),
        _ => None,
    }
}
