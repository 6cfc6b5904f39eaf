ghost use Rattle.std.specs.Prelude.{◌≡◌, true};
ghost use Rattle.std.specs.List.{list_all};
ghost use Rattle.std.specs.Char.{is_ascii_digit};
ghost use Rattle.host_base.specs.Numbers.{is_decimal, decimal_behind, number_of, number_below};

// Whether each byte is a decimal digit.
fn all_digits(word: &[u8]) -> bool
    ensures { result ≡ list_all is_ascii_digit word.now }
{
    word.iter().all(|digit| digit.is_ascii_digit())
}

// Whether a word is `0` or decimal digits without a leading 0.
fn is_decimal(word: &[u8]) -> bool
    ensures { result ≡ is_decimal word.now }
{
    if !all_digits(word) || word.is_empty() {
        return false;
    }
    word.len() == 1 || word[0] != b'0'
}

// The number of decimal digits, where it is below 2^62.
fn decimal(digits: &[u8]) -> Option<u64>
    requires { list_all is_ascii_digit digits.now ≡ true }
    ensures { result ≡ number_below (decimal_behind 0 digits.now) }
{
    let mut number = 0u128;
    for digit in digits {
        number = number * 10 + u128::from(*digit - b'0');
        if number >= 1 << 62 {
            return None;
        }
    }
    Some(number as u64)
}

/// The number of a word of a script or of a command line: `0`, or decimal digits without a leading
/// 0, below 2^62. It takes time linear in the word.
#[tactic(auto, unfolding(crate::specs::Numbers::number_of))]
pub fn decimal_number(word: &str) -> Option<u64>
    ensures { result ≡ number_of word.now }
{
    let digits = word.as_bytes();
    if !is_decimal(digits) {
        return None;
    }
    decimal(digits)
}
