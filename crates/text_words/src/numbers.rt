// Decimal numbers.
ghost use Rattle.std.specs.Prelude.{◌≡◌, ◌+◌, ◌-◌, ◌*◌, ◌≤◌, nat_le, if◌then◌else◌, Some, None, IfSome, IsTrue};
ghost use Rattle.std.specs.Char.{is_ascii_digit};
ghost use Rattle.std.specs.List.{list_all};
ghost use Rattle.std.specs.Str.Parse.{digits_value};
ghost use Rattle.text_words.specs.Numbers.{is_number, number_up_to};

/// Whether each byte of a text is a decimal digit.
pub fn are_digits(text: &[u8]) -> bool
    ensures { result ≡ list_all is_ascii_digit text.now }
{
    text.iter().all(|b| b.is_ascii_digit())
}

/// Decimal digits, without leading zeros unless the number is 0.
fn is_number(text: &[u8]) -> bool
    ensures { result ≡ is_number text.now }
{
    !text.is_empty() && are_digits(text) && (text.len() == 1 || text[0] != b'0')
}

/// A digit behind the digits of a value.
fn with_digit(value: u64, digit: u8) -> u128
    ensures { result ≡ value * 10 + (digit - 48) }
{
    u128::from(value) * 10 + u128::from(digit.saturating_sub(b'0'))
}

/// The value of decimal digits, where it is at most this.
fn value_up_to(most: u64, digits: &[u8]) -> Option<u64>
    requires { IsTrue (list_all is_ascii_digit digits.now) }
    ensures value { result ≡ (if nat_le (digits_value 10 digits.now) most then Some (digits_value 10 digits.now) else None) }
    ensures within { IfSome result (λ n. n ≤ most) }
{
    let mut value: u64 = 0;
    for digit in digits {
        let next = with_digit(value, *digit);
        if next > u128::from(most) {
            return None;
        }
        value = next as u64;
    }
    Some(value)
}

/// The number that a text writes, where it is at most this: decimal digits without leading zeros.
#[tactic(auto, unfolding(crate::specs::Numbers::number_up_to))]
pub fn number_up_to(most: u64, text: &[u8]) -> Option<u64>
    ensures value { result ≡ number_up_to most text.now }
    ensures within { IfSome result (λ n. n ≤ most) }
{
    if !is_number(text) {
        return None;
    }
    value_up_to(most, text)
}
