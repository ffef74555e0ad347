//! Decimal digits, for the argument of `seek`. Nothing here fails: a number that is too large
//! becomes the greatest one.
ghost use Rattle.std.specs.Prelude.{◌≡◌};
ghost use Rattle.std.specs.List.{list_all};
ghost use Rattle.amreplay.specs.CommandLines.Parts.{is_digit as is_digit_byte, number_within};

/// Returns whether the byte is an ASCII digit.
fn is_digit(byte: u8) -> bool
    ensures { result ≡ is_digit_byte byte }
{
    48 <= byte && byte <= 57
}

/// Returns whether all bytes are ASCII digits.
pub(crate) fn all_digits(text: &[u8]) -> bool
    ensures { result ≡ list_all is_digit_byte text.now }
{
    text.iter().all(|byte| is_digit(*byte))
}

/// Returns the number that the digits spell, or the greatest `usize` if that is less.
pub(crate) fn number(digits: &[u8]) -> usize
    ensures { result ≡ number_within digits.now }
{
    let mut number = 0usize;
    for digit in digits {
        number = number
            .saturating_mul(10)
            .saturating_add(usize::from(digit.saturating_sub(b'0')));
    }
    number
}
