//! Decimal digits at the front of a text, for reading moments, durations and time intervals.
//! Numbers that are too large are cut off at a limit, so that nothing overflows.
ghost use Rattle.std.specs.Prelude.{◌≡◌, ◌<◌, ◌^◌, min, length};
ghost use Rattle.amr_time.specs.MomentText.{decimal};
ghost use Rattle.amr_time.specs.MomentRead.{is_digit as tests_digit, digits_of};

/// Returns whether the byte is an ASCII digit.
pub(crate) fn is_digit(byte: u8) -> bool
    ensures { result ≡ tests_digit byte }
{
    48 <= byte && byte <= 57
}

/// Returns how many digits the text begins with.
pub(crate) fn digit_count(bytes: &[u8]) -> usize
    ensures { result ≡ length (digits_of bytes.now) }
{
    bytes.iter().take_while(|byte| is_digit(**byte)).count()
}

/// Returns the number that the bytes spell as decimal digits, or `limit` if that is less. It never
/// overflows.
pub(crate) fn capped(bytes: &[u8], limit: u64) -> u64
    requires { limit < 2 ^ 59 }
    ensures { result ≡ min limit (decimal bytes.now) }
{
    let mut number = 0;
    for byte in bytes {
        number = (number * 10 + byte.saturating_sub(b'0') as u64).min(limit);
    }
    number
}

/// Returns the number that the bytes spell as decimal digits, or 2^64 if that is less.
pub(crate) fn wide_number(bytes: &[u8]) -> u128
    ensures { result ≡ min 18_446_744_073_709_551_616 (decimal bytes.now) }
{
    let mut number: u128 = 0;
    for byte in bytes {
        number = (number * 10 + byte.saturating_sub(b'0') as u128).min(18_446_744_073_709_551_616);
    }
    number
}
