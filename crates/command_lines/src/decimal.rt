// Decimal numbers.
ghost use Rattle.std.specs.Prelude.{◌≡◌, ◌%◌, pos, neg_ℤ};
ghost use Rattle.command_lines.specs.Decimal.{with_digit_lem, number_of, signed_of, nearest};

// A number that does not fit is the greatest that does.
fn with_digit(n: u64, digit: u8) -> u64
    ensures { result ≡ with_digit_lem n digit }
{
    n.saturating_mul(10)
        .saturating_add(digit.wrapping_sub(b'0') as u64)
}

pub fn number(s: &[u8]) -> u64
    ensures { result ≡ number_of s.now }
{
    s.iter().fold(0, |n, digit| with_digit(n, *digit))
}

pub fn byte_of(n: u64) -> u8
    ensures { result ≡ n % 256 }
{
    (n % 256) as u8
}

pub(crate) fn u16_of(n: u64) -> u16
    ensures { result ≡ n % 65536 }
{
    (n % 65536) as u16
}

// A number below zero, by its distance from it. One that does not fit is the lowest that does.
fn below_zero(n: u64) -> i32
    ensures { result ≡ nearest 2147483647 (neg_ℤ (pos n)) }
{
    -(n.min(2147483648) as i64) as i32
}

// A number that is not below zero. One that does not fit is the greatest that does.
fn above_zero(n: u64) -> i32
    ensures { result ≡ nearest 2147483647 (pos n) }
{
    n.min(2147483647) as i32
}

// A number that may have a `-` in front.
pub(crate) fn signed_number(s: &[u8]) -> i32
    ensures { result ≡ nearest 2147483647 (signed_of s.now) }
{
    if crate::byte_at(s, 0) == b'-' {
        below_zero(number(crate::part(s, 1, s.len())))
    } else {
        above_zero(number(s))
    }
}

pub(crate) fn i8_of(n: i32) -> i8
    ensures { result ≡ nearest 127 n }
{
    n.clamp(-128, 127) as i8
}
