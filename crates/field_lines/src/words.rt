// Times, addresses and counts as words.
ghost use Rattle.std.specs.Prelude.{◌≡◌, ◌+◌, ◌%◌, ◌<◌, Some, false};
ghost use Rattle.std.specs.Fmt.{digit_glyph, WritesOnOk};
ghost use Rattle.std.specs.Str.{IsAscii};
ghost use Rattle.field_lines.specs.Words.{counted_text, missing_text, time_of_day, address_text};
ghost use Rattle.records.specs.Values.{address_at_lem};

use records::MacAddr;
use std::fmt;

const HEX_DIGITS: [u8; 16] = *b"0123456789abcdef";

// The last decimal digit of a number.
fn last_digit(n: u64) -> u8
    ensures value { result ≡ 48 + n % 10 }
    ensures ascii { result < 128 }
{
    b'0' + (n % 10) as u8
}

// A hexadecimal digit, in small letters.
fn hex_digit(n: u8) -> u8
    requires { n < 16 }
    ensures value { result ≡ digit_glyph false n }
    ensures ascii { result < 128 }
{
    HEX_DIGITS[n as usize]
}

// Writes ASCII in one piece. Times and addresses stand in most lines, and a format would fill and write each of their
// numbers by itself.
fn write_ascii<W: fmt::Write>(f: &mut fmt::Formatter<W>, text: &[u8]) -> fmt::Result
    requires { IsAscii text.now }
    ensures { WritesOnOk W.write_str_gives f.old result text.now f.new }
{
    let Ok(text) = str::from_utf8(text) else {
        unreachable!()
    };
    f.write_str(text)
}

#[tactic(auto, using(crate::proofs::Digits::two_digits, crate::proofs::Digits::three_digits))]
fn time_bytes(t: u64) -> [u8; 12]
    ensures value { result ≡ time_of_day t }
    ensures ascii { IsAscii result }
{
    let seconds = t / 1000 % 86400;
    let hour = seconds / 3600;
    let minute = seconds / 60 % 60;
    let second = seconds % 60;
    let millis = t % 1000;
    [
        last_digit(hour / 10),
        last_digit(hour),
        b':',
        last_digit(minute / 10),
        last_digit(minute),
        b':',
        last_digit(second / 10),
        last_digit(second),
        b'.',
        last_digit(millis / 100),
        last_digit(millis / 10),
        last_digit(millis),
    ]
}

#[tactic(auto, using(std::proofs::lemmas::Fmt::hex_byte))]
fn address_bytes(m: MacAddr) -> [u8; 17]
    ensures value { result ≡ address_text m }
    ensures ascii { IsAscii result }
{
    let MacAddr {
        b0,
        b1,
        b2,
        b3,
        b4,
        b5,
    } = m;
    [
        hex_digit(b0 / 16),
        hex_digit(b0 % 16),
        b':',
        hex_digit(b1 / 16),
        hex_digit(b1 % 16),
        b':',
        hex_digit(b2 / 16),
        hex_digit(b2 % 16),
        b':',
        hex_digit(b3 / 16),
        hex_digit(b3 % 16),
        b':',
        hex_digit(b4 / 16),
        hex_digit(b4 % 16),
        b':',
        hex_digit(b5 / 16),
        hex_digit(b5 % 16),
    ]
}

// The time of day, HH:MM:SS.mmm (UTC), of a time in milliseconds.
#[derive(Clone, Copy)]
pub struct Time(pub u64);

impl fmt::Display for Time {
    ghost output = { λ t. Some (time_of_day t.0) };

    fn fmt<W: fmt::Write>(&self, f: &mut fmt::Formatter<W>) -> fmt::Result {
        write_ascii(f, &time_bytes(self.0))
    }
}

// Six pairs joined by colons.
#[derive(Clone, Copy)]
pub struct Address(pub MacAddr);

impl fmt::Display for Address {
    ghost output = { λ a. Some (address_text a.0) };

    fn fmt<W: fmt::Write>(&self, f: &mut fmt::Formatter<W>) -> fmt::Result {
        write_ascii(f, &address_bytes(self.0))
    }
}

// One of what is counted, or so many.
#[derive(Clone, Copy)]
pub struct Counted<'a> {
    pub count: u64,
    pub what: &'a str,
}

impl fmt::Display for Counted<'_> {
    ghost output = { λ c. Some (counted_text c.count c.what.now) };

    fn fmt<W: fmt::Write>(&self, f: &mut fmt::Formatter<W>) -> fmt::Result {
        let Counted { count, what } = *self;
        if count == 1 {
            write!(f, "{count} {what}")
        } else {
            write!(f, "{count} {what}s")
        }
    }
}

// How many bytes are missing.
#[derive(Clone, Copy)]
pub struct Missing(pub u64);

impl fmt::Display for Missing {
    ghost output = { λ m. Some (missing_text m.0) };

    fn fmt<W: fmt::Write>(&self, f: &mut fmt::Formatter<W>) -> fmt::Result {
        let bytes = Counted {
            count: self.0,
            what: "byte",
        };
        if self.0 == 1 {
            write!(f, "{bytes} is missing")
        } else {
            write!(f, "{bytes} are missing")
        }
    }
}

// The address in the first six bytes; bytes that aren't there are zeros.
pub fn first_address(s: &[u8]) -> MacAddr
    ensures { result ≡ address_at_lem s.now 0 }
{
    fields::address_at(s, 0)
}

// The address in the six bytes after these.
pub fn second_address(s: &[u8]) -> MacAddr
    ensures { result ≡ address_at_lem s.now 6 }
{
    fields::address_at(s, 6)
}

// So many bytes of a slice from `start` on; none where they don't lie inside.
pub(crate) fn part_of(s: &[u8], start: usize, length: usize) -> &[u8] {
    s.get(start..)
        .and_then(|rest| rest.get(..length))
        .unwrap_or(&[])
}
