// The fields of a line.
ghost use Rattle.std.specs.Prelude.{◌≡◌, ◌==◌, ◌+◌, ◌%◌, ◌≤◌, length, slice_index};
ghost use Rattle.command_lines.specs.Decimal.{number_of, signed_of, nearest};
ghost use Rattle.command_lines.specs.Fields.{field_in, up_to, past_first};

use crate::decimal;

// What stands before the first separator.
fn first_of(s: &[u8], separator: u8) -> &[u8]
    ensures { result.now ≡ up_to separator s.now }
{
    &s[..crate::place_of(s, separator)]
}

// What stands after the first separator; nothing where there is none.
fn after_first(s: &[u8], separator: u8) -> &[u8]
    ensures { result.now ≡ past_first separator s.now }
{
    let end = crate::place_of(s, separator);
    crate::part(s, end + 1, s.len())
}

// A line of text, by the fields that stand between its separators. A field may be a line with separators of its own.
#[derive(Clone, Copy)]
pub struct Line<'a> {
    text: &'a [u8],
    separator: u8,
}

impl<'a> Line<'a> {
    ghost use Rattle.command_lines.specs.Lines.{field_of};

    pub fn new(text: &'a [u8], separator: u8) -> Line<'a>
        ensures { (result.text.now ≡ text.now) × (result.separator ≡ separator) }
    {
        Line { text, separator }
    }

    // The line of a command has blanks between its fields.
    pub fn of_command(text: &'a [u8]) -> Line<'a>
        ensures { (result.text.now ≡ text.now) × (result.separator ≡ 32) }
    {
        Line::new(text, b' ')
    }

    // The first byte, 0 where there is none.
    pub fn letter(&self) -> u8
        ensures { result ≡ slice_index self.now.text.now 0 }
    {
        crate::byte_at(self.text, 0)
    }

    // Field number n, from 0.
    pub fn field(&self, n: usize) -> &'a [u8]
        ensures { result.now ≡ field_of self.now n }
    {
        let mut rest = self.text;
        for _ in 0..n {
            rest = after_first(rest, self.separator);
        }
        first_of(rest, self.separator)
    }

    // Field number n, as a line with separators of its own.
    pub fn pieces(&self, n: usize, separator: u8) -> Line<'a>
        ensures { (result.text.now ≡ field_of self.now n) × (result.separator ≡ separator) }
    {
        Line::new(self.field(n), separator)
    }

    // How many fields there are; `-` stands for none.
    pub fn count(&self) -> usize
        ensures { result ≤ length self.now.text.now + 1 }
    {
        if self.letter() == b'-' {
            return 0;
        }
        self.text.iter().filter(|b| **b == self.separator).count() + 1
    }

    // The number in field n. One that does not fit is the greatest that does.
    pub fn number(&self, n: usize) -> u64
        ensures { result ≡ number_of (field_of self.now n) }
    {
        decimal::number(self.field(n))
    }

    pub fn size(&self, n: usize) -> usize
        ensures { result ≡ number_of (field_of self.now n) }
    {
        self.number(n) as usize
    }

    pub fn byte(&self, n: usize) -> u8
        ensures { result ≡ number_of (field_of self.now n) % 256 }
    {
        decimal::byte_of(self.number(n))
    }

    pub fn two_bytes(&self, n: usize) -> u16
        ensures { result ≡ number_of (field_of self.now n) % 65536 }
    {
        decimal::u16_of(self.number(n))
    }

    // The number in field n, which may have a `-` in front. One that does not fit is the nearest that does.
    pub fn signed(&self, n: usize) -> i32
        ensures { result ≡ nearest 2147483647 (signed_of (field_of self.now n)) }
    {
        decimal::signed_number(self.field(n))
    }

    pub fn signed_byte(&self, n: usize) -> i8
        ensures { result ≡ nearest 127 (nearest 2147483647 (signed_of (field_of self.now n))) }
    {
        decimal::i8_of(self.signed(n))
    }

    // Puts the bytes of field n at the start of buffer. Returns how many there are.
    pub fn decode(&self, n: usize, buffer: &mut [u8]) -> usize
        ensures { result ≤ length buffer.old }
    {
        crate::decode(self.field(n), buffer)
    }
}
