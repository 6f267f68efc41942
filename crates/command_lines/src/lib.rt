// Reading a command: its fields, numbers, and bytes written as hex pairs and repeats. A line that is too long, or has
// too many bytes, counts as an empty one, which is no command. Any other line that is no command gets some answer. No
// such line is ever generated.
#![tactic(auto)]

mod decimal;
mod line;

ghost use Rattle.std.specs.Prelude.{◌≡◌, ◌==◌, ◌<◌, ◌≤◌, length, slice_index, slice_range};
ghost use Rattle.std.specs.List.{position_or_len, position};

pub use decimal::{byte_of, number};
pub use line::Line;

// The longest line, without its end.
const LONGEST: usize = 32768;

// The most bytes that may come out of a line.
const MOST: usize = 66000;

// Where the first separator stands.
fn found(s: &[u8], separator: u8) -> Option<usize>
    ensures { result ≡ position (λ b. b == separator) s.now }
{
    s.iter().position(|b| *b == separator)
}

// Where the first separator stands, or the end where there is none.
fn place_of(s: &[u8], separator: u8) -> usize
    ensures first { result ≡ position_or_len (λ b. b == separator) s.now }
    ensures within { result ≤ length s.now }
{
    found(s, separator).unwrap_or(s.len())
}

// From a to e, as far as s goes.
pub fn part(s: &[u8], a: usize, e: usize) -> &[u8]
    ensures { result.now ≡ slice_range s.now a e }
{
    s.get(a..e.min(s.len())).unwrap_or(&[])
}

// The byte at i, 0 past the end.
pub fn byte_at(s: &[u8], i: usize) -> u8
    ensures { result ≡ slice_index s.now i }
{
    s.get(i).copied().unwrap_or(0)
}

fn digit(c: u8) -> u8
    ensures { result < 16 }
{
    if c < b'a' {
        c.wrapping_sub(b'0') % 16
    } else {
        (c - 87) % 16
    }
}

// The byte of two hex digits.
fn byte_of_pair(high: u8, low: u8) -> u8 {
    digit(high) * 16 + digit(low)
}

// The byte of the hex pair number n, from 0; 0 past a line's end.
pub fn pair(s: &[u8], n: usize) -> u8
    ensures { result < 256 }
{
    if n < LONGEST {
        return byte_of_pair(byte_at(s, n * 2), byte_at(s, n * 2 + 1));
    }
    0
}

// Puts the byte `count` times from n on, as far as there is room. Returns where they end.
fn repeat(buffer: &mut [u8], n: usize, count: usize, b: u8) -> usize
    requires { n ≤ length buffer.old }
    ensures { result ≤ length buffer.old }
{
    let end = n + count.min(buffer.len() - n);
    buffer[n..end].fill(b);
    end
}

// Puts the bytes of a field at the start of buffer: `-` for none, hex pairs, and repeats `*COUNT:PAIR`. Returns how
// many there are. Bytes that have no room are left out.
fn decode(s: &[u8], buffer: &mut [u8]) -> usize
    ensures { result ≤ length buffer.old }
{
    if LONGEST < s.len() || byte_at(s, 0) == b'-' {
        return 0;
    }
    let mut n = 0;
    let mut i = 0;
    // No `for`: a pair is two bytes long, and a repeat as long as its count has digits.
    while i < s.len() {
        if s[i] == b'*' {
            let colon = i + place_of(&s[i..], b':');
            let b = byte_of_pair(byte_at(s, colon + 1), byte_at(s, colon + 2));
            n = repeat(
                buffer,
                n,
                decimal::number(part(s, i + 1, colon)) as usize,
                b,
            );
            i = colon + 3;
        } else {
            n = repeat(buffer, n, 1, byte_of_pair(s[i], byte_at(s, i + 1)));
            i += 2;
        }
    }
    n
}

// The line from a to e, or an empty one where it is too long.
pub fn line_in(input: &[u8], a: usize, e: usize) -> &[u8]
    ensures { length result.now ≤ 32768 }
{
    let line = part(input, a, e);
    if LONGEST < line.len() {
        return &line[..0];
    }
    line
}

// A line that has n bytes, or an empty one where those are too many.
pub fn command_of(line: &[u8], n: usize) -> &[u8]
    ensures within { length result.now ≤ length line.now }
    ensures whole { n ≤ 66000 → result.now ≡ line.now }
{
    if MOST < n {
        return &line[..0];
    }
    line
}

// Where the line that starts at `at` ends among the first `have` bytes, or `have` where its end is not among them.
pub fn line_end(input: &[u8], at: usize, have: usize) -> usize
    ensures { result ≤ have }
{
    let filled = part(input, 0, have);
    let start = at.min(filled.len());
    start + place_of(&filled[start..], b'\n')
}

// Moves the bytes from a to e to the start, and returns how many they are. From a line that is too long, it moves only
// as many as show that.
pub fn moved(s: &mut [u8], a: usize, e: usize) -> usize
    ensures { result ≤ length s.old }
{
    if s.len() < e || e < a {
        return 0;
    }
    let n = (e - a).min(LONGEST + 1);
    s.copy_within(a..a + n, 0);
    n
}
