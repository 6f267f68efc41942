// UTF-8 by the grammar of RFC 3629, section 4 (rule E5): a byte at a time, with the range that the next one must be in.
#![tactic(auto)]

ghost use Rattle.std.specs.Prelude.{◌≡◌, ◌≤◌, length, drop, Some, option_map};
ghost use Rattle.utf8.specs.Utf8.{forms, begun, onward, is_utf8_lem};
ghost use Rattle.utf8.specs.PrivateUtf8.{awaits};

// How many bytes of a character that has begun are still to come: the next one is from `low` to `high`, and the others
// are tails. If none is, a character may begin, or the text may end.
#[derive(Clone, Copy)]
struct Awaited {
    left: usize,
    low: u8,
    high: u8,
}

// As many bytes as `left` says are still to come, the next one from `low` to `high`.
fn awaiting(left: usize, low: u8, high: u8) -> Option<Awaited>
    ensures { result ≡ Some (record { left = left; low = low; high = high }) }
{
    Some(Awaited { left, low, high })
}

// What is awaited after the first byte of a character: the grammar's forms, a line for each.
#[tactic(auto, using(std::proofs::lemmas::Bool::Decides::nat_tests))]
fn begin(b: u8) -> Option<Awaited>
    ensures { option_map awaits result ≡ begun forms b }
{
    match b {
        0x00..=0x7F => awaiting(0, 0x80, 0xBF),
        0xC2..=0xDF => awaiting(1, 0x80, 0xBF),
        0xE0 => awaiting(2, 0xA0, 0xBF),
        0xE1..=0xEC => awaiting(2, 0x80, 0xBF),
        0xED => awaiting(2, 0x80, 0x9F),
        0xEE..=0xEF => awaiting(2, 0x80, 0xBF),
        0xF0 => awaiting(3, 0x90, 0xBF),
        0xF1..=0xF3 => awaiting(3, 0x80, 0xBF),
        0xF4 => awaiting(3, 0x80, 0x8F),
        _ => None,
    }
}

// What is awaited after the byte b.
#[tactic(auto, using(crate::proofs::Grammar::some_left, crate::proofs::Grammar::too_low, crate::proofs::Grammar::too_high))]
fn step(awaited: Awaited, b: u8) -> Option<Awaited>
    ensures { option_map awaits result ≡ onward (awaits awaited) b }
{
    if awaited.left == 0 {
        return begin(b);
    }
    if b < awaited.low || awaited.high < b {
        return None;
    }
    awaiting(awaited.left - 1, 0x80, 0xBF)
}

// What follows the bytes below 0x80 at the start, which are passed eight at a time. Each of them is a character, and
// most texts hold no others.
#[tactic(auto, using(crate::proofs::Grammar::ascii_eight))]
fn after_ascii(s: &[u8]) -> &[u8]
    ensures { is_utf8_lem s.now ≡ is_utf8_lem result.now }
{
    let mut rest = s;
    while let [a, b, c, d, e, f, g, h, after @ ..] = rest {
        if 0x80 <= *a | *b | *c | *d | *e | *f | *g | *h {
            return rest;
        }
        rest = after;
    }
    rest
}

// Whether these bytes are characters, one after the other (rule E5).
#[tactic(auto, using(crate::proofs::Grammar::goes_on, crate::proofs::Grammar::goes_off, crate::proofs::Grammar::comes_to_end))]
pub fn is_utf8(s: &[u8]) -> bool
    ensures { result ≡ is_utf8_lem s.now }
{
    let mut awaited = Awaited {
        left: 0,
        low: 0x80,
        high: 0xBF,
    };
    for b in after_ascii(s) {
        let Some(next) = step(awaited, *b) else {
            return false;
        };
        awaited = next;
    }
    awaited.left == 0
}
