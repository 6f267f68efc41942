// The part of a value that fields stand in, and the text after them.
ghost use Rattle.std.specs.Prelude.{◌≡◌, ◌+◌, get_or, drop};
ghost use Rattle.numbers.specs.Numbers.{answered};
ghost use Rattle.fields.specs.Answers.{crossing, zero_filled};
ghost use Rattle.fields.specs.Fields.{text_at};
ghost use Rattle.fields.specs.PrivateSteps.{part_told, own_at_lem, entry_told, entry_with};

use crate::there;
use numbers::{Refusal, number_of, wide};

// Where a text lies in the value.
#[derive(Clone, Copy)]
pub(crate) struct TextPlace {
    pub start: usize,
    pub length: usize,
}

// An entry: its own fields, and the text that follows them. One that has none is empty and lies at 0.
#[derive(Clone, Copy)]
pub(crate) struct Entry<'a> {
    pub own: &'a [u8],
    pub text: TextPlace,
}

const NO_TEXT: TextPlace = TextPlace {
    start: 0,
    length: 0,
};

// What stands where a call refuses: nothing, so that every field is 0.
pub(crate) const NO_BYTES: &[u8] = &[];

pub(crate) const NO_ENTRY: Entry<'static> = Entry {
    own: NO_BYTES,
    text: NO_TEXT,
};

// The own fields of the entry at `at` (rule E11): 16 where the kind has no such entries, 3 where the value ends before
// they do.
pub(crate) fn own_at(size: Option<usize>, s: &[u8], at: usize) -> Result<&[u8], Refusal>
    ensures { part_told result ≡ own_at_lem size s.now at }
{
    let size = size.ok_or(Refusal::UnknownKind)?;
    if !there(size, s, at) {
        return Err(Refusal::CutShort);
    }
    Ok(&s[at..at + size])
}

// The text at `at`, after the byte that says its length.
#[tactic(auto, using(crate::proofs::Laws::no_length, crate::proofs::Laws::text_cut, crate::proofs::Laws::text_there))]
fn find_text(s: &[u8], at: usize) -> Result<TextPlace, Refusal>
    ensures { answered result ≡ text_at s.now at }
{
    if s.len() <= at {
        return Err(Refusal::CutShort);
    }
    let length = wide(s[at]);
    if !there(length, s, at + 1) {
        return Err(Refusal::CutShort);
    }
    Ok(TextPlace {
        start: at + 1,
        length,
    })
}

// The entry at `at` whose own fields have `size` bytes, and then a text if it has one.
pub(crate) fn entry_at(
    has_text: bool,
    size: Option<usize>,
    s: &[u8],
    at: usize,
) -> Result<Entry<'_>, Refusal>
    ensures { entry_told result ≡ entry_with has_text size s.now at }
{
    let own = own_at(size, s, at)?;
    if !has_text {
        return Ok(Entry { own, text: NO_TEXT });
    }
    let text = find_text(s, at + own.len())?;
    Ok(Entry { own, text })
}

// What crosses to C (rule C1): what was found and 0, or `none` and the number of the refusal.
pub(crate) fn crossed<T: Copy>(found: Result<T, Refusal>, none: T) -> (u8, T)
    ensures { result ≡ crossing (λ n a. (n, a)) none (answered found) }
{
    match found {
        Ok(value) => (0, value),
        Err(refusal) => (number_of(refusal), none),
    }
}

// The byte k bytes after `at`, or 0 past the end. So a field that an entry lacks is 0.
pub(crate) fn byte_at(s: &[u8], at: usize, k: usize) -> u8
    ensures { result ≡ get_or s.now (at + k) 0 }
{
    if at < s.len() && k < s.len() - at {
        return s[at + k];
    }
    0
}

// The N bytes from `at` on.
pub(crate) fn bytes_at<const N: usize>(s: &[u8], at: usize) -> [u8; N]
    ensures { result ≡ zero_filled N (drop at s.now) }
{
    let mut bytes = [0; N];
    for k in 0..N {
        bytes[k] = byte_at(s, at, k);
    }
    bytes
}
