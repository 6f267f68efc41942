// The window: the file header, and as many bytes of the file from some place on as there is room for. So each window is
// a capture of its own, and what a step finds in it is what a step finds in the file (rule H10).
ghost use Rattle.std.specs.Prelude.{◌≡◌, ◌+◌, ◌-◌, ◌≤◌, ◌↔◌, ◌++◌, List, ℕ, IsTrue, length, take, drop};
ghost use Rattle.house.specs.Windows.{shortened, window_size};
ghost use Rattle.watch.specs.Refills.{Refills};

use std::io::{Read, Seek, SeekFrom};
use std::marker::Model;

// A file header has so many bytes (rule G1).
pub(crate) const HEADER: usize = 24;

pub(crate) const WINDOW: usize = 131072;

// The file's first byte, where its numbers stand highest byte first (rule G1).
const HIGH_FIRST: u8 = 0xA1;

// The window's bytes end at `have`, and byte 24 of the window is byte `base` of the file. It is an array, for memory
// doesn't grow with the file.
#[derive(Drop)]
pub(crate) struct Window {
    bytes: [u8; WINDOW],
    have: usize,
    base: u64,
}

// Clauses see the window's bytes.
impl Model for Window {
    ghost Value = { List ℕ };

    ghost view = { λ w. take w.have w.bytes };

    ghost invariant = { λ w. w.have ≤ 131072 };
}

// Moves the bytes from `from` to `end` to where the records start, and returns where they then end.
fn moved(s: &mut [u8], from: usize, end: usize) -> usize
    ensures within { result ≤ length s.old }
    ensures long { length s.new ≡ length s.old }
    ensures moved { 24 ≤ from → from ≤ end → end ≤ length s.old → (result ≡ 24 + (end - from)) × (take result s.new ≡ take 24 s.old ++ drop from (take end s.old)) }
{
    if HEADER <= from && from <= end && end <= s.len() {
        s.copy_within(from..end, HEADER);
        HEADER + (end - from)
    } else {
        HEADER.min(s.len())
    }
}

impl Window {
    // Nothing is read yet.
    pub(crate) fn new() -> Self {
        Window {
            bytes: [0; WINDOW],
            have: 0,
            base: HEADER as u64,
        }
    }

    pub(crate) fn seen(&self) -> &[u8]
        ensures { result.now ≡ self.now }
    {
        &self.bytes[..self.have]
    }

    pub(crate) fn is_full(&self) -> bool
        ensures { IsTrue result ↔ (length self.now ≡ window_size) }
    {
        self.have == WINDOW
    }

    // Where byte `at` of the window stands in the file.
    pub(crate) fn place_of(&self, at: usize) -> u64 {
        self.base
            .wrapping_add((at as u64).wrapping_sub(HEADER as u64))
    }

    // Where the file goes on after a frame that is longer than the window, which is full and begins with its record.
    pub(crate) fn after_long(&self, missing: u64) -> u64 {
        self.place_of(WINDOW).wrapping_add(missing)
    }

    // What is not gone over yet, from `at` on, moves to the start of the window, and more of the file follows it: so many
    // bytes came.
    pub(crate) fn refill(&mut self, input: &mut impl Read, at: usize) -> usize
        ensures { 24 ≤ at → at ≤ length self.old → Refills self.old self.new at result }
    {
        let base = self.place_of(at);
        let kept = moved(&mut self.bytes, at, self.have);
        let more = incoming::read_some(input, &mut self.bytes[kept..]);
        self.have = kept + more;
        self.base = base;
        more
    }

    // The file from its start, which has to be at hand: the window begins with the file header.
    pub(crate) fn start<R: Read + Seek>(&mut self, input: &mut R) {
        let _ = input.rewind();
        self.have = incoming::read_full(input, &mut self.bytes);
        self.base = HEADER as u64;
    }

    // Goes on at a place of the file, with nothing in the window after its header.
    pub(crate) fn seek(&mut self, input: &mut impl Seek, base: u64)
        ensures { 24 ≤ length self.old → self.new ≡ take 24 self.old }
    {
        let _ = input.seek(SeekFrom::Start(base));
        self.have = HEADER;
        self.base = base;
    }

    // A number of the file's own in the four bytes from `at` on (rule G1); 0 where they aren't there.
    pub(crate) fn four_at(&self, at: usize) -> u64 {
        let Some(rest) = self.seen().get(at..) else {
            return 0;
        };
        let Some(field) = rest.first_chunk::<4>() else {
            return 0;
        };
        if self.bytes[0] == HIGH_FIRST {
            u64::from(u32::from_be_bytes(*field))
        } else {
            u64::from(u32::from_le_bytes(*field))
        }
    }

    // A frame that is longer than the window is judged by what there is of it: both lengths in its record header then say
    // that this is all.
    pub(crate) fn shorten(&mut self)
        requires { length self.old ≡ window_size }
        ensures { self.new ≡ shortened self.old }
    {
        let length = (WINDOW - HEADER - 16) as u32;
        let field = if self.bytes[0] == HIGH_FIRST {
            length.to_be_bytes()
        } else {
            length.to_le_bytes()
        };
        self.bytes[32..36].copy_from_slice(&field);
        self.bytes[36..40].copy_from_slice(&field);
    }
}

// The length of the file. A pipe has none.
pub(crate) fn size_of_input(input: &mut impl Seek) -> u64 {
    input.seek(SeekFrom::End(0)).unwrap_or(0)
}
