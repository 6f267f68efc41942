// The file header and one record of a capture, as they are read (rules G1, G2, G4 and G6).
ghost use Rattle.std.specs.Prelude.{◌≡◌, ◌+◌, ◌<◌, ◌≤◌, length};
ghost use Rattle.numbers.specs.Numbers.{answered};
ghost use Rattle.walking.specs.Steps.{passed};
ghost use Rattle.captures.specs.Form.{field_at, is1905};
ghost use Rattle.captures.specs.Reading.{is_ours_lem, file_order, captured_at, record_at_lem, found_of, reached_of};

use crate::{Frame, Reached};
use numbers::{Refusal, be16};
use records::MacAddr;

// The magic number a1b2c3d4 (rule G1).
const MAGIC: usize = 0xA1B2C3D4;

// The EtherType of IEEE 1905.1 (rule G4).
const ETHER_TYPE: usize = 0x893A;

// A capture's bytes, and whether the numbers of its own stand with the highest byte first (rule G1).
#[derive(Clone, Copy)]
pub(crate) struct Ordered<'a> {
    pub(crate) file: &'a [u8],
    pub(crate) high_first: bool,
}

impl<'a> Ordered<'a> {
    // A number of the file's own in the two bytes from `at` on: by `be16`, which alone says how two bytes are a number
    // (rule B1). The other order swaps them.
    fn two_at(self, at: usize) -> usize
        requires { at + 2 ≤ length self.file.now }
        ensures { (result ≡ field_at self.entry.high_first 2 at self.entry.file.now) × (result < 65536) }
    {
        let file = self.file;
        if self.high_first {
            return be16(file[at], file[at + 1]);
        }
        be16(file[at + 1], file[at])
    }

    // The same in four bytes.
    fn four_at(self, at: usize) -> usize
        requires { at + 4 ≤ length self.file.now }
        ensures { (result ≡ field_at self.entry.high_first 4 at self.entry.file.now) × (result < 4294967296) }
    {
        let first = self.two_at(at);
        let second = self.two_at(at + 2);
        if self.high_first {
            return first * 65536 + second;
        }
        second * 65536 + first
    }

    // Does the file header say version 2.4 and Ethernet (rule G6)?
    fn is_ours(self) -> bool
        requires { 24 ≤ length self.file.now }
        ensures { result ≡ is_ours_lem self.entry.high_first self.entry.file.now }
    {
        self.two_at(4) == 2 && self.two_at(6) == 4 && self.four_at(20) == 1
    }

    // The step over the record at `at` (rules G6 and G7).
    pub(crate) fn record_at(self, at: usize) -> Result<Reached, Refusal>
        ensures { reached_of result ≡ record_at_lem self.entry.high_first self.entry.file.now at }
    {
        let file = self.file;
        if file.len() <= at {
            return Ok(Reached::FileEnd);
        }
        let have = file.len() - at;
        if have < 16 {
            return Err(Refusal::RunsPastEnd(16 - have));
        }
        let stored = self.four_at(at + 8);
        if stored != self.four_at(at + 12) {
            return Err(Refusal::BadFrame);
        }
        let left = have - 16;
        if left < stored {
            return Err(Refusal::RunsPastEnd(stored - left));
        }
        let seconds = self.four_at(at) as u32;
        let microseconds = self.four_at(at + 4) as u32;
        let start = at + 16;
        let end = start + stored;
        Ok(captured(&file[start..end], seconds, microseconds, at))
    }
}

// The file header (rule G6): whether numbers stand with the highest byte first.
pub(crate) fn order_of(file: &[u8]) -> Result<bool, Refusal>
    ensures { answered result ≡ file_order file.now }
{
    if file.len() < 24 {
        return Err(Refusal::RunsPastEnd(24 - file.len()));
    }
    let high = Ordered {
        file,
        high_first: true,
    };
    if high.four_at(0) == MAGIC {
        if high.is_ours() {
            return Ok(true);
        }
        return Err(Refusal::NotACapture);
    }
    let low = Ordered {
        file,
        high_first: false,
    };
    if low.four_at(0) == MAGIC {
        if low.is_ours() {
            return Ok(false);
        }
    }
    Err(Refusal::NotACapture)
}

// Is it a 1905 frame (rule G4)?
fn is_1905(frame: &[u8]) -> bool
    ensures { result ≡ is1905 frame.now }
{
    22 <= frame.len() && be16(frame[12], frame[13]) == ETHER_TYPE
}

// What a step goes over that finds this frame at this time, with the record header at `at` (rule G7).
fn captured(frame: &[u8], seconds: u32, microseconds: u32, at: usize) -> Reached
    requires { at + 16 + length frame.now < 18446744073709551616 }
    ensures { found_of result ≡ passed (captured_at at (record { seconds = seconds; microseconds = microseconds; frame = frame.now })) (at + 16 + length frame.now) }
{
    let next = at + 16 + frame.len();
    if !is_1905(frame) {
        return Reached::Other { next };
    }
    // A frame of 22 bytes has a whole CMDU header.
    let cmdu = framing::read_cmdu_header(&frame[14..]).unwrap();
    let sender = MacAddr {
        b0: frame[6],
        b1: frame[7],
        b2: frame[8],
        b3: frame[9],
        b4: frame[10],
        b5: frame[11],
    };
    let ours = Frame {
        seconds,
        microseconds,
        sender,
        cmdu,
        offset: at + 38,
        length: frame.len() - 22,
    };
    Reached::Ours { frame: ours, next }
}
