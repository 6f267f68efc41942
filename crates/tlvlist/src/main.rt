// Rules L1 to L3: lists the TLVs of the payload on standard input, a line for each, with its type and the length of its
// value. Then comes `end` and where the message ends, after its end marker or at the payload's end. Where the walk
// refuses, `bad` comes instead, with the refusal's number, the offset of the TLV that failed, and how many bytes are
// missing.
#![tactic(auto)]

ghost use Rattle.std.specs.Prelude.{◌≤◌, ℕ, length};

use std::fmt;
use std::fmt::Write;
use walking::{Stepped, Tlv, Unwalked};

// The text goes out in pieces of at most this size.
const SIZE: usize = 4096;

// A line is at most 70 bytes long: "bad ", three numbers of at most 20 digits, " at ", a space and the line's end.
const LINE: usize = 80;

// Lines that are written and not yet out, in fixed memory. They are no `Answers`, which hold 65,536 bytes: tlvlist stands
// alone, and takes little of the stack.
#[derive(Drop)]
struct Lines {
    text: [u8; SIZE],
    used: usize,
    ghost within: { used ≤ 4096 },
}

// What a format writes goes to the text piece by piece, and never fails.
impl fmt::Write for Lines {
    fn write_str(&mut self, s: &str) -> fmt::Result {
        self.put(s.as_bytes());
        Ok(())
    }
}

impl Lines {
    // Nothing is written yet.
    fn new() -> Self {
        Lines {
            text: [0; SIZE],
            used: 0,
        }
    }

    // Bytes that have no room are left out: `with_room` sees to it that a line has room.
    fn put(&mut self, bytes: &[u8]) {
        if bytes.len() <= SIZE - self.used {
            let end = self.used + bytes.len();
            self.text[self.used..end].copy_from_slice(bytes);
            self.used = end;
        }
    }

    fn put_tlv(&mut self, tlv: Tlv) {
        let _ = writeln!(self, "{} {}", tlv.tlv_type, tlv.length);
    }

    fn put_end(&mut self, at: usize) {
        let _ = writeln!(self, "end {}", at);
    }

    fn put_bad(&mut self, number: u8, at: usize, missing: usize) {
        let _ = writeln!(self, "bad {} at {} {}", number, at, missing);
    }

    // Writes the text out, and begins a new one. What cannot be written is lost.
    fn flush(&mut self, rt: &impl Print) {
        let _ = rt.write_all(&self.text[..self.used]);
        self.used = 0;
    }

    // Room for one more line: a text that is nearly full is written out first, so that there is a call for each large
    // piece and not for each number.
    fn with_room(&mut self, rt: &impl Print) {
        if SIZE - self.used < LINE {
            self.flush(rt);
        }
    }
}

// The lines of the TLVs of a payload (rules L1 and L2). Returns where the message ends.
fn list(rt: &impl Print, payload: &[u8], lines: &mut Lines) -> Result<usize, Unwalked> {
    let mut at = 0;
    loop {
        lines.with_room(rt);
        match walking::step(payload, at)? {
            Stepped::End => {
                return Ok(at);
            }
            Stepped::Tlv { tlv, next } => {
                lines.put_tlv(tlv);
                at = next;
            }
            Stepped::Last { tlv, end } => {
                lines.put_tlv(tlv);
                lines.with_room(rt);
                return Ok(end);
            }
        }
    }
}

// Rule L3: longer input is refused by 12. One byte more is asked for, to see that there is more.
const MOST_INPUT: usize = 47744;

fn main(rt: HostRuntime) {
    let mut payload = [0u8; MOST_INPUT + 1];
    let mut lines = Lines::new();
    let n = incoming::read_full(&mut rt.stdin(), &mut payload);
    if MOST_INPUT < n {
        lines.put_bad(12, 0, 0);
    } else {
        match list(&rt, &payload[..n], &mut lines) {
            Ok(end) => lines.put_end(end),
            Err(Unwalked { refusal, at }) => {
                lines.put_bad(
                    numbers::number_of(refusal),
                    at,
                    numbers::carried_by(refusal),
                );
            }
        }
    }
    lines.flush(&rt);
}
