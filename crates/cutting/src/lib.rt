// How a message is cut into fragments (rules M1 to M5): a checker of what others cut, and a cutter.
#![tactic(auto)]

mod filling;
mod following;

ghost use Rattle.std.specs.Prelude.{◌≡◌, length};
ghost use Rattle.numbers.specs.Numbers.{mapped};
ghost use Rattle.cutting.specs.Cuts.{check_of};
ghost use Rattle.walking.specs.Walk.{payload_answered};
ghost use Rattle.cutting.specs.Greedy.{cut_into, with_ends};

use filling::plan;
use following::{Lent, is_cutting, whole};
use numbers::Refusal;
use walking::PayloadError;

// A fragment that is proposed (rule M2). Its payload is the part of the lent payloads that begins at `start` and has
// `length` bytes.
#[repr(C)]
#[derive(Clone, Copy)]
pub struct Proposed {
    pub version: u8,
    pub message_type: u16,
    pub id: u16,
    pub number: u8,
    pub last: bool,
    pub start: usize,
    pub length: usize,
}

// Checks how others cut a message (rule M4): whether these fragments, of any number, are a cutting of it, or why the
// message itself is refused. Each payload is a part of the lent payloads, so that nothing is copied. One that lies
// outside them is not accepted.
pub fn check(message: &[u8], fragments: &[Proposed], payloads: &[u8]) -> Result<bool, PayloadError>
    ensures { payload_answered result ≡ check_of message.now fragments.now payloads.now }
{
    whole(message)?;
    Ok(is_cutting(fragments, Lent { message, payloads }))
}

// Cuts a message (rule M5): fills each fragment as far as whole TLVs go, and writes to the list where each one ends,
// offsets in the message that rise. Nothing is written before the whole message has been walked, so that a refusal
// changes nothing in the list (rule A3).
pub fn cut(message: &[u8], ends: &mut [usize]) -> Result<usize, PayloadError>
    ensures { (payload_answered result ≡ mapped length (cut_into message.now (length ends.old)))
        × (ends.new ≡ with_ends (cut_into message.now (length ends.old)) ends.old) }
{
    let planned = plan(message, ends.len())?;
    let count = planned.count;
    ends[..count].copy_from_slice(&planned.ends[..count]);
    Ok(count)
}
