// Following fragments through a message, one after the other (rules M3 and M4).
ghost use Rattle.std.specs.Prelude.{◌≡◌, Bool, ◌&&◌, ◌||◌, ◌+◌, eqb, leb};
ghost use Rattle.std.specs.Bool.{beq};
ghost use Rattle.cutting.specs.Cuts.{most_fragments, is_tlvs_lem, is_alike_lem, is_cutting_lem};
ghost use Rattle.walking.specs.Walk.{payload_answered};
ghost use Rattle.cutting.specs.PrivateFollowing.{alone, goes_on_lem, is_headed_lem, is_carried_lem, before, taken_by, all_followed};

use crate::Proposed;
use crate::filling::{LONGEST_PAYLOAD, MOST_FRAGMENTS};
use numbers::Refusal;
use walking::PayloadError;

// Is the message whole TLVs and nothing else (rule M1)? The walk may refuse it, or bytes follow the marker.
pub(crate) fn whole(message: &[u8]) -> Result<(), PayloadError>
    ensures { payload_answered result ≡ alone message.now }
{
    if walking::walk(message)?.padding != 0 {
        return Err(PayloadError::Refused(Refusal::LeftOver));
    }
    Ok(())
}

// Is the payload one or more whole TLVs and nothing else (rule M3)?
fn is_tlvs(payload: &[u8]) -> bool
    ensures { result ≡ is_tlvs_lem payload.now }
{
    match whole(payload) {
        Ok(()) => 0 < payload.len(),
        Err(PayloadError::Unwalked(_)) => false,
        Err(PayloadError::Refused(_)) => false,
    }
}

// Does the message go on with these bytes at the offset `at`?
fn goes_on(message: &[u8], at: usize, part: &[u8]) -> bool
    ensures { result ≡ goes_on_lem message.now at part.now }
{
    if message.len() < part.len() {
        return false;
    }
    if message.len() - part.len() < at {
        return false;
    }
    part == &message[at..at + part.len()]
}

// Are version, type and id equal?
fn is_alike(f: Proposed, first: Proposed) -> bool
    ensures { result ≡ is_alike_lem f first }
{
    f.version == first.version && f.message_type == first.message_type && f.id == first.id
}

// Is the fragment with this number the final one?
fn is_final(number: usize, count: usize) -> bool
    ensures { result ≡ eqb (number + 1) count }
{
    number < count && count - number == 1
}

// Has the fragment the next number, the right mark, and the fields of the first one?
#[tactic(auto, unfolding(crate::specs::PrivateFollowing::is_headed_lem))]
fn is_headed(s: Reached, first: Proposed, f: Proposed) -> bool
    ensures { result ≡ is_headed_lem s first f }
{
    numbers::wide(f.number) == s.number
        && f.last == is_final(s.number, s.count)
        && is_alike(f, first)
}

// May the payload stand in one of `count` fragments of a message of this size? Only the empty message has an empty
// fragment.
fn is_run(payload: &[u8], size: usize, count: usize) -> bool
    ensures { result ≡ (is_tlvs_lem payload.now || (eqb size 0 && eqb count 1)) }
{
    is_tlvs(payload) || (size == 0 && count == 1)
}

// What is cut, and the lent payloads: those of the fragments are parts of them.
#[derive(Clone, Copy)]
pub(crate) struct Lent<'a> {
    pub(crate) message: &'a [u8],
    pub(crate) payloads: &'a [u8],
}

// Is its payload as asked, and does the message go on with it?
fn is_carried(s: Reached, f: Proposed, lent: Lent) -> bool
    ensures { result ≡ is_carried_lem lent.entry.message.now lent.entry.payloads.now s f }
{
    let payloads = lent.payloads;
    let start = f.start;
    let length = f.length;
    if payloads.len() < length {
        return false;
    }
    if payloads.len() - length < start {
        return false;
    }
    if LONGEST_PAYLOAD < length {
        return false;
    }
    let end = start + length;
    if !is_run(&payloads[start..end], lent.message.len(), s.count) {
        return false;
    }
    goes_on(lent.message, s.at, &payloads[start..end])
}

// Can a message have so many fragments?
fn is_count(count: usize) -> bool
    ensures { result ≡ (leb 1 count && leb count most_fragments) }
{
    0 < count && count <= MOST_FRAGMENTS
}

// How far the fragments go so far, each as asked: how many there are, how many were followed, where the next one begins
// in the message, and the first of them.
#[derive(Clone, Copy)]
struct Reached {
    count: usize,
    number: usize,
    at: usize,
    first: Option<Proposed>,
}

// Before the first of `count` fragments, where a message can have so many.
fn begin(count: usize) -> Option<Reached>
    ensures { result ≡ before count }
{
    if !is_count(count) {
        return None;
    }
    Some(Reached {
        count,
        number: 0,
        at: 0,
        first: None,
    })
}

// One fragment more, where it is as asked.
#[tactic(auto, unfolding(crate::specs::PrivateFollowing::taken_by))]
fn follow(s: Reached, f: Proposed, lent: Lent) -> Option<Reached>
    ensures { result ≡ taken_by lent.entry.message.now lent.entry.payloads.now s f }
{
    let first = s.first.unwrap_or(f);
    if !is_headed(s, first, f) || !is_carried(s, f, lent) {
        return None;
    }
    Some(Reached {
        number: numbers::wide(f.number) + 1,
        at: s.at + f.length,
        first: Some(first),
        ..s
    })
}

// How far all of them go. One that isn't as asked ends it.
fn followed(fragments: &[Proposed], lent: Lent) -> Option<Reached>
    ensures { result ≡ all_followed lent.entry.message.now lent.entry.payloads.now fragments.now }
{
    let mut reached = begin(fragments.len())?;
    for fragment in fragments {
        reached = follow(reached, *fragment, lent)?;
    }
    Some(reached)
}

// Are the fragments a cutting of the message (rule M3)? They end where it does.
pub(crate) fn is_cutting(fragments: &[Proposed], lent: Lent) -> bool
    ensures { result ≡ is_cutting_lem lent.entry.message.now lent.entry.payloads.now fragments.now }
{
    followed(fragments, lent).is_some_and(|reached| reached.at == lent.message.len())
}
