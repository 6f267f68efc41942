// The walk over a payload's TLVs (rules W1 to W6). One form counts them, a second one also fills a TLV list that the
// caller lends. The walk ends with the first end marker, and the padding after it is not looked at.
#![tactic(auto)]

ghost use Rattle.std.specs.Prelude.{◌≡◌, ◌<◌, length};
ghost use Rattle.walking.specs.declared.PayloadError.{PayloadError};
ghost use Rattle.walking.specs.Walk.{is_marker_lem, answered_at, stepped_of, step_at, walk_of, counted, listed, filled, offset_at};
ghost use Rattle.walking.specs.PrivateSteps.{passed_by};

use numbers::Refusal;

// A TLV record, as a walk lists it (rule W5): the type, the length of the value, and the offset of the type byte.
#[repr(C)]
#[derive(Clone, Copy)]
pub struct Tlv {
    pub tlv_type: u8,
    pub length: u16,
    pub offset: usize,
}

// How many TLVs the walk went over and how long the padding is (rule W3).
#[derive(Clone, Copy)]
pub struct WalkCount {
    pub count: usize,
    pub padding: usize,
}

// Why a walk stopped, and where: at the offset of the TLV that failed (rule W4) or, for 14, of the first TLV that has
// no element in the list (rule W5).
#[derive(Clone, Copy)]
pub struct Unwalked {
    pub refusal: Refusal,
    pub at: usize,
}

// Why a call over a whole payload gives nothing: the walk refuses it, at the offset of the TLV that failed, or a refusal
// has no offset.
#[derive(Clone, Copy)]
pub enum PayloadError {
    Unwalked(Unwalked),
    Refused(Refusal),
}

impl From<Unwalked> for PayloadError {
    ghost from_gives = { λ stopped error. error ≡ PayloadError.Unwalked stopped };

    fn from(stopped: Unwalked) -> PayloadError {
        PayloadError::Unwalked(stopped)
    }
}

impl From<Refusal> for PayloadError {
    ghost from_gives = { λ refusal error. error ≡ PayloadError.Refused refusal };

    fn from(refusal: Refusal) -> PayloadError {
        PayloadError::Refused(refusal)
    }
}

// What a step of the walk finds (rule W6): that no byte is left; a TLV and where the next step starts; or the marker,
// which is the message's last TLV, and where the message ends.
#[derive(Clone, Copy)]
pub enum Stepped {
    End,
    Tlv { tlv: Tlv, next: usize },
    Last { tlv: Tlv, end: usize },
}

// Is this TLV the marker that ends a message (rule W2)?
fn is_marker(t: Tlv) -> bool
    ensures { result ≡ is_marker_lem t }
{
    t.tlv_type == 0 && t.length == 0
}

// One step of the walk, at the offset `at` (rule W6). Whoever goes over a payload's TLVs goes by this step, from 0 on.
// Nothing else looks for a marker.
pub fn step(payload: &[u8], at: usize) -> Result<Stepped, Unwalked>
    ensures { stepped_of result ≡ step_at payload.now at }
{
    if payload.len() <= at {
        return Ok(Stepped::End);
    }
    // A match, and not `map_err`: its closure's refusal can't be followed through `?` in a proof (tried; not proved).
    let read = match framing::read_tlv(&payload[at..]) {
        Ok(read) => read,
        Err(refusal) => return Err(Unwalked { refusal, at }),
    };
    let tlv = Tlv {
        tlv_type: read.tlv_type,
        length: read.value_length as u16,
        offset: at,
    };
    // The marker has no value: the message ends after its three bytes.
    if is_marker(tlv) {
        return Ok(Stepped::Last { tlv, end: at + 3 });
    }
    Ok(Stepped::Tlv {
        tlv,
        next: at + read.consumed,
    })
}

// Counts the TLVs of a payload, and measures the padding (rule W3).
pub fn walk(payload: &[u8]) -> Result<WalkCount, Unwalked>
    ensures { answered_at result ≡ counted (walk_of payload.now) }
{
    let mut at = 0;
    let mut count = 0;
    loop {
        let found = step(payload, at)?;
        match found {
            Stepped::End => {
                return Ok(WalkCount { count, padding: 0 });
            }
            Stepped::Tlv { tlv: _, next } => {
                at = next;
                count += 1;
            }
            Stepped::Last { tlv: _, end } => {
                return Ok(WalkCount {
                    count: count + 1,
                    padding: payload.len() - end,
                });
            }
        }
    }
}

// A TLV that a step goes over, and where it ends.
#[derive(Clone, Copy)]
struct Passed {
    tlv: Tlv,
    next: usize,
}

// What the step at `at` goes over: None where it goes over no TLV.
fn pass(payload: &[u8], at: usize) -> Option<Passed>
    ensures { result ≡ passed_by (step_at payload.now at) }
{
    match step(payload, at) {
        Ok(Stepped::Tlv { tlv, next }) => Some(Passed { tlv, next }),
        Ok(Stepped::Last { tlv, end }) => Some(Passed { tlv, next: end }),
        Ok(Stepped::End) | Err(_) => None,
    }
}

// The offset of TLV number k, from 0, of those that a walk goes over.
fn offset_of(payload: &[u8], k: usize) -> usize
    requires { k < length (walk_of payload.now).items }
    ensures { result ≡ offset_at (walk_of payload.now).items k }
{
    let mut at = 0;
    for _ in 0..k {
        let passed = pass(payload, at).unwrap();
        at = passed.next;
    }
    at
}

// How many TLVs a walk counts that has a TLV list of `room` elements (rule W5).
fn plan(payload: &[u8], room: usize) -> Result<WalkCount, Unwalked>
    ensures { answered_at result ≡ listed room (walk_of payload.now) }
{
    let counted = walk(payload)?;
    if room < counted.count {
        return Err(Unwalked {
            refusal: Refusal::ListTooShort,
            at: offset_of(payload, room),
        });
    }
    Ok(counted)
}

// Counts the TLVs of a payload and lists them (rule W5). Nothing is filled in before the whole payload has been walked,
// so that a refusal changes nothing in the list (rule A3).
pub fn walk_into(list: &mut [Tlv], payload: &[u8]) -> Result<WalkCount, Unwalked>
    ensures { (answered_at result ≡ listed (length list.old) (walk_of payload.now))
        × (list.new ≡ filled (listed (length list.old) (walk_of payload.now)) (walk_of payload.now).items list.old) }
{
    let planned = plan(payload, list.len())?;
    let mut at = 0;
    for element in &mut list[..planned.count] {
        let passed = pass(payload, at).unwrap();
        *element = passed.tlv;
        at = passed.next;
    }
    Ok(planned)
}
