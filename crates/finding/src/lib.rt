// Finding (rules F1 to F5): the first readable record of a kind, in a lent list of TLV records or in a payload.
#![tactic(auto)]

ghost use Rattle.std.specs.Prelude.{◌≡◌, cond, false, ltb, ℕ, ◌+◌, ◌≤◌, length};
ghost use Rattle.numbers.specs.Numbers.{told, answered, mapped};
ghost use Rattle.walking.specs.Walk.{walk_on};
ghost use Rattle.finding.specs.Finding.{is_candidate_lem, value_of, reads_as_lem, is_there_lem, find_from, find_in_payload_lem, find_onward_lem};
ghost use Rattle.walking.specs.Walk.{payload_answered};
ghost use Rattle.finding.specs.Private.{none_of_lem, looked_as, spot_as, sought_in};

use kinds::Typed;
use numbers::Refusal;
use records::Record;
use walking::{PayloadError, Stepped, Tlv};

// How many records were looked at, the one that was found included: that is its place in the list counted from 1, and
// where a search for the next one starts. Then the record, and what its value reads as (rule F1).
#[derive(Clone, Copy)]
pub struct Hit {
    pub looked: usize,
    pub tlv: Tlv,
    pub reading: Typed<Record>,
}

// The same for a payload's TLVs (rules F4 and F5). `next` is the offset of the TLV after the one that was found, or the
// payload's end after a marker.
#[derive(Clone, Copy)]
pub struct Sought {
    pub hit: Hit,
    pub next: usize,
}

// A readable TLV of the kind that a search through a payload came to: how many TLVs were looked at, it included, and
// where the next one starts.
#[derive(Clone, Copy)]
pub(crate) struct Spot {
    pub looked: usize,
    pub tlv: Tlv,
    pub next: usize,
}

// Has the record the code, and does it lie inside a payload of this size (rule F2)? Its type is looked at first and its
// offset last, so that a record of another kind costs no more than its type: the compiler makes one test of the type's
// and the offset's where little stands between them. No sum can wrap: what is left of the payload is compared, never an
// end that the record claims.
fn is_candidate(t: Tlv, size: usize, code: u8) -> bool
    ensures { result ≡ is_candidate_lem code size t }
{
    let tlv_type = t.tlv_type;
    if tlv_type != code {
        return false;
    }
    let length = t.length as usize;
    if size < length + 3 {
        return false;
    }
    t.offset <= size - length - 3
}

// The value of a record inside the payload, from its offset plus 3 on. The header is not looked at again (rule F2).
fn value_in(t: Tlv, payload: &[u8]) -> &[u8]
    requires { t.offset + 3 + t.length ≤ length payload.now }
    ensures { result.now ≡ value_of payload.now t }
{
    let start = t.offset + 3;
    let end = start + t.length as usize;
    &payload[start..end]
}

// Is the record a readable one of the kind? Its value is only measured here: what it reads as is asked for the record
// that is found, and for no other.
fn reads(t: Tlv, payload: &[u8], code: u8) -> bool
    ensures { result ≡ is_there_lem (reads_as_lem code payload.now t) }
{
    if !is_candidate(t, payload.len(), code) {
        return false;
    }
    kinds::measure(code, value_in(t, payload)).is_ok()
}

// What is refused where nothing was found among so many records: 15, or 16 for a code that no kind has.
fn nothing(code: u8, size: usize) -> Refusal
    ensures { told {A = ℕ} result ≡ none_of_lem code size }
{
    if kinds::is_kind(code) {
        return Refusal::NotFound(size);
    }
    Refusal::UnknownKind
}

// The first record of the kind that reads, after the first `from` records of the list (rule F3): its place, counted
// from 1. From 0 it is the first of all, and from the number that an answer gave the next one. Nothing in the list has
// to fit the payload.
pub fn find_place(list: &[Tlv], payload: &[u8], code: u8, from: usize) -> Result<usize, Refusal>
    ensures { answered result ≡ mapped (λ h. h.looked) (find_from code list.now payload.now from) }
{
    for place in from..list.len() {
        if reads(list[place], payload, code) {
            return Ok(place + 1);
        }
    }
    Err(nothing(code, list.len()))
}

// What this record reads as, if it is a readable one of the kind; it is the last of those that were looked at.
fn look(t: Tlv, payload: &[u8], code: u8, looked: usize) -> Result<Hit, Refusal>
    ensures { answered result ≡ looked_as (reads_as_lem code payload.now t) looked t }
{
    if !is_candidate(t, payload.len(), code) {
        return Err(Refusal::NotFound(looked));
    }
    match kinds::read_kind(code, value_in(t, payload)) {
        Ok(reading) => Ok(Hit {
            looked,
            tlv: t,
            reading,
        }),
        Err(_) => Err(Refusal::NotFound(looked)),
    }
}

// The same with the record that was found, and what its value reads as.
pub fn find(list: &[Tlv], payload: &[u8], code: u8, from: usize) -> Result<Hit, Refusal>
    ensures { answered result ≡ find_from code list.now payload.now from }
{
    let looked = find_place(list, payload, code, from)?;
    look(list[looked - 1], payload, code, looked)
}

// Is the TLV a readable one of the kind, at the place `from` or after it?
fn is_sought(t: Tlv, payload: &[u8], code: u8, place: usize, from: usize) -> bool
    ensures { result ≡ cond (ltb place from) false (is_there_lem (reads_as_lem code payload.now t)) }
{
    from <= place && reads(t, payload, code)
}

// The first readable TLV of the kind among those that a walk goes over from an offset on, in front of which stand as
// many TLVs as `before` says; those before the place `from` are passed over. The marker is looked at like any other,
// and nothing after it (rule F4).
fn search(
    payload: &[u8],
    code: u8,
    offset: usize,
    before: usize,
    from: usize,
) -> Result<Spot, PayloadError>
    requires { before ≤ offset }
    ensures { spot_as code payload.now result ≡ sought_in code payload.now from before (walk_on payload.now offset) }
{
    let mut at = offset;
    let mut looked = before;
    // No range counts the turns: a step of the walk says where the next one starts, and when to stop.
    loop {
        match walking::step(payload, at)? {
            Stepped::End => {
                return Err(PayloadError::Refused(Refusal::NotFound(looked)));
            }
            Stepped::Tlv { tlv, next } => {
                let sought = is_sought(tlv, payload, code, looked, from);
                looked += 1;
                if sought {
                    return Ok(Spot { looked, tlv, next });
                }
                at = next;
            }
            Stepped::Last { tlv, end: _ } => {
                let sought = is_sought(tlv, payload, code, looked, from);
                looked += 1;
                if sought {
                    let next = payload.len();
                    return Ok(Spot { looked, tlv, next });
                }
                return Err(PayloadError::Refused(Refusal::NotFound(looked)));
            }
        }
    }
}

// What such a search answers.
fn search_on(
    payload: &[u8],
    code: u8,
    offset: usize,
    before: usize,
    from: usize,
) -> Result<Sought, PayloadError>
    requires { before ≤ offset }
    ensures { payload_answered result ≡ sought_in code payload.now from before (walk_on payload.now offset) }
{
    let spot = search(payload, code, offset, before, from)?;
    let hit = look(spot.tlv, payload, code, spot.looked)?;
    Ok(Sought {
        hit,
        next: spot.next,
    })
}

// The same without a list (rule F4): the first readable TLV of the kind in a payload, after its first `from` TLVs. The
// whole payload is walked first.
pub fn find_in_payload(payload: &[u8], code: u8, from: usize) -> Result<Sought, PayloadError>
    ensures { payload_answered result ≡ find_in_payload_lem code payload.now from }
{
    if !kinds::is_kind(code) {
        return Err(PayloadError::Refused(Refusal::UnknownKind));
    }
    match walking::walk(payload) {
        Ok(_) => search_on(payload, code, 0, 0, from),
        Err(stopped) => Err(PayloadError::Unwalked(stopped)),
    }
}

// Goes on from an answer, by its `next` and its `looked` (rule F5): the next readable TLV of the kind. It steps on from
// that offset, so that finding all TLVs of a kind costs one walk and one look at each. A caller may name any numbers.
// No more TLVs than bytes stand in front of an offset, so a greater number counts as the offset, and none is too great
// to count on from.
pub fn find_onward(
    payload: &[u8],
    code: u8,
    offset: usize,
    looked: usize,
) -> Result<Sought, PayloadError>
    ensures { payload_answered result ≡ find_onward_lem code payload.now offset looked }
{
    if !kinds::is_kind(code) {
        return Err(PayloadError::Refused(Refusal::UnknownKind));
    }
    search_on(payload, code, offset, looked.min(offset), 0)
}
