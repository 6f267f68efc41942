// What the calls about TLVs, kinds and fragments answer, as it crosses to C (rule C1): plain structs, in the numbers of
// part N. `refusal` is 0 where nothing is refused.
#![tactic(auto)]

ghost use Rattle.std.specs.Prelude.{◌≡◌, ◌∷◌, Err};
ghost use Rattle.numbers.specs.Numbers.{refuses, told, number, values, answered};
ghost use Rattle.walking.specs.Walk.{answered_at, stepped_of};
ghost use Rattle.pushing.specs.Push.{pushed_of};
ghost use Rattle.walking.specs.Walk.{payload_answered};
ghost use Rattle.c_answers.specs.Numbers.{header_numbers_lem, walk_numbers_lem, tlv_at_lem, step_numbers_lem, kind_numbers_lem, found_numbers_lem, part_numbers_lem, named_as, push_numbers_lem, within_of, shown_in_lem, check_numbers_lem, cut_numbers_lem};

use framing::CmduHeader;
use kinds::{Contents, Typed};
use layouts::Span;
use numbers::{Refusal, carried_by, number_of};
use pushing::Pushed;
use walking::{PayloadError, Stepped, Tlv, Unwalked, WalkCount};

// The header of a CMDU (rule B6). Its fields stand in their order, after the shortfall: how many bytes are missing
// where it is refused. `last` is bit 7 of `flags`.
#[repr(C)]
#[derive(Clone, Copy)]
pub struct AshlarHeader {
    pub shortfall: usize,
    pub version: u8,
    pub reserved: u8,
    pub message_type: u16,
    pub message_id: u16,
    pub number: u8,
    pub flags: u8,
    pub last: bool,
    pub refusal: u8,
}

// How many TLVs a payload has, and how many bytes of padding follow them (rule W3). Where the walk refuses, the offset
// of the TLV, and how many bytes are missing (rule W4).
#[repr(C)]
#[derive(Clone, Copy)]
pub struct AshlarWalk {
    pub count: usize,
    pub padding: usize,
    pub at: usize,
    pub shortfall: usize,
    pub refusal: u8,
}

// What a step of the walk finds (rule W6): 1 the payload's end, 2 a TLV and where the next one starts, 3 the end marker
// and where the padding starts; 0 where it is refused. Then the TLV's offset is where it stands, and so many bytes are
// missing.
#[repr(C)]
#[derive(Clone, Copy)]
pub struct AshlarStep {
    pub tlv: Tlv,
    pub next: usize,
    pub shortfall: usize,
    pub answer: u8,
    pub refusal: u8,
}

// How many entries the value's own list has, if its kind is a list kind or holds text (rule K1); the radios are the
// list of such a value. A record is the first `consumed` bytes of its value.
#[repr(C)]
#[derive(Clone, Copy)]
pub struct AshlarKind {
    pub entries: usize,
    pub consumed: usize,
    pub rest: usize,
    pub is_list: bool,
    pub refusal: u8,
}

// How many records were looked at (rule F1): the place of the one that was found, counted from 1, or the list's length
// for 15. What its value reads as is for `ashlar_read_kind` to say, so that this answer fits two registers.
#[repr(C)]
#[derive(Clone, Copy)]
pub struct AshlarFound {
    pub looked: usize,
    pub refusal: u8,
}

// Where a part of a value lies, a text or a radio (rules E7 and E8): `length` bytes from `start` on.
#[repr(C)]
#[derive(Clone, Copy)]
pub struct AshlarPart {
    pub start: usize,
    pub length: usize,
    pub refusal: u8,
}

// What push answers (rules T4 to T9): 1 waiting, 2 duplicated, 3 inconsistent, 4 missing, 5 missing its last, 6 a
// message that is the payload itself, 7 a message in the output; 0 where it is refused. `length` is the message's, or
// the one that refusal 13 carries.
#[repr(C)]
#[derive(Clone, Copy)]
pub struct AshlarPushed {
    pub length: usize,
    pub answer: u8,
    pub refusal: u8,
}

// Where a message lies (rule T10): in the output, or in the payload that was pushed. It is the first `length` bytes.
#[repr(C)]
#[derive(Clone, Copy)]
pub struct AshlarShown {
    pub length: usize,
    pub in_output: bool,
}

// Whether fragments are a cutting of a message (rule M4). Where the message is refused they aren't, and the offset and
// the shortfall are the walk's.
#[repr(C)]
#[derive(Clone, Copy)]
pub struct AshlarChecked {
    pub at: usize,
    pub shortfall: usize,
    pub accepted: bool,
    pub refusal: u8,
}

// Into how many fragments a message is cut (rule M5). Where the walk refuses the message, the offset and the shortfall
// are the walk's.
#[repr(C)]
#[derive(Clone, Copy)]
pub struct AshlarCutting {
    pub count: usize,
    pub at: usize,
    pub shortfall: usize,
    pub refusal: u8,
}

// A CMDU header.
pub fn header_numbers(read: Result<CmduHeader, Refusal>) -> AshlarHeader
    ensures { result ≡ header_numbers_lem (answered read) }
{
    match read {
        Ok(h) => AshlarHeader {
            shortfall: 0,
            version: h.message_version,
            reserved: h.reserved,
            message_type: h.message_type,
            message_id: h.message_id,
            number: h.fragment,
            flags: h.flags,
            last: h.last_fragment,
            refusal: 0,
        },
        Err(short) => AshlarHeader {
            shortfall: carried_by(short),
            version: 0,
            reserved: 0,
            message_type: 0,
            message_id: 0,
            number: 0,
            flags: 0,
            last: false,
            refusal: number_of(short),
        },
    }
}

// Why a walk stopped, with the offset of a TLV (rule N3).
fn unwalked(stopped: Unwalked) -> AshlarWalk
    ensures { result ≡ walk_numbers_lem (answered_at (Err stopped)) }
{
    AshlarWalk {
        count: 0,
        padding: 0,
        at: stopped.at,
        shortfall: carried_by(stopped.refusal),
        refusal: number_of(stopped.refusal),
    }
}

// What a walk found, counted or listed.
pub fn walk_numbers(walked: Result<WalkCount, Unwalked>) -> AshlarWalk
    ensures { result ≡ walk_numbers_lem (answered_at walked) }
{
    match walked {
        Ok(found) => AshlarWalk {
            count: found.count,
            padding: found.padding,
            at: 0,
            shortfall: 0,
            refusal: 0,
        },
        Err(stopped) => unwalked(stopped),
    }
}

// An offset without a TLV.
fn tlv_at(offset: usize) -> Tlv
    ensures { result ≡ tlv_at_lem offset }
{
    Tlv {
        tlv_type: 0,
        length: 0,
        offset,
    }
}

// What a step of the walk finds. What a walk refuses, its step does.
pub fn step_numbers(stepped: Result<Stepped, Unwalked>) -> AshlarStep
    ensures { result ≡ step_numbers_lem (stepped_of stepped) }
{
    match stepped {
        Ok(Stepped::End) => AshlarStep {
            tlv: tlv_at(0),
            next: 0,
            shortfall: 0,
            answer: 1,
            refusal: 0,
        },
        Ok(Stepped::Tlv { tlv, next }) => AshlarStep {
            tlv,
            next,
            shortfall: 0,
            answer: 2,
            refusal: 0,
        },
        Ok(Stepped::Last { tlv, end }) => AshlarStep {
            tlv,
            next: end,
            shortfall: 0,
            answer: 3,
            refusal: 0,
        },
        Err(stopped) => {
            let walk = unwalked(stopped);
            AshlarStep {
                tlv: tlv_at(walk.at),
                next: 0,
                shortfall: walk.shortfall,
                answer: 0,
                refusal: walk.refusal,
            }
        }
    }
}

// A typed value, measured alone: its record doesn't cross to C.
pub fn kind_numbers(size: Result<Typed<()>, Refusal>) -> AshlarKind
    ensures { result ≡ kind_numbers_lem (answered size) }
{
    match size {
        Ok(typed) => {
            let (entries, is_list) = match typed.held {
                Contents::One(()) => (0, false),
                Contents::List(entries) => (entries, true),
            };
            AshlarKind {
                entries,
                consumed: typed.consumed,
                rest: typed.rest,
                is_list,
                refusal: 0,
            }
        }
        Err(refusal) => AshlarKind {
            entries: 0,
            consumed: 0,
            rest: 0,
            is_list: false,
            refusal: number_of(refusal),
        },
    }
}

// A record that was looked for.
pub fn found_numbers(placed: Result<usize, Refusal>) -> AshlarFound
    ensures { result ≡ found_numbers_lem (answered placed) }
{
    match placed {
        Ok(looked) => AshlarFound { looked, refusal: 0 },
        Err(refusal) => AshlarFound {
            looked: carried_by(refusal),
            refusal: number_of(refusal),
        },
    }
}

// A part of a value. One that ended before it starts would have no byte: no call gives such a part.
pub fn part_numbers(located: Result<Span, Refusal>) -> AshlarPart
    ensures { result ≡ part_numbers_lem (answered located) }
{
    match located {
        Ok(span) => AshlarPart {
            start: span.start,
            length: span.end.saturating_sub(span.start),
            refusal: 0,
        },
        Err(refusal) => AshlarPart {
            start: 0,
            length: 0,
            refusal: number_of(refusal),
        },
    }
}

// An answer of push that is no refusal.
fn named(answer: u8, length: usize) -> AshlarPushed
    ensures { result ≡ named_as answer «length» }
{
    AshlarPushed {
        length,
        answer,
        refusal: 0,
    }
}

// What push answers.
pub fn push_numbers(pushed: Result<Pushed, Refusal>) -> AshlarPushed
    ensures { result ≡ push_numbers_lem (pushed_of pushed) }
{
    match pushed {
        Ok(Pushed::WaitingForMoreFragments) => named(1, 0),
        Ok(Pushed::DuplicatedFragment) => named(2, 0),
        Ok(Pushed::InconsistentMetadata) => named(3, 0),
        Ok(Pushed::MissingFragments) => named(4, 0),
        Ok(Pushed::MissingLastFragment) => named(5, 0),
        Ok(Pushed::Single(length)) => named(6, length),
        Ok(Pushed::Joined(length)) => named(7, length),
        Err(refusal) => AshlarPushed {
            length: carried_by(refusal),
            answer: 0,
            refusal: number_of(refusal),
        },
    }
}

// n, if a slice of `room` bytes has that many; otherwise 0.
fn within(n: usize, room: usize) -> usize
    ensures { result ≡ within_of n room }
{
    if n <= room { n } else { 0 }
}

// Where the message of an answer lies (rule T10), in one of the two slices that push was lent, whose sizes these are.
#[tactic(auto, unfolding(crate::specs::Numbers::shown_in_lem))]
pub fn shown_in(pushed: AshlarPushed, payload_size: usize, out_size: usize) -> AshlarShown
    ensures { result ≡ shown_in_lem pushed payload_size out_size }
{
    match pushed.answer {
        7 => AshlarShown {
            length: within(pushed.length, out_size),
            in_output: true,
        },
        6 => AshlarShown {
            length: within(pushed.length, payload_size),
            in_output: false,
        },
        _ => AshlarShown {
            length: 0,
            in_output: false,
        },
    }
}

// Why a message is not cut, in a walk's numbers. What a refusal without an offset carried would cross as the offset: no
// call gives one that carries anything.
#[tactic(auto, using(crate::proofs::OneValue::one_value))]
fn stopped_by(error: PayloadError) -> AshlarWalk
    ensures { result ≡ walk_numbers_lem (payload_answered (Err error)) }
{
    match error {
        PayloadError::Unwalked(stopped) => unwalked(stopped),
        PayloadError::Refused(refusal) => AshlarWalk {
            count: 0,
            padding: 0,
            at: carried_by(refusal),
            shortfall: 0,
            refusal: number_of(refusal),
        },
    }
}

// Whether fragments are a cutting of a message. What a walk over the message refuses, the checker does.
pub fn check_numbers(checked: Result<bool, PayloadError>) -> AshlarChecked
    ensures { result ≡ check_numbers_lem (payload_answered checked) }
{
    match checked {
        Ok(accepted) => AshlarChecked {
            at: 0,
            shortfall: 0,
            accepted,
            refusal: 0,
        },
        Err(error) => {
            let walk = stopped_by(error);
            AshlarChecked {
                at: walk.at,
                shortfall: walk.shortfall,
                accepted: false,
                refusal: walk.refusal,
            }
        }
    }
}

// Into how many fragments a message is cut. What a walk over the message refuses, the cutter does.
pub fn cut_numbers(cutting: Result<usize, PayloadError>) -> AshlarCutting
    ensures { result ≡ cut_numbers_lem (payload_answered cutting) }
{
    match cutting {
        Ok(count) => AshlarCutting {
            count,
            at: 0,
            shortfall: 0,
            refusal: 0,
        },
        Err(error) => {
            let walk = stopped_by(error);
            AshlarCutting {
                count: 0,
                at: walk.at,
                shortfall: walk.shortfall,
                refusal: walk.refusal,
            }
        }
    }
}
