// The commands of the walk: k and g, and L into a list of a stated length.
ghost use Rattle.std.specs.Prelude.{◌≡◌, ◌≤◌, ◌++◌, take, drop};
ghost use Rattle.walking.specs.Walk.{answered_at, walk_of, listed, filled};

use answer_lines::Answers;
use walking::{Tlv, Unwalked, WalkCount};

// The most TLVs that a list has.
const LISTED: usize = 498;

// More TLVs than these are not shown, but summed.
const SHOWN: usize = 16;

// A list of which nothing is filled.
const UNFILLED: [Tlv; LISTED] = [Tlv {
    tlv_type: 0,
    length: 65535,
    offset: usize::MAX,
}; LISTED];

// Walks the payload into the first `room` elements of the list (rule W5).
fn list_tlvs(list: &mut [Tlv; LISTED], room: usize, payload: &[u8]) -> Result<WalkCount, Unwalked>
    requires { room ≤ 498 }
    ensures { (answered_at result ≡ listed room (walk_of payload.now))
        × (list.new ≡ filled (listed room (walk_of payload.now)) (walk_of payload.now).items (take room list.old) ++ drop room list.old) }
{
    walking::walk_into(&mut list[..room], payload)
}

// TLVs of a payload, one after the other, and where the next one stands. If there is none, that is the payload's end,
// after the padding.
#[derive(Clone, Copy)]
struct Part<'a> {
    tlvs: &'a [Tlv],
    end: usize,
}

// The first TLVs of these bytes, as many as the list holds. A list that is too short is refused by 14, with the offset
// of the first TLV that has no element (rule W5).
fn first_part<'a>(list: &'a mut [Tlv; LISTED], bytes: &[u8]) -> Part<'a> {
    let mut end = bytes.len();
    let mut walked = list_tlvs(list, LISTED, bytes);
    if let Err(unwalked) = walked {
        end = unwalked.at;
        walked = list_tlvs(list, LISTED, command_lines::part(bytes, 0, end));
    }
    let count = walked.map_or(0, |walked| walked.count);
    Part {
        tlvs: &list[..count.min(LISTED)],
        end,
    }
}

// Each TLV with type, offset and length.
fn put_tlvs(tlvs: &[Tlv], text: &mut Answers) {
    for t in tlvs {
        text.put_next(t.tlv_type as u64);
        text.put_after(b':', t.offset as u64);
        text.put_after(b':', t.length as u64);
    }
}

// The checksum goes on over the TLVs of a part that starts at `from`.
fn sum_tlvs(sum: u64, tlvs: &[Tlv], from: usize) -> u64 {
    tlvs.iter().fold(sum, |sum, t| {
        let offset = from.wrapping_add(t.offset);
        let typed = answer_lines::sum_byte(sum, t.tlv_type);
        answer_lines::sum_two(answer_lines::sum_four(typed, offset), t.length as usize)
    })
}

// The checksum over all TLVs, which are `count`.
fn sum_all(data: &[u8], count: usize) -> u64 {
    let mut list = UNFILLED;
    let mut sum = answer_lines::NOTHING;
    let mut from: usize = 0;
    for _ in 0..count {
        let part = first_part(&mut list, command_lines::part(data, from, data.len()));
        sum = sum_tlvs(sum, part.tlvs, from);
        from = from.wrapping_add(part.end);
        if part.tlvs.len() < LISTED {
            return sum;
        }
    }
    sum
}

// How many TLVs there are and how long the padding is.
fn put_counts(walked: WalkCount, text: &mut Answers) {
    text.put_ok();
    text.put_next(walked.count as u64);
    text.put_next(walked.padding as u64);
}

// k, g: a payload walked to its message's end (rule W3), counted, and each TLV if there are few, or the checksum over
// many.
pub(crate) fn walk(data: &[u8], text: &mut Answers) -> Result<(), Unwalked> {
    let walked = walking::walk(data)?;
    put_counts(walked, text);
    if walked.count <= SHOWN {
        let mut list = UNFILLED;
        put_tlvs(first_part(&mut list, data).tlvs, text);
    } else {
        text.put_sum(b' ', sum_all(data, walked.count));
    }
    Ok(())
}

// The same from what a list of so many elements holds after the walk; 14 is among the refusals.
fn put_listed(data: &[u8], room: usize, text: &mut Answers) -> Result<(), Unwalked> {
    let mut list = UNFILLED;
    let walked = list_tlvs(&mut list, room.min(LISTED), data)?;
    let tlvs = &list[..walked.count.min(LISTED)];
    put_counts(walked, text);
    if walked.count <= SHOWN {
        put_tlvs(tlvs, text);
    } else {
        text.put_sum(b' ', sum_tlvs(answer_lines::NOTHING, tlvs, 0));
    }
    Ok(())
}

// L: a payload walked into a lent list of ROOM elements (rule W5).
pub(crate) fn walk_into(data: &[u8], room: u64, text: &mut Answers) -> Result<(), Unwalked> {
    match room {
        0..=40 | 496..=498 => put_listed(data, room as usize, text)?,
        _ => text.put(b"skip"),
    }
    Ok(())
}
