// The commands of finding in a payload (rules F4 and F5): d and D.
use answer_lines::{Answers, Tally};
use finding::{Hit, Sought};
use numbers::Refusal;
use walking::PayloadError;

// No payload has as many TLVs.
const TURNS: usize = 30000;

// The consumed bytes of a found value.
fn value_of(hit: Hit, payload: &[u8]) -> &[u8] {
    let start = hit.tlv.offset.wrapping_add(3);
    command_lines::part(payload, start, start.wrapping_add(hit.reading.consumed))
}

// The place from 0, and how many were looked at.
pub(crate) fn put_hit(hit: Hit, payload: &[u8], text: &mut Answers) {
    text.put_ok();
    text.put_next(hit.looked.wrapping_sub(1) as u64);
    text.put_next(hit.looked as u64);
    text.put_shown(b' ', value_of(hit, payload));
}

// d: the first readable one. An unknown kind comes before a walk's refusal (rule F4).
pub(crate) fn first(payload: &[u8], code: u8, text: &mut Answers) -> Result<(), PayloadError> {
    let sought = finding::find_in_payload(payload, code, 0)?;
    put_hit(sought.hit, payload, text);
    Ok(())
}

// The first of them and all after it, each looked for from where the one before ends (rule F5).
fn all_hits(payload: &[u8], code: u8, first: Sought) -> Tally {
    let mut all = Tally::new();
    let mut sought = first;
    for _ in 0..TURNS {
        all = all.with_part(value_of(sought.hit, payload));
        match finding::find_onward(payload, code, sought.next, sought.hit.looked) {
            Ok(onward) => sought = onward,
            Err(_) => return all,
        }
    }
    all
}

// D: every readable one. Where nothing is found, the search is not refused.
pub(crate) fn every(payload: &[u8], code: u8, text: &mut Answers) -> Result<(), PayloadError> {
    let all = match finding::find_in_payload(payload, code, 0) {
        Ok(first) => all_hits(payload, code, first),
        Err(PayloadError::Refused(Refusal::NotFound(_))) => Tally::new(),
        Err(error) => return Err(error),
    };
    text.put_tally(all);
    Ok(())
}
