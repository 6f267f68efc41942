// Filling fragments as far as whole TLVs go (rule M5).
ghost use Rattle.std.specs.Prelude.{◌≡◌, ◌<◌, ◌≤◌, IfOk, IfSome};
ghost use Rattle.numbers.specs.Numbers.{answered};
ghost use Rattle.cutting.specs.Cuts.{most_fragments};
ghost use Rattle.cutting.specs.Greedy.{cut_into};
ghost use Rattle.cutting.specs.PrivateFilling.{with_tlv_lem, ends_with, answer_for_lem, planned_of};

use numbers::Refusal;
use walking::{PayloadError, Stepped};

// Rule M3: the longest payload of a fragment, and the most fragments of a message.
pub(crate) const LONGEST_PAYLOAD: usize = 1492;

pub(crate) const MOST_FRAGMENTS: usize = 9;

// The open fragment: how many bytes it holds, and how many fragments stand before it.
#[derive(Clone, Copy)]
pub(crate) struct Open {
    used: usize,
    before: usize,
}

// The open fragment after one more TLV, of this size: with it, or the next one, which it begins. There is none any more
// once no fragment holds a TLV.
#[tactic(auto, unfolding(crate::specs::PrivateFilling::with_tlv_lem))]
fn with_tlv(current: Option<Open>, size: usize) -> Option<Open>
    ensures { result ≡ with_tlv_lem current size }
{
    let open = current?;
    let used = open.used;
    let before = open.before;
    if LONGEST_PAYLOAD < size {
        return None;
    }
    if used <= LONGEST_PAYLOAD - size {
        return Some(Open {
            used: used + size,
            before,
        });
    }
    if before < MOST_FRAGMENTS - 1 {
        return Some(Open {
            used: size,
            before: before + 1,
        });
    }
    None
}

// Notes where the open fragment ends so far.
fn put_end(ends: &mut [usize; MOST_FRAGMENTS], current: Option<Open>, end: usize)
    requires { IfSome current (λ o. o.before < 9) }
    ensures { ends.new ≡ ends_with current end ends.old }
{
    if let Some(open) = current {
        ends[open.before] = end;
    }
}

// How many fragments there are once all TLVs are in, for a list of `room` places.
#[tactic(auto, unfolding(crate::specs::PrivateFilling::answer_for_lem))]
fn answer_for(current: Option<Open>, padding: usize, room: usize) -> Result<usize, Refusal>
    ensures { answered result ≡ answer_for_lem current padding room }
{
    if padding != 0 {
        return Err(Refusal::LeftOver);
    }
    match current {
        None => Err(Refusal::NoCutting),
        Some(open) => {
            if room <= open.before {
                return Err(Refusal::NoRoom);
            }
            Ok(open.before + 1)
        }
    }
}

// The ends that were found, and how many of them go into the list.
#[derive(Clone, Copy)]
pub(crate) struct Planned {
    pub(crate) count: usize,
    pub(crate) ends: [usize; MOST_FRAGMENTS],
}

// Walks the message once. At every step `ends` has the ends of the fragments that are full, and then where the open one
// ends so far.
pub(crate) fn plan(message: &[u8], room: usize) -> Result<Planned, PayloadError>
    ensures ends { planned_of result ≡ cut_into message.now room }
    ensures few { IfOk result (λ p. (p.count ≤ most_fragments) × (p.count ≤ room)) }
{
    let mut ends = [0; MOST_FRAGMENTS];
    let mut current = Some(Open { used: 0, before: 0 });
    let mut at = 0;
    loop {
        let found = walking::step(message, at)?;
        match found {
            Stepped::End => {
                let count = answer_for(current, 0, room)?;
                return Ok(Planned { count, ends });
            }
            Stepped::Tlv { tlv: _, next } => {
                current = with_tlv(current, next - at);
                put_end(&mut ends, current, next);
                at = next;
            }
            Stepped::Last { tlv: _, end } => {
                current = with_tlv(current, end - at);
                put_end(&mut ends, current, end);
                let count = answer_for(current, message.len() - end, room)?;
                return Ok(Planned { count, ends });
            }
        }
    }
}
