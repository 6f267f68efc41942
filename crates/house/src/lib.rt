// The house (rules H1 to H4): what one record of a capture does to a fragment table with its store and to a station
// table.
#![tactic(auto)]

ghost use Rattle.std.specs.Prelude.{◌≡◌, [], ◌∷◌, ◌+◌, ◌≤◌, ◌<◌, length};
ghost use Rattle.numbers.specs.Numbers.{is_given};
ghost use Rattle.machines.specs.Machine.{run};
ghost use Rattle.walking.specs.Walk.{walk_of};
ghost use Rattle.stations.specs.Events.{table_from};
ghost use Rattle.pushing.specs.Push.{pushed_of, answer_by, output_by};
ghost use Rattle.pushing.specs.Made.{Made};
ghost use Rattle.captures.specs.Reading.{reached_of, file_step};
ghost use Rattle.house.specs.House.{house_of, frame_in_lem, event_values, after_message, way_in, after_arrival, brought_by, after_brought, answer_to_brought, output_after};

use captures::{Frame, Reached};
use numbers::Refusal;
use pushing::{Arrival, Pushed};
use stations::Stations;
use table::Table;
use walking::{Stepped, Tlv};

// The TLV type of an event (rule P6).
const EVENT: u8 = 0x92;

// What the step over a record of a capture went over, or why it was refused, and what push answered.
#[derive(Clone, Copy)]
pub struct AfterRecord {
    pub reached: Result<Reached, Refusal>,
    pub answer: Result<Pushed, Refusal>,
}

// A TLV of a message, which ends at `next`: an event is taken, any other one left. An event that is refused changes
// nothing.
fn take_tlv(held: &mut Stations, message: &[u8], tlv: Tlv, next: usize)
    requires { (next ≡ tlv.offset + 3 + tlv.length) × (next ≤ length message.now) }
    ensures { held.new ≡ run table_from held.old (event_values message.now (tlv ∷ [])) }
{
    if tlv.tlv_type == EVENT {
        let value = tlv.offset + 3;
        let _ = stations::event_from(held, &message[value..next]);
    }
}

// The events of a message that walks to its end, one after the other.
fn take_events(held: &mut Stations, message: &[u8])
    ensures { held.new ≡ run table_from held.old (event_values message.now (walk_of message.now).items) }
{
    let mut at = 0;
    while let Ok(stepped) = walking::step(message, at) {
        let Stepped::Tlv { tlv, next } = stepped else {
            return;
        };
        take_tlv(held, message, tlv, next);
        at = next;
    }
}

// Rule H3: the events of a message, if it walks to its end.
fn take_message(held: &mut Stations, message: &[u8])
    ensures { held.new ≡ after_message held.old message.now }
{
    if walking::walk(message).is_ok() {
        take_events(held, message);
    }
}

// Rules H2 and H3: a fragment comes in.
fn take_fragment(
    t: &mut Table,
    store: &mut [u8],
    out: &mut [u8],
    held: &mut Stations,
    a: Arrival,
    payload: &[u8],
) -> Result<Pushed, Refusal>
    requires { Made t.old × (a.fragment.number < 256) }
    ensures house { house_of t.new store.new held.new ≡ after_arrival (length out.old) (house_of t.old store.old held.old) (record { arrival = a; payload = payload.now }) }
    ensures pushed { (pushed_of result ≡ answer_by (way_in (length out.old) (house_of t.old store.old held.old) (record { arrival = a; payload = payload.now })))
        × (out.new ≡ output_by (way_in (length out.old) (house_of t.old store.old held.old) (record { arrival = a; payload = payload.now })) out.old) }
    ensures made { Made t.new }
{
    reassembler::sweep(t, a.time);
    let answer = reassembler::push(t, store, out, a, payload);
    take_message(held, reassembler::show(answer, payload, out));
    answer
}

// The 1905 frame that a step went over, if it did.
fn frame_in(reached: Result<Reached, Refusal>) -> Option<Frame>
    ensures { result ≡ frame_in_lem reached }
{
    match reached {
        Ok(Reached::Ours { frame, next: _ }) => Some(frame),
        _ => None,
    }
}

// Rule H4: the record at the offset `at` of a capture. A 1905 frame is a fragment that comes in, at its time; a frame
// that is passed over does nothing. The store and the output are lent at any length: a struct of all that is lent here
// would be made anew for each call.
pub fn hear(
    t: &mut Table,
    store: &mut [u8],
    out: &mut [u8],
    held: &mut Stations,
    file: &[u8],
    at: usize,
) -> AfterRecord
    requires { Made t.old }
    ensures reached { reached_of result.reached ≡ file_step file.now at }
    ensures house { house_of t.new store.new held.new ≡ after_brought (length out.old) (house_of t.old store.old held.old) (brought_by file.now (file_step file.now at)) }
    ensures pushed { (pushed_of result.answer ≡ answer_to_brought (length out.old) (house_of t.old store.old held.old) (brought_by file.now (file_step file.now at)))
        × (out.new ≡ output_after (length out.old) (house_of t.old store.old held.old) (brought_by file.now (file_step file.now at)) out.old) }
    ensures made { Made t.new }
{
    let reached = captures::step(file, at);
    if let Some(frame) = frame_in(reached) {
        let a = captures::arrival_of(frame);
        let answer = take_fragment(t, store, out, held, a, captures::payload(file, frame));
        return AfterRecord { reached, answer };
    }
    AfterRecord {
        reached,
        answer: Ok(Pushed::WaitingForMoreFragments),
    }
}
