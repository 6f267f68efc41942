// The lines of a capture's story (rules H7 to H9): a line for each message and for each one that was lost, and for each
// event of a station what it did. No function here changes a table of the house.
#![tactic(auto)]

mod events;
mod message_names;
mod open;
mod tlv_names;
mod tlvs;

ghost use Rattle.std.specs.Prelude.{◌≡◌, ◌+◌, ◌%◌, ◌^◌, ◌≤◌};

use answer_lines::Answers;
use captures::Frame;
use field_lines::{Address, Counted, Missing, Time};
use message_names::MessageName;
use numbers::Refusal;
use pushing::Pushed;
use records::MacAddr;
use stations::Stations;
use std::fmt;
use std::fmt::Write;
use table::Table;
use tlv_names::put_tlv_name;
use tlvs::{TlvRead, tlvs_of};

// How many messages and losses some lines say (rule H9).
#[derive(Clone, Copy)]
pub struct Said {
    pub messages: u64,
    pub losses: u64,
}

const NOTHING: Said = Said {
    messages: 0,
    losses: 0,
};

const LOSS: Said = Said {
    messages: 0,
    losses: 1,
};

const MESSAGE: Said = Said {
    messages: 1,
    losses: 0,
};

// What was counted of a capture (rule H9).
#[derive(Clone, Copy)]
pub struct Counts {
    pub frames: u64,
    pub others: u64,
    pub messages: u64,
    pub losses: u64,
}

impl Counts {
    // Nothing is counted yet.
    pub fn new() -> Self
        ensures { result ≡ record { frames = 0; others = 0; messages = 0; losses = 0 } }
    {
        Counts {
            frames: 0,
            others: 0,
            messages: 0,
            losses: 0,
        }
    }

    // One more frame, with what the lines of its sweep and of its push say.
    pub fn with_frame(self, swept: Said, said: Said) -> Self
        ensures frames { (result.frames ≡ (self.frames + 1) % 2 ^ 64) × (result.others ≡ self.others) }
        ensures messages { result.messages ≡ (self.messages + said.messages) % 2 ^ 64 }
        ensures losses { result.losses ≡ (self.losses + (swept.losses + said.losses) % 2 ^ 64) % 2 ^ 64 }
    {
        Counts {
            frames: self.frames.wrapping_add(1),
            others: self.others,
            messages: self.messages.wrapping_add(said.messages),
            losses: self
                .losses
                .wrapping_add(swept.losses.wrapping_add(said.losses)),
        }
    }

    // One more frame that is passed over.
    pub fn with_other(self) -> Self
        ensures { result ≡ record { frames = self.frames; others = (self.others + 1) % 2 ^ 64; messages = self.messages; losses = self.losses } }
    {
        Counts {
            frames: self.frames,
            others: self.others.wrapping_add(1),
            messages: self.messages,
            losses: self.losses,
        }
    }
}

// What came of a frame: push's answer to it, the message that this made whole, and the stations as they were before.
#[derive(Clone, Copy)]
pub struct AnsweredFrame<'a> {
    pub frame: Frame,
    pub answer: Result<Pushed, Refusal>,
    pub message: &'a [u8],
    pub seats: Stations,
}

// What the line of a message begins with: when, from whom, which type and which id.
#[derive(Clone, Copy)]
pub(crate) struct Heading {
    pub time: u64,
    pub sender: MacAddr,
    pub message_type: u16,
    pub message_id: u16,
}

impl fmt::Display for Heading {
    fn fmt<W: fmt::Write>(&self, f: &mut fmt::Formatter<W>) -> fmt::Result {
        let time = Time(self.time);
        let sender = Address(self.sender);
        let name = MessageName(self.message_type);
        let id = self.message_id;
        write!(f, "{time} {sender} {name}, id {id}")
    }
}

fn heading_of(frame: Frame) -> Heading {
    Heading {
        time: captures::arrival_of(frame).time,
        sender: frame.sender,
        message_type: frame.cmdu.message_type,
        message_id: frame.cmdu.message_id,
    }
}

// A message that was lost, and why.
fn put_lost(rt: &impl Print, text: &mut Answers, h: Heading, why: &str) -> Said
    ensures { (result.messages ≡ 0) × (result.losses ≡ 1) }
{
    text.with_room(rt);
    let _ = write!(text, "{h}: lost, {why}\n");
    LOSS
}

// Why a fragment was refused. A capture's frame is refused by no other number: enough is lent (rules T4 and T9).
fn reason_of(refusal: Refusal) -> &'static str {
    match refusal {
        Refusal::TableFull => "the table is full (10)",
        Refusal::PayloadTooLong => "its payload is above 1,492 bytes (12)",
        Refusal::SenderFull => "its sender holds its share (20)",
        _ => "there is too little room",
    }
}

fn put_refused(rt: &impl Print, text: &mut Answers, frame: Frame, refusal: Refusal) -> Said
    ensures { (result.messages ≡ 0) × (result.losses ≡ 1) }
{
    let h = heading_of(frame);
    let number = frame.cmdu.fragment;
    let reason = reason_of(refusal);
    text.with_room(rt);
    let _ = write!(text, "{h}: fragment {number} refused, {reason}\n");
    LOSS
}

// A message that is whole, and doesn't walk to its end: a TLV is cut.
fn put_cut(rt: &impl Print, text: &mut Answers, h: Heading, cut: walking::Unwalked) -> Said
    ensures { (result.messages ≡ 0) × (result.losses ≡ 1) }
{
    let at = cut.at;
    let missing = Missing(numbers::carried_by(cut.refusal) as u64);
    text.with_room(rt);
    let _ = write!(text, "{h}: lost, a TLV is cut at {at}, {missing}\n");
    LOSS
}

// The names of a message's TLVs.
fn put_tlvs(rt: &impl Print, text: &mut Answers, message: &[u8]) {
    if message.is_empty() {
        text.put(b"nothing");
    }
    for TlvRead { tlv, value: _ } in tlvs_of(message) {
        text.with_room(rt);
        if 0 < tlv.offset {
            text.put(b", ");
        }
        put_tlv_name(text, tlv.tlv_type);
    }
}

// The line of a message that is whole and walks to its end.
fn put_message(rt: &impl Print, text: &mut Answers, h: Heading, fragments: u64, message: &[u8]) {
    let fragments = Counted {
        count: fragments,
        what: "fragment",
    };
    text.with_room(rt);
    let _ = write!(text, "{h}, {fragments}: ");
    put_tlvs(rt, text, message);
    text.put(b"\n");
}

// A message of so many fragments that is whole: its line, its fields if they are wanted, and what its events do, by the
// stations as they were before it.
fn put_whole(
    rt: &impl Print,
    text: &mut Answers,
    outcome: AnsweredFrame<'_>,
    fragments: u64,
    verbose: bool,
) -> Said
    ensures { result.messages + result.losses ≡ 1 }
{
    let h = heading_of(outcome.frame);
    if let Err(cut) = walking::walk(outcome.message) {
        return put_cut(rt, text, h, cut);
    }
    put_message(rt, text, h, fragments, outcome.message);
    if verbose {
        events::put_fields(rt, text, outcome.message);
    }
    events::put_events(rt, text, outcome.message, outcome.seats);
    MESSAGE
}

// What push answered to a frame (rule H7): at most one message is whole or lost.
pub fn put_answer(
    rt: &impl Print,
    text: &mut Answers,
    outcome: AnsweredFrame<'_>,
    verbose: bool,
) -> Said
    ensures { result.messages + result.losses ≤ 1 }
{
    let h = heading_of(outcome.frame);
    match outcome.answer {
        Ok(Pushed::WaitingForMoreFragments | Pushed::DuplicatedFragment) => NOTHING,
        Ok(Pushed::InconsistentMetadata) => {
            put_lost(rt, text, h, "its fragments differ in version or type")
        }
        Ok(Pushed::MissingFragments) => put_lost(rt, text, h, "fragments are missing"),
        Ok(Pushed::MissingLastFragment) => put_lost(rt, text, h, "its last fragment is missing"),
        Ok(Pushed::Single(_)) => put_whole(rt, text, outcome, 1, verbose),
        // the last fragment of a whole message has the highest number (rule T8)
        Ok(Pushed::Joined(_)) => {
            let fragments = u64::from(outcome.frame.cmdu.fragment) + 1;
            put_whole(rt, text, outcome, fragments, verbose)
        }
        Err(refusal) => put_refused(rt, text, outcome.frame, refusal),
    }
}

// The keys that a sweep at a frame's time drops, by their rows (rule H7), seen in the table before it.
pub fn put_swept(rt: &impl Print, text: &mut Answers, t: &Table, frame: Frame) -> Said
    ensures { result.messages ≡ 0 }
{
    open::put_swept(rt, text, t, captures::arrival_of(frame).time)
}

// The keys that are still open at the end, by their rows (rule H8).
pub fn put_open(rt: &impl Print, text: &mut Answers, t: &Table) -> Said
    ensures { result.messages ≡ 0 }
{
    open::put_open(rt, text, t)
}

// What was counted (rule H9).
pub fn put_counts(rt: &impl Print, text: &mut Answers, n: Counts) {
    let frames = Counted {
        count: n.frames,
        what: "frame",
    };
    let others = Counted {
        count: n.others,
        what: "other",
    };
    let messages = Counted {
        count: n.messages,
        what: "message",
    };
    let losses = n.losses;
    text.with_room(rt);
    let _ = write!(
        text,
        "{frames}, {others} passed over, {messages}, {losses} lost\n"
    );
}

// Where each station is, by its row (rule H9).
pub fn put_stations(rt: &impl Print, text: &mut Answers, held: &Stations) {
    events::put_stations(rt, text, held);
}
