// What a TLV says, by its fields (rule H11): addresses, names of networks and devices, and the figures of links. And the
// words that every line of a story uses: times, addresses and counts.
#![tactic(auto)]

mod listed;
mod neighbours;
mod networks;
mod quoted;
mod texts_said;
mod words;

use answer_lines::Answers;
use kinds::Contents;
use std::fmt::Write;
pub use words::{Address, Counted, Missing, Time, first_address, second_address};

// The value of a TLV, and the kind that its type says.
#[derive(Clone, Copy)]
pub(crate) struct Value<'a> {
    pub code: u8,
    pub bytes: &'a [u8],
}

// An event (rule P6).
fn put_event(text: &mut Answers, value: &[u8]) {
    let station = Address(first_address(value));
    let point = Address(second_address(value));
    let did = if value.get(12) == Some(&0x80) {
        "joined"
    } else {
        "left"
    };
    let _ = write!(text, " station {station} {did} {point}");
}

fn put_byte_count(text: &mut Answers, value: &[u8]) {
    let count = Counted {
        count: value.len() as u64,
        what: "byte",
    };
    let _ = write!(text, " {count}");
}

// A value that reads, if its type is a kind's; a list has so many entries. A type is a byte of the message, and calls ask
// for a kind by it: no enum has them all.
fn put_value(rt: &impl Print, text: &mut Answers, value: Value<'_>, entries: usize) {
    match value.code {
        1 | 2 => {
            let address = Address(first_address(value.bytes));
            let _ = write!(text, " {address}");
        }
        6 | 7 => {
            neighbours::put_local(text, value);
            listed::put_entries(rt, text, value);
        }
        9 | 10 => {
            neighbours::put_between(text, value);
            listed::put_entries(rt, text, value);
        }
        0x83 | 0xB7 if entries == 0 => text.put(b" nothing"),
        0x83 | 0xB7 => listed::put_entries(rt, text, value),
        21 | 22 | 0xD4 => texts_said::put_texts(rt, text, value),
        0x92 => put_event(text, value.bytes),
        _ => put_byte_count(text, value.bytes),
    }
}

// What a TLV says, if its value reads (rule K1).
fn put_read(rt: &impl Print, text: &mut Answers, value: Value<'_>) {
    match kinds::read_kind(value.code, value.bytes) {
        Ok(typed) => {
            let entries = match typed.held {
                Contents::One(_) => 0,
                Contents::List(entries) => entries,
            };
            put_value(rt, text, value, entries);
        }
        Err(refusal) => {
            let number = numbers::number_of(refusal);
            let _ = write!(text, " not readable ({number})");
        }
    }
}

// What a TLV says, after a blank, and the line's end.
pub fn put_said(rt: &impl Print, text: &mut Answers, tlv_type: u8, value: &[u8]) {
    if kinds::is_kind(tlv_type) {
        let value = Value {
            code: tlv_type,
            bytes: value,
        };
        put_read(rt, text, value);
    } else {
        put_byte_count(text, value);
    }
    text.put(b"\n");
}
