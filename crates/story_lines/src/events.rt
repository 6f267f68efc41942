// What the events of a message do (rule H7), and where each station is (rule H9).
use crate::tlv_names::put_tlv_name;
use crate::tlvs::{TlvRead, tlvs_of};
use answer_lines::Answers;
use field_lines::Address;
use numbers::Refusal;
use records::MacAddr;
use stations::{Heard, STATIONS, Stations, Taken};
use std::fmt;
use std::fmt::Write;

// The TLV type of an event (rule P6).
const EVENT: u8 = 0x92;

// What an accepted event did at an access point, and where its station then is.
#[derive(Clone, Copy)]
struct Done {
    heard: Heard,
    point: Address,
    seat: Option<MacAddr>,
}

impl fmt::Display for Done {
    fn fmt<W: fmt::Write>(&self, f: &mut fmt::Formatter<W>) -> fmt::Result {
        let point = self.point;
        match self.heard {
            Heard::New => write!(f, "placed at {point}"),
            Heard::Moved { from } => {
                let from = Address(from);
                write!(f, "moved from {from} to {point}")
            }
            Heard::There => write!(f, "at {point} already"),
            Heard::Removed => write!(f, "removed from {point}"),
            Heard::Stale => match self.seat {
                Some(seat) => {
                    let seat = Address(seat);
                    write!(f, "stale leave from {point}, it is at {seat}")
                }
                None => write!(f, "stale leave from {point}"),
            },
        }
    }
}

// An event with this value, what was answered to it, and where its station then is. It is refused if the stations are as
// many as are held (rule P4), or if its value doesn't read (rule P6).
#[derive(Clone, Copy)]
struct Event<'a> {
    value: &'a [u8],
    answer: Result<Taken, Refusal>,
    seat: Option<MacAddr>,
}

impl fmt::Display for Event<'_> {
    fn fmt<W: fmt::Write>(&self, f: &mut fmt::Formatter<W>) -> fmt::Result {
        let station = Address(field_lines::first_address(self.value));
        let point = Address(field_lines::second_address(self.value));
        match self.answer {
            Ok(taken) => {
                let done = Done {
                    heard: taken.heard,
                    point,
                    seat: self.seat,
                };
                write!(f, "station {station} {done}")
            }
            Err(Refusal::NoStationRoom) => {
                write!(
                    f,
                    "station {station} refused at {point}: 128 stations are held (17)"
                )
            }
            Err(refusal) => {
                let number = numbers::number_of(refusal);
                write!(f, "an event that is not readable ({number})")
            }
        }
    }
}

// What the events of a message do, by stations that take them as the house's own did.
pub(crate) fn put_events(rt: &impl Print, text: &mut Answers, message: &[u8], seats: Stations) {
    let mut held = seats;
    for TlvRead { tlv, value } in tlvs_of(message) {
        if tlv.tlv_type == EVENT {
            let answer = stations::event_from(&mut held, value);
            let seat = stations::where_is(&held, field_lines::first_address(value));
            let event = Event {
                value,
                answer,
                seat,
            };
            text.with_room(rt);
            let _ = write!(text, "  {event}\n");
        }
    }
}

// What each TLV of a message says, by its fields.
pub(crate) fn put_fields(rt: &impl Print, text: &mut Answers, message: &[u8]) {
    for TlvRead { tlv, value } in tlvs_of(message) {
        text.with_room(rt);
        text.put(b"    ");
        put_tlv_name(text, tlv.tlv_type);
        text.put(b":");
        field_lines::put_said(rt, text, tlv.tlv_type, value);
    }
}

// Where each station is, by its row.
pub(crate) fn put_stations(rt: &impl Print, text: &mut Answers, held: &Stations) {
    for n in 0..STATIONS {
        if let Some(seat) = stations::row(held, n) {
            let station = Address(seat.station);
            let point = Address(seat.point);
            text.with_room(rt);
            let _ = write!(text, "{station} is at {point}\n");
        }
    }
}
