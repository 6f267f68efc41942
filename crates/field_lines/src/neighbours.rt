// Who is next to an interface (kinds 6 and 7), and how good the links to them are (kinds 9 and 10).
use crate::{Address, Value};
use answer_lines::Answers;
use links::{AshlarRxPair, AshlarTxPair};
use records::MacAddr;
use std::fmt::Write;

// The interface that the neighbours are next to.
pub(crate) fn put_local(text: &mut Answers, value: Value<'_>) {
    let local = Address(fields::front(value.code, value.bytes).local);
    let _ = write!(text, " at {local}");
}

pub(crate) fn put_neighbour(text: &mut Answers, value: Value<'_>, at: usize) {
    let address = Address(fields::neighbour(value.code, value.bytes, at).address);
    let _ = write!(text, ", {address}");
}

// Who reports on the links to whom.
pub(crate) fn put_between(text: &mut Answers, value: Value<'_>) {
    let front = fields::front(value.code, value.bytes);
    let local = Address(front.local);
    let neighbour = Address(front.neighbour);
    let _ = write!(text, " {local} to {neighbour}");
}

// Between whom a link is, and how much goes over it.
fn put_link(text: &mut Answers, own: MacAddr, neighbour: MacAddr, errors: u32, packets: u32) {
    let own = Address(own);
    let neighbour = Address(neighbour);
    let _ = write!(
        text,
        ", link {own} to {neighbour}, errors {errors}, packets {packets}"
    );
}

pub(crate) fn put_tx(text: &mut Answers, pair: AshlarTxPair) {
    let throughput = pair.throughput;
    let availability = pair.availability;
    let rate = pair.rate;
    put_link(text, pair.own, pair.neighbour, pair.errors, pair.packets);
    let _ = write!(
        text,
        ", throughput {throughput}, availability {availability}, rate {rate}"
    );
}

// The signal's strength is a signed number (rule Q2).
pub(crate) fn put_rx(text: &mut Answers, pair: AshlarRxPair) {
    let signal = pair.signal;
    put_link(text, pair.own, pair.neighbour, pair.errors, pair.packets);
    let _ = write!(text, ", signal {signal}");
}
