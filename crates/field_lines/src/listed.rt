// The entries of a list in order (rule E9), each said by its kind. A network's name comes with the network.
use crate::{Value, neighbours, networks};
use answer_lines::Answers;
use entries::{Cursor, EntryAt};

fn put_entry(rt: &impl Print, text: &mut Answers, value: Value<'_>, entry: EntryAt) {
    text.with_room(rt);
    match value.code {
        6 | 7 => neighbours::put_neighbour(text, value, entry.start),
        9 => neighbours::put_tx(text, links::tx_pair_at(value.bytes, entry.start)),
        10 => neighbours::put_rx(text, links::rx_pair_at(value.bytes, entry.start)),
        _ => networks::put_radio_or_network(rt, text, value, entry),
    }
}

// The entries from a cursor on. Each has a byte of the value of its own, so there are no more than bytes.
fn put_from(rt: &impl Print, text: &mut Answers, first: Cursor, value: Value<'_>) {
    let mut cursor = first;
    for _ in value.bytes {
        let Ok(Some(gone)) = entries::go_on(cursor, value.bytes) else {
            return;
        };
        put_entry(rt, text, value, gone.entry);
        cursor = gone.cursor;
    }
}

pub(crate) fn put_entries(rt: &impl Print, text: &mut Answers, value: Value<'_>) {
    if let Ok(start) = entries::begin(value.code, 2, value.bytes) {
        put_from(rt, text, start.cursor, value);
    }
}
