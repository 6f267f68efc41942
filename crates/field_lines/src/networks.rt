// Each radio of an access point, and each network of it with its name (kinds 0x83 and 0xB7); the radios of a device with
// their texts (kind 0xD4).
use crate::{Address, Value, quoted, words};
use answer_lines::Answers;
use entries::EntryAt;
use std::fmt::Write;
use texts::DEVICE_INVENTORY;

fn put_network(rt: &impl Print, text: &mut Answers, value: Value<'_>, at: usize) {
    let network = fields::bss(value.code, value.bytes, at);
    let bssid = Address(network.bssid);
    let _ = write!(text, ", BSS {bssid} ");
    let name = words::part_of(value.bytes, network.name_start, network.name_length);
    quoted::put_quoted(rt, text, name);
}

// A radio: the first of an access point, which stands after the count, begins the line.
fn put_radio(rt: &impl Print, text: &mut Answers, value: Value<'_>, at: usize) {
    let radio = fields::radio(value.code, value.bytes, at);
    let id = Address(radio.id);
    if at != 1 {
        text.put(b",");
    }
    let _ = write!(text, " radio {id}");
    if value.code == DEVICE_INVENTORY {
        text.put(b" ");
        let said = words::part_of(value.bytes, radio.text_start, radio.text_length);
        quoted::put_quoted(rt, text, said);
    }
}

pub(crate) fn put_radio_or_network(
    rt: &impl Print,
    text: &mut Answers,
    value: Value<'_>,
    entry: EntryAt,
) {
    if entry.level == 1 {
        put_radio(rt, text, value, entry.start);
    } else {
        put_network(rt, text, value, entry.start);
    }
}
