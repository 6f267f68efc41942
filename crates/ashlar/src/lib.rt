// The hot calls for C (rule C1): each is a thin shell over the layer's own call. Its answer crosses in numbers, as
// `c_answers`, `c_stations`, `c_records`, `c_links`, `c_captures` or `c_entries` says, or is such a struct from the
// start, as an entry's fields are.
#![tactic(auto)]

use c_answers::{
    AshlarChecked, AshlarCutting, AshlarFound, AshlarHeader, AshlarKind, AshlarPart, AshlarPushed,
    AshlarShown, AshlarStep, AshlarWalk,
};
use c_captures::{AshlarCapture, AshlarReached, AshlarWritten};
use c_links::AshlarReport;
use c_stations::{AshlarApplied, AshlarAt, AshlarHeard, AshlarRow};
use captures::Frame;
use cutting::Proposed;
use framing::CmduFields;
use links::LinkKind;
use pushing::Arrival;
use records::MacAddr;
use stations::Stations;
use table::Table;
use walking::Tlv;

mod earlier_names;
mod entry_reading;
mod entry_writing;
mod record_reading;
mod writing;

ghost use Rattle.std.specs.Prelude.{◌≡◌, length};
ghost use Rattle.numbers.specs.Numbers.{mapped};
ghost use Rattle.framing.specs.Tlv.{leaves};
ghost use Rattle.framing.specs.Cmdu.{read_header, header_bytes_lem, header_size};
ghost use Rattle.walking.specs.Walk.{walk_of, counted, listed, filled, step_at};
ghost use Rattle.kinds.specs.Kinds.{read_kind_lem, locate_text_in};
ghost use Rattle.finding.specs.Finding.{find_from};
ghost use Rattle.keys.specs.Keys.{key_of};
ghost use Rattle.records.specs.Values.{octets};
ghost use Rattle.table.specs.Rows.{fresh_table};
ghost use Rattle.pushing.specs.Push.{way};
ghost use Rattle.pushing.specs.Made.{Made};
ghost use Rattle.sweeping.specs.Sweep.{swept, swept_as};
ghost use Rattle.stations.specs.Addresses.{address_number};
ghost use Rattle.stations.specs.Whereabouts.{event_of};
ghost use Rattle.stations.specs.Rows.{fresh_stations, where_of, answer_to, table_after, row_at, count_of, where_shown, row_shown};
ghost use Rattle.stations.specs.Events.{answer_from, table_from};
ghost use Rattle.links.specs.declared.LinkKind.TheVariants.{Tx, Rx};
ghost use Rattle.links.specs.Reports.{report_of};
ghost use Rattle.cutting.specs.Cuts.{check_of};
ghost use Rattle.cutting.specs.Greedy.{cut_into, with_ends};
ghost use Rattle.captures.specs.Writing.{our_header, file_header_size, frame_record, frame_size};
ghost use Rattle.captures.specs.Reading.{file_step, capture_in, frames_counted, with_room_lem, frames_left, arrival_of_lem};
ghost use Rattle.c_answers.specs.Numbers.{header_numbers_lem, walk_numbers_lem, step_numbers_lem, kind_numbers_lem, found_numbers_lem, part_numbers_lem, Numbered, shown_in_lem, check_numbers_lem, cut_numbers_lem};
ghost use Rattle.c_stations.specs.Numbers.{association_with_lem, event_numbers_lem, applied_numbers_lem, where_numbers_lem, row_numbers_lem};
ghost use Rattle.c_links.specs.Numbers.{report_numbers_lem, merged_from};
ghost use Rattle.c_captures.specs.Numbers.{written_numbers_lem, reached_numbers_lem, checked_numbers_lem};

// The library's version: major * 10000 + minor * 100 + patch, so this is 1.4.0.
const VERSION: u32 = 10400;

// The version of the library that was linked, to be held against the header's.
#[unsafe(no_mangle)]
pub extern "C" fn ashlar_version() -> u32
    ensures { result ≡ 10400 }
{
    VERSION
}

// The header of the CMDU at the start of the bytes (rule B6).
#[unsafe(no_mangle)]
pub extern "C" fn ashlar_read_header(bytes: &[u8]) -> AshlarHeader
    ensures { result ≡ header_numbers_lem (read_header bytes.now) }
{
    c_answers::header_numbers(framing::read_cmdu_header(bytes))
}

// Writes the header of a CMDU at the start of `out` (rule B7).
#[unsafe(no_mangle)]
pub extern "C" fn ashlar_write_header(fields: CmduFields, out: &mut [u8]) -> AshlarWritten
    ensures answer { result ≡ written_numbers_lem (header_size (length out.old)) }
    ensures bytes { out.new ≡ leaves (header_size (length out.old)) (header_bytes_lem fields) out.old }
{
    c_captures::written_numbers(framing::write_cmdu_header(fields, out))
}

// The TLVs of a payload up to its end marker, counted, and the length of the padding after them (rules W1 to W4).
#[unsafe(no_mangle)]
pub extern "C" fn ashlar_walk(payload: &[u8]) -> AshlarWalk
    ensures { result ≡ walk_numbers_lem (counted (walk_of payload.now)) }
{
    c_answers::walk_numbers(walking::walk(payload))
}

// The TLVs of a payload, counted and listed (rule W5). A refusal leaves the list as it was (rule A3).
#[unsafe(no_mangle)]
pub extern "C" fn ashlar_walk_into(list: &mut [Tlv], payload: &[u8]) -> AshlarWalk
    ensures { (result ≡ walk_numbers_lem (listed (length list.old) (walk_of payload.now)))
        × (list.new ≡ filled (listed (length list.old) (walk_of payload.now))
        (walk_of payload.now).items list.old) }
{
    c_answers::walk_numbers(walking::walk_into(list, payload))
}

// One step of the walk, at an offset (rule W6). From 0 on, each step starts where the one before it says.
#[unsafe(no_mangle)]
pub extern "C" fn ashlar_step(payload: &[u8], at: usize) -> AshlarStep
    ensures { result ≡ step_numbers_lem (step_at payload.now at) }
{
    c_answers::step_numbers(walking::step(payload, at))
}

// The typed value of the kind with this code (rule K1).
#[unsafe(no_mangle)]
pub extern "C" fn ashlar_read_kind(code: u8, value: &[u8]) -> AshlarKind
    ensures { result ≡ kind_numbers_lem (read_kind_lem code value.now) }
{
    c_answers::kind_numbers(kinds::measure(code, value))
}

// The first record of the kind with this code that reads, after the first `from` records of the list: how many were
// looked at up to it (rules F1 to F3).
#[unsafe(no_mangle)]
pub extern "C" fn ashlar_find(list: &[Tlv], payload: &[u8], code: u8, from: usize) -> AshlarFound
    ensures { result ≡ found_numbers_lem (mapped (λ h. h.looked)
        (find_from code list.now payload.now from)) }
{
    c_answers::found_numbers(finding::find_place(list, payload, code, from))
}

// Where the text with this number lies in a value of the kind with this code (rule E7): kinds 21 and 0xD4 have three,
// 22 has one, any other kind none. The whole value has to read.
#[unsafe(no_mangle)]
pub extern "C" fn ashlar_text(code: u8, number: usize, value: &[u8]) -> AshlarPart
    ensures { result ≡ part_numbers_lem (locate_text_in code number value.now) }
{
    c_answers::part_numbers(kinds::locate_text(code, number, value))
}

// The key of a sender and a message id (rule T2), under which a fragment is pushed.
#[unsafe(no_mangle)]
pub extern "C" fn ashlar_key(sender: MacAddr, message_id: u16) -> u64
    ensures { result ≡ key_of (octets sender) message_id }
{
    keys::key_of(
        sender.b0, sender.b1, sender.b2, sender.b3, sender.b4, sender.b5, message_id,
    )
}

// The table holds nothing any more, whatever it held (rule T14). It is made in place, as the station table is.
#[unsafe(no_mangle)]
pub extern "C" fn ashlar_fragments_fresh(t: &mut Table)
    ensures { t.new ≡ fresh_table }
{
    *t = table::fresh();
}

// A fragment comes in, to a table that these calls made (rules T4 to T9).
#[unsafe(no_mangle)]
pub extern "C" fn ashlar_fragments_push(
    t: &mut Table,
    store: &mut [u8],
    out: &mut [u8],
    a: Arrival,
    payload: &[u8],
) -> AshlarPushed
    requires { Made t.old }
    ensures { Numbered
        (way t.old store.old a payload.now (length out.old))
        t.old store.old out.old a payload.now
        result t.new store.new out.new }
{
    c_answers::push_numbers(reassembler::push(t, store, out, a, payload))
}

// The message of an answer that push returned: a part of one of the two slices that push was lent (rule T10).
#[unsafe(no_mangle)]
pub extern "C" fn ashlar_fragments_show(
    pushed: AshlarPushed,
    payload: &[u8],
    out: &[u8],
) -> AshlarShown
    ensures { result ≡ shown_in_lem pushed (length payload.now) (length out.now) }
{
    c_answers::shown_in(pushed, payload.len(), out.len())
}

// Drops the keys that are 3,000 milliseconds old or older, and returns how many they were (rules S1 and S2).
#[unsafe(no_mangle)]
pub extern "C" fn ashlar_fragments_sweep(t: &mut Table, time: u64) -> usize
    ensures { swept_as t.new result ≡ swept t.old time }
{
    reassembler::sweep(t, time)
}

// Whether fragments, of any number, are a cutting of a message (rules M3 and M4). Each payload is a part of the lent
// payloads.
#[unsafe(no_mangle)]
pub extern "C" fn ashlar_check(
    message: &[u8],
    fragments: &[Proposed],
    payloads: &[u8],
) -> AshlarChecked
    ensures { result ≡ check_numbers_lem
        (check_of message.now fragments.now payloads.now) }
{
    c_answers::check_numbers(cutting::check(message, fragments, payloads))
}

// Cuts a message, and writes to the list where each fragment ends (rule M5). A refusal leaves the list as it was (rule
// A3).
#[unsafe(no_mangle)]
pub extern "C" fn ashlar_cut(message: &[u8], ends: &mut [usize]) -> AshlarCutting
    ensures { (result ≡ cut_numbers_lem (mapped length (cut_into message.now (length ends.old))))
        × (ends.new ≡ with_ends (cut_into message.now (length ends.old))
        ends.old) }
{
    c_answers::cut_numbers(cutting::cut(message, ends))
}

// The table holds no station any more, whatever it held (rule P1). It is made in place, since 2,048 bytes by value
// would lie on a caller's stack.
#[unsafe(no_mangle)]
pub extern "C" fn ashlar_stations_fresh(t: &mut Stations)
    ensures { t.new ≡ fresh_stations }
{
    *t = stations::fresh();
}

// A station joined an access point, or left it (rules P2 to P4).
#[unsafe(no_mangle)]
pub extern "C" fn ashlar_stations_event(
    t: &mut Stations,
    station: MacAddr,
    point: MacAddr,
    joined: bool,
) -> AshlarHeard
    ensures { (result ≡ event_numbers_lem (answer_to t.old (event_of (association_with_lem station point joined))))
        × (t.new ≡ table_after t.old (event_of (association_with_lem station point joined))) }
{
    let e = c_stations::association_with(station, point, joined);
    c_stations::event_numbers(stations::event(t, e))
}

// The same, read from the value of a TLV of kind 0x92 (rule P6). A value that does not read changes nothing.
#[unsafe(no_mangle)]
pub extern "C" fn ashlar_stations_event_from(t: &mut Stations, value: &[u8]) -> AshlarApplied
    ensures { (result ≡ applied_numbers_lem (length value.now)
        (answer_from t.old value.now))
        × (t.new ≡ table_from t.old value.now) }
{
    c_stations::applied_numbers(value.len(), stations::event_from(t, value))
}

// Where a station is (rule P7).
#[unsafe(no_mangle)]
pub extern "C" fn ashlar_stations_at(t: &Stations, station: MacAddr) -> AshlarAt
    ensures { result ≡ where_numbers_lem (where_shown (where_of t.now (address_number station))) }
{
    c_stations::where_numbers(stations::where_is(t, station))
}

// How many stations are held (rule P7).
#[unsafe(no_mangle)]
pub extern "C" fn ashlar_stations_count(t: &Stations) -> usize
    ensures { result ≡ count_of t.now }
{
    stations::count(t)
}

// The station in row n and its access point (rule P7). With each n below 128 a caller lists them all.
#[unsafe(no_mangle)]
pub extern "C" fn ashlar_stations_row(t: &Stations, n: usize) -> AshlarRow
    ensures { result ≡ row_numbers_lem (row_shown (row_at t.now n)) }
{
    c_stations::row_numbers(stations::row(t, n))
}

// The report over the pairs of a value of kind 9, what was sent (rule Q4).
#[unsafe(no_mangle)]
pub extern "C" fn ashlar_link_report_tx(value: &[u8]) -> AshlarReport
    ensures { result ≡ report_numbers_lem (report_of Tx value.now) }
{
    c_links::report_numbers(links::report(LinkKind::Tx, value))
}

// The report over the pairs of a value of kind 10, what was received (rule Q4).
#[unsafe(no_mangle)]
pub extern "C" fn ashlar_link_report_rx(value: &[u8]) -> AshlarReport
    ensures { result ≡ report_numbers_lem (report_of Rx value.now) }
{
    c_links::report_numbers(links::report(LinkKind::Rx, value))
}

// Two reports made into one (rule Q7).
#[unsafe(no_mangle)]
pub extern "C" fn ashlar_link_merge(one: AshlarReport, other: AshlarReport) -> AshlarReport
    ensures { result ≡ report_numbers_lem (merged_from one other) }
{
    c_links::merge_numbers(one, other)
}

// Writes the file header of a capture at the start of `out` (rule G5).
#[unsafe(no_mangle)]
pub extern "C" fn ashlar_capture_header(out: &mut [u8]) -> AshlarWritten
    ensures answer { result ≡ written_numbers_lem (file_header_size (length out.old)) }
    ensures bytes { out.new ≡ leaves (file_header_size (length out.old)) our_header out.old }
{
    c_captures::written_numbers(captures::write_file_header(out))
}

// Writes a fragment as a frame of a capture at the start of `out` (rule G5).
#[unsafe(no_mangle)]
pub extern "C" fn ashlar_capture_frame(a: Arrival, payload: &[u8], out: &mut [u8]) -> AshlarWritten
    ensures answer { result ≡ written_numbers_lem (frame_size a.time (length payload.now) (length out.old)) }
    ensures bytes { out.new ≡ leaves (frame_size a.time (length payload.now) (length out.old)) (frame_record a payload.now) out.old }
{
    c_captures::written_numbers(captures::write_frame(a, payload, out))
}

// Checks a whole capture, and counts its frames (rule G6).
#[unsafe(no_mangle)]
pub extern "C" fn ashlar_capture_check(file: &[u8]) -> AshlarCapture
    ensures { result ≡ checked_numbers_lem (frames_counted (capture_in file.now)) }
{
    c_captures::checked_numbers(captures::check(file))
}

// Goes over the record at an offset of a capture (rule G7).
#[unsafe(no_mangle)]
pub extern "C" fn ashlar_capture_step(file: &[u8], at: usize) -> AshlarReached
    ensures { result ≡ reached_numbers_lem (file_step file.now at) }
{
    c_captures::reached_numbers(captures::step(file, at))
}

// Checks a whole capture, and lists its 1905 frames (rule G8). A refusal leaves the list as it was (rule A3).
#[unsafe(no_mangle)]
pub extern "C" fn ashlar_capture_frames(list: &mut [Frame], file: &[u8]) -> AshlarCapture
    ensures { (result ≡ checked_numbers_lem (frames_counted (with_room_lem (length list.old) (capture_in file.now))))
        × (list.new ≡ frames_left (with_room_lem (length list.old) (capture_in file.now)) list.old) }
{
    c_captures::checked_numbers(captures::frames_into(list, file))
}

// A frame as push takes it, but for its payload (rule G9).
#[unsafe(no_mangle)]
pub extern "C" fn ashlar_capture_arrival(frame: Frame) -> Arrival
    ensures { result ≡ arrival_of_lem frame }
{
    captures::arrival_of(frame)
}
