// The calls on both tables and on radios by the names that they had first. What a caller linked stays: each is the call of
// today's name (rule C1), but that a fresh table is returned here, and that a radio is asked for by its number alone.
ghost use Rattle.std.specs.Prelude.{◌≡◌, [], ◌∷◌, length};
ghost use Rattle.texts.specs.Texts.{inventory_code};
ghost use Rattle.texts.specs.Access.{locate_radio, locate_radio_text_lem};
ghost use Rattle.table.specs.Rows.{fresh_table};
ghost use Rattle.pushing.specs.Push.{way};
ghost use Rattle.pushing.specs.Made.{Made};
ghost use Rattle.sweeping.specs.Sweep.{swept, swept_as};
ghost use Rattle.stations.specs.Addresses.{address_number};
ghost use Rattle.stations.specs.Whereabouts.{event_of};
ghost use Rattle.stations.specs.Rows.{where_of, answer_to, table_after, row_at, count_of, where_shown, row_shown};
ghost use Rattle.stations.specs.Events.{answer_from, table_from};
ghost use Rattle.c_answers.specs.Numbers.{part_numbers_lem, Numbered, shown_in_lem};
ghost use Rattle.c_stations.specs.Numbers.{association_with_lem, event_numbers_lem, applied_numbers_lem, where_numbers_lem, row_numbers_lem};

use c_answers::{AshlarPart, AshlarPushed, AshlarShown};
use c_stations::{AshlarApplied, AshlarAt, AshlarHeard, AshlarRow};
use layouts::Path;
use pushing::Arrival;
use records::MacAddr;
use stations::Stations;
use table::Table;

// A table that holds nothing (rule T14).
#[unsafe(no_mangle)]
pub extern "C" fn ashlar_fresh() -> Table
    ensures { result ≡ fresh_table }
{
    table::fresh()
}

// A fragment comes in, to a table that these calls made (rules T4 to T9).
#[unsafe(no_mangle)]
pub extern "C" fn ashlar_push(
    t: &mut Table,
    store: &mut [u8],
    out: &mut [u8],
    a: Arrival,
    payload: &[u8],
) -> AshlarPushed
    requires { Made t.old }
    ensures { Numbered
        (way t.old store.old a payload.now (length out.old))
        t.old store.old out.old a payload.now
        result t.new store.new out.new }
{
    c_answers::push_numbers(reassembler::push(t, store, out, a, payload))
}

// The message of an answer that push returned: a part of one of the two slices that push was lent (rule T10).
#[unsafe(no_mangle)]
pub extern "C" fn ashlar_show(pushed: AshlarPushed, payload: &[u8], out: &[u8]) -> AshlarShown
    ensures { result ≡ shown_in_lem pushed (length payload.now) (length out.now) }
{
    c_answers::shown_in(pushed, payload.len(), out.len())
}

// Drops the keys that are 3,000 milliseconds old or older, and returns how many they were (rules S1 and S2).
#[unsafe(no_mangle)]
pub extern "C" fn ashlar_sweep(t: &mut Table, time: u64) -> usize
    ensures { swept_as t.new result ≡ swept t.old time }
{
    reassembler::sweep(t, time)
}

// A station joined an access point, or left it (rules P2 to P4).
#[unsafe(no_mangle)]
pub extern "C" fn ashlar_station_event(
    t: &mut Stations,
    station: MacAddr,
    point: MacAddr,
    joined: bool,
) -> AshlarHeard
    ensures { (result ≡ event_numbers_lem (answer_to t.old (event_of (association_with_lem station point joined))))
        × (t.new ≡ table_after t.old (event_of (association_with_lem station point joined))) }
{
    let e = c_stations::association_with(station, point, joined);
    c_stations::event_numbers(stations::event(t, e))
}

// The same, read from the value of a TLV of kind 0x92 (rule P6). A value that does not read changes nothing.
#[unsafe(no_mangle)]
pub extern "C" fn ashlar_station_event_from(t: &mut Stations, value: &[u8]) -> AshlarApplied
    ensures { (result ≡ applied_numbers_lem (length value.now)
        (answer_from t.old value.now))
        × (t.new ≡ table_from t.old value.now) }
{
    c_stations::applied_numbers(value.len(), stations::event_from(t, value))
}

// Where a station is (rule P7).
#[unsafe(no_mangle)]
pub extern "C" fn ashlar_station_at(t: &Stations, station: MacAddr) -> AshlarAt
    ensures { result ≡ where_numbers_lem (where_shown (where_of t.now (address_number station))) }
{
    c_stations::where_numbers(stations::where_is(t, station))
}

// How many stations are held (rule P7).
#[unsafe(no_mangle)]
pub extern "C" fn ashlar_station_count(t: &Stations) -> usize
    ensures { result ≡ count_of t.now }
{
    stations::count(t)
}

// The station in row n and its access point (rule P7). With each n below 128 a caller lists them all.
#[unsafe(no_mangle)]
pub extern "C" fn ashlar_station_row(t: &Stations, n: usize) -> AshlarRow
    ensures { result ≡ row_numbers_lem (row_shown (row_at t.now n)) }
{
    c_stations::row_numbers(stations::row(t, n))
}

// Where the radio with this number lies in a value of kind 0xD4 (rule E8): its id of six bytes, the length of its text
// in one, and its text.
#[unsafe(no_mangle)]
pub extern "C" fn ashlar_radio(number: usize, value: &[u8]) -> AshlarPart
    ensures { result ≡ part_numbers_lem (locate_radio inventory_code (number ∷ []) value.now) }
{
    let path = Path {
        depth: 1,
        i0: number,
        i1: 0,
        i2: 0,
    };
    c_answers::part_numbers(texts::locate(texts::DEVICE_INVENTORY, path, value))
}

// Where the text of the radio with this number lies in a value of kind 0xD4 (rule E8).
#[unsafe(no_mangle)]
pub extern "C" fn ashlar_radio_text(number: usize, value: &[u8]) -> AshlarPart
    ensures { result ≡ part_numbers_lem (locate_radio_text_lem number value.now) }
{
    c_answers::part_numbers(texts::locate_radio_text(number, value))
}
