// Which access point a station is at (part P of docs/RULES.md). The table holds up to 128 stations, and the client
// association events of Multi-AP change it.
#![tactic(auto)]

mod reading;
mod rows;

ghost use Rattle.std.specs.Prelude.{◌≡◌};
ghost use Rattle.numbers.specs.Numbers.{answered};
ghost use Rattle.stations.specs.Addresses.{address_number};
ghost use Rattle.stations.specs.Whereabouts.{event_of};
ghost use Rattle.stations.specs.Rows.{fresh_stations, where_of, answer_to, table_after, row_at, count_of, where_shown, row_shown};
ghost use Rattle.stations.specs.Events.{answer_from, table_from};

use numbers::Refusal;
use reading::association_in;
use records::{AssociationState, ClientAssociation, MacAddr};
use rows::{address_of, join, leave, row_of};

// How many stations a table holds, at most (rule P1).
pub const STATIONS: usize = 128;

// The table: row n has a station in element n, as the number of its address plus 1, and its access point in element
// STATIONS + n, as the number of its address. A free row has 0 in both.
// Both lists are one array, which a caller lends and the calls change in place: 2,048 bytes are too many to copy on a
// small stack. It is an array of numbers, and no list of rows, because C lends it as one.
pub type Stations = [u64; 2 * STATIONS];

// What an accepted event did (rules P2 and P3). New is "placed" there, and There is "same".
#[derive(Clone, Copy)]
pub enum Heard {
    // a join: the station was nowhere
    New,
    // a join: the station was at another access point
    Moved { from: MacAddr },
    // a join: the station was there already
    There,
    // a leave: it named the access point at which the station was
    Removed,
    // a leave: it named another one, or the station was nowhere; nothing changes
    Stale,
}

// What an event did that was read from a value (rule P6), and how many bytes of the value it took. The bytes after
// these are the rest.
#[derive(Clone, Copy)]
pub struct Taken {
    pub heard: Heard,
    pub consumed: usize,
}

// A row of the table that isn't free (rule P7): a station and its access point.
#[derive(Clone, Copy)]
pub struct Seat {
    pub station: MacAddr,
    pub point: MacAddr,
}

// A table that holds no station (rule P1).
pub fn fresh() -> Stations
    ensures { result ≡ fresh_stations }
{
    [0u64; 2 * STATIONS]
}

// A station joined an access point, or left it (rules P2 to P4).
pub fn event(t: &mut Stations, e: ClientAssociation) -> Result<Heard, Refusal>
    ensures { (answered result ≡ answer_to t.old (event_of e)) × (t.new ≡ table_after t.old (event_of e)) }
{
    match e.association_state {
        AssociationState::JoinedBss => join(t, e.sta_mac, e.ap_mac),
        AssociationState::LeftBss => Ok(leave(t, e.sta_mac, e.ap_mac)),
    }
}

// The same, read from the value of a TLV of kind 0x92 (rule P6). A value that doesn't read changes nothing.
pub fn event_from(t: &mut Stations, value: &[u8]) -> Result<Taken, Refusal>
    ensures { (answered result ≡ answer_from t.old value.now) × (t.new ≡ table_from t.old value.now) }
{
    let read = association_in(value)?;
    let heard = event(t, read.client)?;
    Ok(Taken {
        heard,
        consumed: read.consumed,
    })
}

// Where a station is (rule P7).
#[tactic(auto, unfolding(crate::specs::Rows::where_of))]
pub fn where_is(t: &Stations, station: MacAddr) -> Option<MacAddr>
    ensures { result ≡ where_shown (where_of t.now (address_number station)) }
{
    let row = row_of(t, station)?;
    Some(address_of(t[STATIONS + row]))
}

// How many stations are held (rule P7).
pub fn count(t: &Stations) -> usize
    ensures { result ≡ count_of t.now }
{
    t[..STATIONS].iter().filter(|mark| **mark != 0).count()
}

// The station in row n and its access point (rule P7). With each n below STATIONS a caller lists them all.
pub fn row(t: &Stations, n: usize) -> Option<Seat>
    ensures { result ≡ row_shown (row_at t.now n) }
{
    if n < STATIONS {
        let mark = t[n];
        if mark != 0 {
            return Some(Seat {
                station: address_of(mark - 1),
                point: address_of(t[STATIONS + n]),
            });
        }
    }
    None
}
