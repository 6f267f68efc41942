// The rows of the table: addresses as numbers, the look-up, and what a join and a leave do.
ghost use Rattle.std.specs.Prelude.{◌≡◌, true, false, ◌<◌, ◌^◌};
ghost use Rattle.numbers.specs.Numbers.{gives, answered};
ghost use Rattle.stations.specs.Addresses.{address_number, address_of};
ghost use Rattle.stations.specs.Whereabouts.{heard_of_join, at};
ghost use Rattle.stations.specs.Rows.{mark_of, answer_to, after_join, after_leave};
ghost use Rattle.stations.specs.PrivateEvents.{row_found};

use crate::{Heard, STATIONS, Stations};
use numbers::Refusal;
use records::MacAddr;

// The number of an address, and the address with a number. They are no `From`: neither type is this crate's.
fn number_of(m: MacAddr) -> u64
    ensures { (result ≡ address_number m) × (result < 2 ^ 48) }
{
    u64::from_be_bytes([0, 0, m.b0, m.b1, m.b2, m.b3, m.b4, m.b5])
}

#[tactic(auto, unfolding(crate::specs::Addresses::address_of))]
pub(crate) fn address_of(n: u64) -> MacAddr
    ensures { result ≡ address_of n }
{
    let [_, _, b0, b1, b2, b3, b4, b5] = n.to_be_bytes();
    MacAddr {
        b0,
        b1,
        b2,
        b3,
        b4,
        b5,
    }
}

// The lowest row with a mark.
fn row_with(t: &Stations, mark: u64) -> Option<usize>
    ensures { result ≡ row_found t.now mark }
{
    t[..STATIONS].iter().position(|held| *held == mark)
}

// The row of a station, if it is held.
pub(crate) fn row_of(t: &Stations, station: MacAddr) -> Option<usize>
    ensures { result ≡ row_found t.now (mark_of (address_number station)) }
{
    row_with(t, number_of(station) + 1)
}

// What a join says about a station that was at an access point (rule P2).
fn heard_of_held(from: u64, point: u64) -> Heard
    ensures { result ≡ heard_of_join «point» (at «from») }
{
    if from == point {
        return Heard::There;
    }
    Heard::Moved {
        from: address_of(from),
    }
}

// A join: a station that is held changes its access point, another one takes the lowest free row (rules P2, P4, P7).
#[tactic(auto, unfolding(crate::specs::Rows::where_of, crate::specs::Rows::all_held, crate::specs::Rows::after_join))]
pub(crate) fn join(t: &mut Stations, station: MacAddr, point: MacAddr) -> Result<Heard, Refusal>
    ensures { (answered result ≡ answer_to t.old (record { station = address_number station; point = address_number point; is_join = true }))
        × (t.new ≡ after_join t.old (address_number station) (address_number point)) }
{
    let at = number_of(point);
    if let Some(known) = row_of(t, station) {
        let from = t[STATIONS + known];
        t[STATIONS + known] = at;
        return Ok(heard_of_held(from, at));
    }
    let Some(free) = row_with(t, 0) else {
        return Err(Refusal::NoStationRoom);
    };
    t[free] = number_of(station) + 1;
    t[STATIONS + free] = at;
    Ok(Heard::New)
}

// A leave frees the station's row, if it names the access point there (rule P3).
#[tactic(auto, unfolding(crate::specs::Rows::where_of, crate::specs::Rows::after_leave))]
pub(crate) fn leave(t: &mut Stations, station: MacAddr, point: MacAddr) -> Heard
    ensures { (gives result ≡ answer_to t.old (record { station = address_number station; point = address_number point; is_join = false }))
        × (t.new ≡ after_leave t.old (address_number station) (address_number point)) }
{
    match row_of(t, station) {
        Some(row) if t[STATIONS + row] == number_of(point) => {
            t[row] = 0;
            t[STATIONS + row] = 0;
            Heard::Removed
        }
        _ => Heard::Stale,
    }
}
