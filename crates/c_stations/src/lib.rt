// What the calls of the station table answer (part P), as it crosses to C (rule C1): plain structs, in numbers. An
// address crosses as it is: in C it is an array of its six bytes. C has no enum with values, so that a number or a flag
// stands beside the fields. The public calls are no `From`: `Firmness` has them by their names.
#![tactic(auto)]

ghost use Rattle.std.specs.Prelude.{◌≡◌};
ghost use Rattle.numbers.specs.Numbers.{answered, number};
ghost use Rattle.c_stations.specs.Numbers.{association_with_lem, no_address_lem, heard_as_lem, heard_numbers_lem, refused_as_lem, event_numbers_lem, applied_numbers_lem, where_numbers_lem, row_numbers_lem};

use numbers::Refusal;
use records::{AssociationState, ClientAssociation, MacAddr};
use stations::{Heard, Seat, Taken};

// What an event did (rules P2 and P3): 1 placed, 2 moved, 3 the same, 4 removed, 5 stale; 0 where it is refused. With 2
// comes the access point where the station was.
#[repr(C)]
#[derive(Clone, Copy, Default)]
pub struct AshlarHeard {
    pub from: MacAddr,
    pub answer: u8,
    pub refusal: u8,
}

// The same for an event that was read from a value (rule P6): how many bytes the event took, and how many follow.
#[repr(C)]
#[derive(Clone, Copy, Default)]
pub struct AshlarApplied {
    pub consumed: usize,
    pub rest: usize,
    pub heard: AshlarHeard,
}

// The access point at which a station is, if it is held (rule P7).
#[repr(C)]
#[derive(Clone, Copy, Default)]
pub struct AshlarAt {
    pub point: MacAddr,
    pub held: bool,
}

// A row of the table, if it holds a station (rule P7).
#[repr(C)]
#[derive(Clone, Copy, Default)]
pub struct AshlarRow {
    pub station: MacAddr,
    pub point: MacAddr,
    pub held: bool,
}

// The event that a C caller reports: this station joined that access point, or left it (rule P6).
pub fn association_with(station: MacAddr, point: MacAddr, joined: bool) -> ClientAssociation
    ensures { result ≡ association_with_lem station point joined }
{
    ClientAssociation {
        sta_mac: station,
        ap_mac: point,
        association_state: if joined {
            AssociationState::JoinedBss
        } else {
            AssociationState::LeftBss
        },
    }
}

// What stands where there is no address to give.
pub fn no_address() -> MacAddr
    ensures { result ≡ no_address_lem }
{
    MacAddr::default()
}

// An answer without an access point.
fn heard_as(answer: u8) -> AshlarHeard
    ensures { result ≡ heard_as_lem answer }
{
    AshlarHeard {
        answer,
        ..AshlarHeard::default()
    }
}

impl From<Heard> for AshlarHeard {
    ghost from_gives = { λ heard r. r ≡ heard_numbers_lem heard };

    fn from(heard: Heard) -> Self {
        match heard {
            Heard::New => heard_as(1),
            Heard::Moved { from } => AshlarHeard {
                from,
                answer: 2,
                refusal: 0,
            },
            Heard::There => heard_as(3),
            Heard::Removed => heard_as(4),
            Heard::Stale => heard_as(5),
        }
    }
}

impl From<Refusal> for AshlarHeard {
    ghost from_gives = { λ refusal r. r ≡ refused_as_lem (number refusal) };

    fn from(refusal: Refusal) -> Self {
        AshlarHeard {
            refusal: numbers::number_of(refusal),
            ..AshlarHeard::default()
        }
    }
}

// What an event is answered.
pub fn event_numbers(heard: Result<Heard, Refusal>) -> AshlarHeard
    ensures { result ≡ event_numbers_lem (answered heard) }
{
    match heard {
        Ok(heard) => heard.into(),
        Err(refusal) => refusal.into(),
    }
}

// The same for an event that was read from a value of this size. One that took more bytes would leave no rest: no call
// gives such an answer.
pub fn applied_numbers(size: usize, taken: Result<Taken, Refusal>) -> AshlarApplied
    ensures { result ≡ applied_numbers_lem size (answered taken) }
{
    match taken {
        Ok(taken) => AshlarApplied {
            consumed: taken.consumed,
            rest: size.saturating_sub(taken.consumed),
            heard: taken.heard.into(),
        },
        Err(refusal) => AshlarApplied {
            heard: refusal.into(),
            ..AshlarApplied::default()
        },
    }
}

// Where a station is.
pub fn where_numbers(place: Option<MacAddr>) -> AshlarAt
    ensures { result ≡ where_numbers_lem place }
{
    match place {
        Some(point) => AshlarAt { point, held: true },
        None => AshlarAt::default(),
    }
}

// What a row holds.
pub fn row_numbers(seat: Option<Seat>) -> AshlarRow
    ensures { result ≡ row_numbers_lem seat }
{
    match seat {
        Some(seat) => AshlarRow {
            station: seat.station,
            point: seat.point,
            held: true,
        },
        None => AshlarRow::default(),
    }
}
