// The fields of records in commands.
ghost use Rattle.std.specs.Prelude.{◌≡◌, ◌<◌, false, MatchOption};
ghost use Rattle.records.specs.Kinds.{code_of, kind_of};
ghost use Rattle.records.specs.Reading.{is_record_lem};

use crate::Code;
use command_lines::Line;
use records::{
    AssociationState, ByteCounterUnits, ClientAssociation, Ieee1905ProfileVersion, LinkMetricQuery,
    LinkMetricResultCode, MacAddr, MultiApProfile, Profile2ApCapability, Record, SupportedFreqBand,
};

// The address in field n: six bytes.
pub fn address_in(line: &Line, n: usize) -> MacAddr
    ensures { (result.b0 < 256) × (result.b1 < 256) × (result.b2 < 256) × (result.b3 < 256) × (result.b4 < 256) × (result.b5 < 256) }
{
    let s = line.field(n);
    MacAddr {
        b0: command_lines::pair(s, 0),
        b1: command_lines::pair(s, 1),
        b2: command_lines::pair(s, 2),
        b3: command_lines::pair(s, 3),
        b4: command_lines::pair(s, 4),
        b5: command_lines::pair(s, 5),
    }
}

fn code_in(line: &Line, n: usize) -> Code {
    match line.field(n) {
        [b'r', digits @ ..] => {
            Code::Reserved(command_lines::byte_of(command_lines::number(digits)))
        }
        digits => Code::Named(command_lines::byte_of(command_lines::number(digits))),
    }
}

// An impl for each type, since a macro of our own may write none.
impl From<Code> for SupportedFreqBand {
    fn from(code: Code) -> Self {
        match code {
            Code::Named(number) => number.into(),
            Code::Reserved(number) => Self::Reserved(number),
        }
    }
}

impl From<Code> for Ieee1905ProfileVersion {
    fn from(code: Code) -> Self {
        match code {
            Code::Named(number) => number.into(),
            Code::Reserved(number) => Self::Reserved(number),
        }
    }
}

impl From<Code> for LinkMetricResultCode {
    fn from(code: Code) -> Self {
        match code {
            Code::Named(_) => Self::InvalidNeighbor,
            Code::Reserved(number) => Self::UnknownCode(number),
        }
    }
}

impl From<Code> for MultiApProfile {
    fn from(code: Code) -> Self {
        match code {
            Code::Named(number) => number.into(),
            Code::Reserved(number) => Self::Reserved(number),
        }
    }
}

fn neighbor_in(line: &Line, n: usize) -> Option<MacAddr> {
    match line.field(n) {
        [b'-', ..] => None,
        _ => Some(address_in(line, n)),
    }
}

fn query_in(line: &Line) -> LinkMetricQuery {
    LinkMetricQuery {
        neighbor_type: line.byte(3),
        neighbor_mac: neighbor_in(line, 4),
        requested_metrics: line.byte(5),
    }
}

fn state_in(line: &Line, n: usize) -> AssociationState {
    match line.number(n) {
        1 => AssociationState::JoinedBss,
        _ => AssociationState::LeftBss,
    }
}

fn association_in(line: &Line) -> ClientAssociation {
    ClientAssociation {
        sta_mac: address_in(line, 3),
        ap_mac: address_in(line, 4),
        association_state: state_in(line, 5),
    }
}

fn capability_in(line: &Line) -> Profile2ApCapability {
    Profile2ApCapability {
        max_prioritization_rules: line.byte(3),
        reserved: line.byte(4),
        byte_counter_units: ByteCounterUnits::from_u8(line.byte(5)),
        prioritization: line.byte(6) == 1,
        dpp_onboarding: line.byte(7) == 1,
        traffic_separation: line.byte(8) == 1,
        flags_reserved: line.byte(9),
        max_vids: line.byte(10),
    }
}

// The record of a kind, whose fields are those of the line from the fourth on. There is none where no record kind has
// the code.
pub fn record_in(code: u8, line: &Line) -> Option<Record>
    ensures { MatchOption result (is_record_lem code ≡ false) (λ r. code_of (kind_of r) ≡ code) }
{
    Some(match code {
        records::END_OF_MESSAGE => Record::EndOfMessage,
        records::AL_MAC_ADDRESS => Record::AlMacAddress(address_in(line, 3)),
        records::MAC_ADDRESS => Record::MacAddress(address_in(line, 3)),
        records::SEARCHED_ROLE => Record::SearchedRole(line.byte(3)),
        records::SUPPORTED_ROLE => Record::SupportedRole(line.byte(3)),
        records::SUPPORTED_FREQ_BAND => Record::SupportedFreqBand(code_in(line, 3).into()),
        records::IEEE1905_PROFILE_VERSION => {
            Record::Ieee1905ProfileVersion(code_in(line, 3).into())
        }
        records::LINK_METRIC_RESULT_CODE => Record::LinkMetricResultCode(code_in(line, 3).into()),
        records::LINK_METRIC_QUERY => Record::LinkMetricQuery(query_in(line)),
        records::CLIENT_ASSOCIATION => Record::ClientAssociation(association_in(line)),
        records::MULTI_AP_PROFILE => Record::MultiApProfile(code_in(line, 3).into()),
        records::PROFILE2_AP_CAPABILITY => Record::Profile2ApCapability(capability_in(line)),
        _ => return None,
    })
}
