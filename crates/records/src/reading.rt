// Reading: a function for each kind of rule K2, with its size, what it refuses and its fields.
ghost use Rattle.std.specs.Prelude.{◌≡◌, ◌≤◌, get_or};
ghost use Rattle.numbers.specs.Numbers.{answered};
ghost use Rattle.records.specs.Values.{address_at_lem};
ghost use Rattle.records.specs.Reading.{fixed, of_kind_lem};

use crate::{
    AssociationState, ByteCounterUnits, ClientAssociation, LinkMetricQuery, MacAddr,
    Profile2ApCapability, Record, RecordKind, RecordRead,
};
use numbers::Refusal;

// Reads a value by its kind (rule K1). Each kind has a function of its own, also where two differ in the record alone:
// the kinds are a table that is read line by line, beside that of rule K2.
pub(crate) fn read_as(kind: RecordKind, s: &[u8]) -> Result<RecordRead, Refusal>
    ensures { answered result ≡ of_kind_lem kind s.now }
{
    match kind {
        RecordKind::EndOfMessage => read_end_of_message(s),
        RecordKind::AlMacAddress => read_al_mac_address(s),
        RecordKind::MacAddress => read_mac_address(s),
        RecordKind::SearchedRole => read_searched_role(s),
        RecordKind::SupportedRole => read_supported_role(s),
        RecordKind::SupportedFreqBand => read_supported_freq_band(s),
        RecordKind::Ieee1905ProfileVersion => read_ieee1905_profile_version(s),
        RecordKind::LinkMetricResultCode => read_link_metric_result_code(s),
        RecordKind::LinkMetricQuery => read_link_metric_query(s),
        RecordKind::ClientAssociation => read_client_association(s),
        RecordKind::MultiApProfile => read_multi_ap_profile(s),
        RecordKind::Profile2ApCapability => read_profile2_ap_capability(s),
    }
}

#[tactic(auto, unfolding(crate::specs::Reading::empty))]
fn read_end_of_message(s: &[u8]) -> Result<RecordRead, Refusal>
    ensures { answered result ≡ of_kind_lem RecordKind.EndOfMessage s.now }
{
    if 0 < s.len() {
        return Err(Refusal::LeftOver);
    }
    Ok(RecordRead {
        value: Record::EndOfMessage,
        consumed: 0,
    })
}

fn read_al_mac_address(s: &[u8]) -> Result<RecordRead, Refusal>
    ensures { answered result ≡ of_kind_lem RecordKind.AlMacAddress s.now }
{
    fixed(6, true, Record::AlMacAddress(address_at(s, 0)), s)
}

fn read_mac_address(s: &[u8]) -> Result<RecordRead, Refusal>
    ensures { answered result ≡ of_kind_lem RecordKind.MacAddress s.now }
{
    fixed(6, true, Record::MacAddress(address_at(s, 0)), s)
}

fn read_searched_role(s: &[u8]) -> Result<RecordRead, Refusal>
    ensures { answered result ≡ of_kind_lem RecordKind.SearchedRole s.now }
{
    let role = byte_at(s, 0);
    fixed(1, role == 0, Record::SearchedRole(role), s)
}

fn read_supported_role(s: &[u8]) -> Result<RecordRead, Refusal>
    ensures { answered result ≡ of_kind_lem RecordKind.SupportedRole s.now }
{
    let role = byte_at(s, 0);
    fixed(1, role == 0, Record::SupportedRole(role), s)
}

fn read_supported_freq_band(s: &[u8]) -> Result<RecordRead, Refusal>
    ensures { answered result ≡ of_kind_lem RecordKind.SupportedFreqBand s.now }
{
    let band = byte_at(s, 0).into();
    fixed(1, true, Record::SupportedFreqBand(band), s)
}

fn read_ieee1905_profile_version(s: &[u8]) -> Result<RecordRead, Refusal>
    ensures { answered result ≡ of_kind_lem RecordKind.Ieee1905ProfileVersion s.now }
{
    let version = byte_at(s, 0).into();
    fixed(1, true, Record::Ieee1905ProfileVersion(version), s)
}

fn read_link_metric_result_code(s: &[u8]) -> Result<RecordRead, Refusal>
    ensures { answered result ≡ of_kind_lem RecordKind.LinkMetricResultCode s.now }
{
    let code = byte_at(s, 0).into();
    fixed(1, true, Record::LinkMetricResultCode(code), s)
}

// Only a query about one neighbour, whose first byte is 1, has an address (rule K2).
fn read_link_metric_query(s: &[u8]) -> Result<RecordRead, Refusal>
    ensures { answered result ≡ of_kind_lem RecordKind.LinkMetricQuery s.now }
{
    let neighbor_type = byte_at(s, 0);
    if neighbor_type == 1 {
        let query = LinkMetricQuery {
            neighbor_type,
            neighbor_mac: Some(address_at(s, 1)),
            requested_metrics: byte_at(s, 7),
        };
        return fixed(8, true, Record::LinkMetricQuery(query), s);
    }
    let query = LinkMetricQuery {
        neighbor_type,
        neighbor_mac: None,
        requested_metrics: byte_at(s, 1),
    };
    fixed(2, true, Record::LinkMetricQuery(query), s)
}

pub fn read_client_association(s: &[u8]) -> Result<RecordRead, Refusal>
    ensures { answered result ≡ of_kind_lem RecordKind.ClientAssociation s.now }
{
    let last = byte_at(s, 12);
    let association = ClientAssociation {
        sta_mac: address_at(s, 0),
        ap_mac: address_at(s, 6),
        association_state: AssociationState::from_u8(last),
    };
    fixed(
        13,
        last % 128 == 0,
        Record::ClientAssociation(association),
        s,
    )
}

fn read_multi_ap_profile(s: &[u8]) -> Result<RecordRead, Refusal>
    ensures { answered result ≡ of_kind_lem RecordKind.MultiApProfile s.now }
{
    let first = byte_at(s, 0);
    fixed(1, 0 < first, Record::MultiApProfile(first.into()), s)
}

// Byte 2 holds the units, three flags and three reserved bits (rule K6). The reserved bits are kept.
fn read_profile2_ap_capability(s: &[u8]) -> Result<RecordRead, Refusal>
    ensures { answered result ≡ of_kind_lem RecordKind.Profile2ApCapability s.now }
{
    let flags = byte_at(s, 2);
    let capability = Profile2ApCapability {
        max_prioritization_rules: byte_at(s, 0),
        reserved: byte_at(s, 1),
        byte_counter_units: ByteCounterUnits::from_u8(flags / 64),
        prioritization: flags / 32 % 2 == 1,
        dpp_onboarding: flags / 16 % 2 == 1,
        traffic_separation: flags / 8 % 2 == 1,
        flags_reserved: flags % 8,
        max_vids: byte_at(s, 3),
    };
    fixed(4, true, Record::Profile2ApCapability(capability), s)
}

// A layout of `size` bytes, and the record in them. A value that ends inside the layout is refused, and then one that
// its kind's check refuses (rule K7). Bytes after the layout are the rest (rule K1).
#[tactic(auto, unfolding(crate::specs::Reading::fixed))]
fn fixed(size: usize, accepted: bool, item: Record, s: &[u8]) -> Result<RecordRead, Refusal>
    ensures { answered result ≡ fixed size accepted item s.now }
{
    if s.len() < size {
        return Err(Refusal::CutShort);
    }
    if accepted {
        return Ok(RecordRead {
            value: item,
            consumed: size,
        });
    }
    Err(Refusal::BadValue)
}

// The address in the six bytes from p; the layouts have addresses at 0, 1 and 6.
fn address_at(s: &[u8], p: usize) -> MacAddr
    requires { p ≤ 6 }
    ensures { result ≡ address_at_lem s.now p }
{
    MacAddr {
        b0: byte_at(s, p),
        b1: byte_at(s, p + 1),
        b2: byte_at(s, p + 2),
        b3: byte_at(s, p + 3),
        b4: byte_at(s, p + 4),
        b5: byte_at(s, p + 5),
    }
}

// The byte at i, or 0 past the end. So every value has a record to speak of, even one that is too short.
fn byte_at(s: &[u8], i: usize) -> u8
    ensures { result ≡ get_or s.now i 0 }
{
    s.get(i).copied().unwrap_or(0)
}
