// The other way round: the record that a C caller's fields mean, and its TLV (rules O1 and O3).
ghost use Rattle.std.specs.Prelude.{◌≡◌, length};
ghost use Rattle.numbers.specs.Numbers.{answered};
ghost use Rattle.framing.specs.Tlv.{leaves};
ghost use Rattle.c_records.specs.Writing.{address_record_lem, byte_record_lem, query_record_lem, association_record_lem, capability_record_lem, meant_size, meant_bytes};

use crate::{AshlarAssociation, AshlarCapability, AshlarQuery};
use numbers::Refusal;
use records::{ByteCounterUnits, LinkMetricQuery, MacAddr, Profile2ApCapability, Record};

// An address under the code of its kind.
#[tactic(auto, unfolding(crate::specs::Writing::address_record_lem))]
pub fn address_record(code: u8, address: MacAddr) -> Result<Record, Refusal>
    ensures { answered result ≡ address_record_lem code address }
{
    match code {
        records::AL_MAC_ADDRESS => Ok(Record::AlMacAddress(address)),
        records::MAC_ADDRESS => Ok(Record::MacAddress(address)),
        _ => Err(Refusal::UnknownKind),
    }
}

// A byte under the code of its kind: the record that is read from it. Where its kind's own check refuses it, no reading
// gives it; a code of another shape reads no single byte.
pub fn byte_record(code: u8, byte: u8) -> Result<Record, Refusal>
    ensures { answered result ≡ byte_record_lem code byte }
{
    match records::read_record(code, &[byte]) {
        Ok(read) => Ok(read.value),
        Err(Refusal::BadValue) => Err(Refusal::NeverRead),
        Err(_) => Err(Refusal::UnknownKind),
    }
}

// A query. One without a neighbour has no address: a neighbour other than 0 that isn't there is never read.
#[tactic(auto, unfolding(crate::specs::Writing::query_record_lem))]
pub fn query_record(query: AshlarQuery) -> Result<Record, Refusal>
    ensures { answered result ≡ query_record_lem query }
{
    if !query.has_neighbor && query.neighbor != c_stations::no_address() {
        return Err(Refusal::NeverRead);
    }
    Ok(Record::LinkMetricQuery(LinkMetricQuery {
        neighbor_type: query.neighbor_type,
        neighbor_mac: query.has_neighbor.then_some(query.neighbor),
        requested_metrics: query.metrics,
    }))
}

// An association.
pub fn association_record(association: AshlarAssociation) -> Result<Record, Refusal>
    ensures { answered result ≡ association_record_lem association }
{
    let station = association.station;
    let point = association.point;
    let event = c_stations::association_with(station, point, association.joined);
    Ok(Record::ClientAssociation(event))
}

// A capability. There are units up to 3.
pub fn capability_record(capability: AshlarCapability) -> Result<Record, Refusal>
    ensures { answered result ≡ capability_record_lem capability }
{
    if 3 < capability.byte_counter_units {
        return Err(Refusal::NeverRead);
    }
    Ok(Record::Profile2ApCapability(Profile2ApCapability {
        max_prioritization_rules: capability.max_prioritization_rules,
        reserved: capability.reserved,
        byte_counter_units: ByteCounterUnits::from_u8(capability.byte_counter_units),
        prioritization: capability.prioritization,
        dpp_onboarding: capability.dpp_onboarding,
        traffic_separation: capability.traffic_separation,
        flags_reserved: capability.flags_reserved,
        max_vids: capability.max_vids,
    }))
}

// Writes the TLV of the record that is meant at the start of `out` (rules O1 and O3).
pub fn write_meant(meant: Result<Record, Refusal>, out: &mut [u8]) -> Result<usize, Refusal>
    ensures answer { answered result ≡ meant_size (answered meant) (length out.old) }
    ensures bytes { out.new ≡ leaves (meant_size (answered meant) (length out.old)) (meant_bytes (answered meant)) out.old }
{
    record_writing::write_record(meant?, out)
}
