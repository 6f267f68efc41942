// Which records can be written (rule O1), and the bytes of a record's value.
ghost use Rattle.std.specs.Prelude.{◌≡◌, ℕ, [], ◌∷◌, ◌++◌, ◌<◌, ◌≤◌, List, length, take, drop};
ghost use Rattle.records.specs.Values.{octets, bit, units_code, flags_of, query_bytes, association_bytes, capability_bytes, bytes_of};
ghost use Rattle.record_writing.specs.Writing.{agrees, readable};

use records::{
    ByteCounterUnits, ClientAssociation, Ieee1905ProfileVersion, LinkMetricQuery,
    LinkMetricResultCode, MacAddr, MultiApProfile, Profile2ApCapability, Record, SupportedFreqBand,
};
use std::marker::Model;

// Whether reading can return this record (rule O1). A code that is given as reserved, with a byte that has a name, is
// read as that name; and the byte 0 is no profile.
pub(crate) fn is_readable(item: Record) -> bool
    ensures { result ≡ readable item }
{
    match item {
        Record::EndOfMessage => true,
        Record::AlMacAddress(_) => true,
        Record::MacAddress(_) => true,
        Record::SearchedRole(role) => role == 0,
        Record::SupportedRole(role) => role == 0,
        Record::SupportedFreqBand(band) => SupportedFreqBand::from(u8::from(band)) == band,
        Record::Ieee1905ProfileVersion(version) => {
            Ieee1905ProfileVersion::from(u8::from(version)) == version
        }
        Record::LinkMetricResultCode(result) => {
            LinkMetricResultCode::from(u8::from(result)) == result
        }
        Record::LinkMetricQuery(query) => query_readable(query),
        Record::ClientAssociation(_) => true,
        Record::MultiApProfile(profile) => {
            let byte = u8::from(profile);
            byte != 0 && MultiApProfile::from(byte) == profile
        }
        Record::Profile2ApCapability(capability) => capability.flags_reserved < 8,
    }
}

// A query has an address if its type is 1, and not otherwise (rule O1).
fn query_readable(query: LinkMetricQuery) -> bool
    ensures { result ≡ agrees query.neighbor_type query.neighbor_mac }
{
    query.neighbor_mac.is_some() == (query.neighbor_type == 1)
}

// A record's value. The longest is an association's, of 13 bytes.
#[derive(Drop)]
pub(crate) struct Value {
    bytes: [u8; 13],
    size: usize,
}

impl Model for Value {
    ghost Value = { List ℕ };

    ghost view = { λ v. take v.size v.bytes };

    ghost invariant = { λ v. v.size ≤ 13 };
}

impl Value {
    fn new<const N: usize>(bytes: [u8; N]) -> Self
        requires { N ≤ 13 }
        ensures { result ≡ bytes.entry }
    {
        let mut all = [0u8; 13];
        all[..N].copy_from_slice(&bytes);
        Value {
            bytes: all,
            size: N,
        }
    }

    pub(crate) fn as_slice(&self) -> &[u8]
        ensures { result.now ≡ self.now }
    {
        &self.bytes[..self.size]
    }
}

// Copies the value of a record to the start of `out`, which has room for it.
pub(crate) fn put_value(item: Record, out: &mut [u8])
    requires { length (bytes_of item) ≤ length out.old }
    ensures { out.new ≡ bytes_of item ++ drop (length (bytes_of item)) out.old }
{
    let value = value_of(item);
    let bytes = value.as_slice();
    out[..bytes.len()].copy_from_slice(bytes);
}

pub(crate) fn value_of(item: Record) -> Value
    ensures { result ≡ bytes_of item }
{
    match item {
        Record::EndOfMessage => Value::new([]),
        Record::AlMacAddress(address) => address_value(address),
        Record::MacAddress(address) => address_value(address),
        Record::SearchedRole(role) => Value::new([role]),
        Record::SupportedRole(role) => Value::new([role]),
        Record::SupportedFreqBand(band) => Value::new([band.into()]),
        Record::Ieee1905ProfileVersion(version) => Value::new([version.into()]),
        Record::LinkMetricResultCode(result) => Value::new([result.into()]),
        Record::LinkMetricQuery(query) => query_value(query),
        Record::ClientAssociation(association) => association_value(association),
        Record::MultiApProfile(profile) => Value::new([profile.into()]),
        Record::Profile2ApCapability(capability) => capability_value(capability),
    }
}

fn address_value(m: MacAddr) -> Value
    ensures { result ≡ octets m }
{
    Value::new([m.b0, m.b1, m.b2, m.b3, m.b4, m.b5])
}

fn query_value(query: LinkMetricQuery) -> Value
    ensures { result ≡ query_bytes query }
{
    let t = query.neighbor_type;
    let metrics = query.requested_metrics;
    match query.neighbor_mac {
        Some(m) => Value::new([t, m.b0, m.b1, m.b2, m.b3, m.b4, m.b5, metrics]),
        None => Value::new([t, metrics]),
    }
}

fn association_value(association: ClientAssociation) -> Value
    ensures { result ≡ association_bytes association }
{
    let s = association.sta_mac;
    let a = association.ap_mac;
    let state = u8::from(association.association_state);
    Value::new([
        s.b0, s.b1, s.b2, s.b3, s.b4, s.b5, a.b0, a.b1, a.b2, a.b3, a.b4, a.b5, state,
    ])
}

fn capability_value(c: Profile2ApCapability) -> Value
    ensures { result ≡ capability_bytes c }
{
    Value::new([
        c.max_prioritization_rules,
        c.reserved,
        flags_of(c),
        c.max_vids,
    ])
}

// Byte 2 of a capability: its units, its three flags and its reserved bits (rule K6).
fn flags_of(c: Profile2ApCapability) -> u8
    ensures { result ≡ flags_of c }
{
    units_byte(c.byte_counter_units) * 64
        + u8::from(c.prioritization) * 32
        + u8::from(c.dpp_onboarding) * 16
        + u8::from(c.traffic_separation) * 8
        + c.flags_reserved % 8
}

// The number of the units (rule K6). It is no `From`: `Firmness` has it by this name, with the bound.
pub fn units_byte(units: ByteCounterUnits) -> u8
    ensures { (result ≡ units_code units) × (result < 4) }
{
    match units {
        ByteCounterUnits::Bytes => 0,
        ByteCounterUnits::KiB => 1,
        ByteCounterUnits::MiB => 2,
        ByteCounterUnits::Reserved => 3,
    }
}
