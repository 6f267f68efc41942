// The fields of records in answers.
use crate::Code;
use answer_lines::Answers;
use records::{
    ClientAssociation, Ieee1905ProfileVersion, LinkMetricQuery, LinkMetricResultCode, MacAddr,
    MultiApProfile, Profile2ApCapability, Record, SupportedFreqBand,
};

// An address after the byte that sets it off.
pub fn put_address(m: MacAddr, before: u8, text: &mut Answers) {
    text.put_shown(before, &[m.b0, m.b1, m.b2, m.b3, m.b4, m.b5]);
}

fn put_code(code: Code, text: &mut Answers) {
    match code {
        Code::Named(number) => text.put_next(number as u64),
        Code::Reserved(number) => {
            text.put_byte(b' ');
            text.put_after(b'r', number as u64);
        }
    }
}

impl From<SupportedFreqBand> for Code {
    fn from(band: SupportedFreqBand) -> Self {
        match band {
            SupportedFreqBand::Reserved(number) => Code::Reserved(number),
            named => Code::Named(named.into()),
        }
    }
}

impl From<Ieee1905ProfileVersion> for Code {
    fn from(version: Ieee1905ProfileVersion) -> Self {
        match version {
            Ieee1905ProfileVersion::Reserved(number) => Code::Reserved(number),
            named => Code::Named(named.into()),
        }
    }
}

impl From<LinkMetricResultCode> for Code {
    fn from(res: LinkMetricResultCode) -> Self {
        match res {
            LinkMetricResultCode::UnknownCode(number) => Code::Reserved(number),
            named => Code::Named(named.into()),
        }
    }
}

impl From<MultiApProfile> for Code {
    fn from(profile: MultiApProfile) -> Self {
        match profile {
            MultiApProfile::Reserved(number) => Code::Reserved(number),
            named => Code::Named(named.into()),
        }
    }
}

fn put_query(query: LinkMetricQuery, text: &mut Answers) {
    text.put_next(query.neighbor_type as u64);
    match query.neighbor_mac {
        Some(address) => put_address(address, b' ', text),
        None => text.put(b" -"),
    }
    text.put_next(query.requested_metrics as u64);
}

fn put_association(client: ClientAssociation, text: &mut Answers) {
    put_address(client.sta_mac, b' ', text);
    put_address(client.ap_mac, b' ', text);
    text.put_next(client.association_state as u64);
}

fn put_capability(p: Profile2ApCapability, text: &mut Answers) {
    text.put_next_three(
        p.max_prioritization_rules as u64,
        p.reserved as u64,
        p.byte_counter_units as u64,
    );
    text.put_next_three(
        p.prioritization as u64,
        p.dpp_onboarding as u64,
        p.traffic_separation as u64,
    );
    text.put_next(p.flags_reserved as u64);
    text.put_next(p.max_vids as u64);
}

// A record's fields, each after a blank.
pub fn put_record(record: Record, text: &mut Answers) {
    match record {
        Record::EndOfMessage => {}
        Record::AlMacAddress(address) => put_address(address, b' ', text),
        Record::MacAddress(address) => put_address(address, b' ', text),
        Record::SearchedRole(role) => text.put_next(role as u64),
        Record::SupportedRole(role) => text.put_next(role as u64),
        Record::SupportedFreqBand(band) => put_code(band.into(), text),
        Record::Ieee1905ProfileVersion(version) => put_code(version.into(), text),
        Record::LinkMetricResultCode(res) => put_code(res.into(), text),
        Record::LinkMetricQuery(query) => put_query(query, text),
        Record::ClientAssociation(client) => put_association(client, text),
        Record::MultiApProfile(profile) => put_code(profile.into(), text),
        Record::Profile2ApCapability(p) => put_capability(p, text),
    }
}
