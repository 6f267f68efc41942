// The record kinds (rule K2), read by their code (rule K1). The crate `record_writing` writes them. The types have the
// original's names (cmdu_codec.rs). These calls know the record kinds alone, and refuse any other code by 16. The crate
// `kinds` knows every kind.
#![tactic(auto)]

use numbers::Refusal;

mod reading;

ghost use Rattle.std.specs.Prelude.{◌≡◌};
ghost use Rattle.numbers.specs.Numbers.{answered, mapped};
ghost use Rattle.records.specs.Values.{band_of_lem, band_byte_lem, version_of_lem, version_byte_lem, result_of, result_byte_lem, profile_of_lem, profile_byte_lem, state_of, state_byte_lem, units_of};
ghost use Rattle.records.specs.Kinds.{record_kinds, code_of, kind_of};
ghost use Rattle.records.specs.Reading.{read_record_lem, with_code, is_record_lem};

// A caller that reads client associations and no other kind uses their own reader.
pub use reading::read_client_association;

// An address, its six bytes in their order (rule K3). It is passed to C as it is.
#[repr(C)]
#[derive(Clone, Copy, PartialEq, Eq, Default)]
pub struct MacAddr {
    pub b0: u8,
    pub b1: u8,
    pub b2: u8,
    pub b3: u8,
    pub b4: u8,
    pub b5: u8,
}

// A band by its name, or reserved with its number (rule K5).
#[derive(Clone, Copy, PartialEq, Eq)]
pub enum SupportedFreqBand {
    Band_802_11_2_4,
    Band_802_11_5,
    Band_802_11_60,
    Reserved(u8),
}

impl From<u8> for SupportedFreqBand {
    ghost from_gives = { λ input r. r ≡ band_of_lem input };

    fn from(input: u8) -> Self {
        match input {
            0 => Self::Band_802_11_2_4,
            1 => Self::Band_802_11_5,
            2 => Self::Band_802_11_60,
            _ => Self::Reserved(input),
        }
    }
}

impl From<SupportedFreqBand> for u8 {
    ghost from_gives = { λ code r. r ≡ band_byte_lem code };

    fn from(code: SupportedFreqBand) -> Self {
        match code {
            SupportedFreqBand::Band_802_11_2_4 => 0,
            SupportedFreqBand::Band_802_11_5 => 1,
            SupportedFreqBand::Band_802_11_60 => 2,
            SupportedFreqBand::Reserved(number) => number,
        }
    }
}

// A version by its name, or reserved with its number (rule K5).
#[derive(Clone, Copy, PartialEq, Eq)]
pub enum Ieee1905ProfileVersion {
    Ieee1905_1,
    Ieee1905_1a,
    Reserved(u8),
}

impl From<u8> for Ieee1905ProfileVersion {
    ghost from_gives = { λ input r. r ≡ version_of_lem input };

    fn from(input: u8) -> Self {
        match input {
            0 => Self::Ieee1905_1,
            1 => Self::Ieee1905_1a,
            _ => Self::Reserved(input),
        }
    }
}

impl From<Ieee1905ProfileVersion> for u8 {
    ghost from_gives = { λ code r. r ≡ version_byte_lem code };

    fn from(code: Ieee1905ProfileVersion) -> Self {
        match code {
            Ieee1905ProfileVersion::Ieee1905_1 => 0,
            Ieee1905ProfileVersion::Ieee1905_1a => 1,
            Ieee1905ProfileVersion::Reserved(number) => number,
        }
    }
}

// A result by its name, or reserved with its number (rule K5).
#[derive(Clone, Copy, PartialEq, Eq)]
pub enum LinkMetricResultCode {
    InvalidNeighbor,
    UnknownCode(u8),
}

impl From<u8> for LinkMetricResultCode {
    ghost from_gives = { λ input r. r ≡ result_of input };

    fn from(input: u8) -> Self {
        match input {
            0 => Self::InvalidNeighbor,
            _ => Self::UnknownCode(input),
        }
    }
}

impl From<LinkMetricResultCode> for u8 {
    ghost from_gives = { λ code r. r ≡ result_byte_lem code };

    fn from(code: LinkMetricResultCode) -> Self {
        match code {
            LinkMetricResultCode::InvalidNeighbor => 0,
            LinkMetricResultCode::UnknownCode(number) => number,
        }
    }
}

// A query about one neighbour has its address; a query about all neighbours has none.
#[derive(Clone, Copy)]
pub struct LinkMetricQuery {
    pub neighbor_type: u8,
    pub neighbor_mac: Option<MacAddr>,
    pub requested_metrics: u8,
}

// Whether the station joined the access point or left it (rule K5).
#[derive(Clone, Copy, PartialEq, Eq)]
pub enum AssociationState {
    LeftBss,
    JoinedBss,
}

impl AssociationState {
    // The last byte of a client association that is accepted, 0x80 or 0x00. This is no `From`, which would be public:
    // no other byte is a state.
    pub(crate) fn from_u8(input: u8) -> Self
        ensures { result ≡ state_of input }
    {
        if input == 0x80 {
            Self::JoinedBss
        } else {
            Self::LeftBss
        }
    }
}

impl From<AssociationState> for u8 {
    ghost from_gives = { λ state r. r ≡ state_byte_lem state };

    fn from(state: AssociationState) -> Self {
        match state {
            AssociationState::LeftBss => 0,
            AssociationState::JoinedBss => 0x80,
        }
    }
}

#[derive(Clone, Copy)]
pub struct ClientAssociation {
    pub sta_mac: MacAddr,
    pub ap_mac: MacAddr,
    pub association_state: AssociationState,
}

// A profile by its name, or reserved with its number (rule K5).
#[derive(Clone, Copy, PartialEq, Eq)]
pub enum MultiApProfile {
    Profile1,
    Profile2,
    Profile3,
    Reserved(u8),
}

impl From<u8> for MultiApProfile {
    ghost from_gives = { λ input r. r ≡ profile_of_lem input };

    fn from(input: u8) -> Self {
        match input {
            1 => Self::Profile1,
            2 => Self::Profile2,
            3 => Self::Profile3,
            _ => Self::Reserved(input),
        }
    }
}

impl From<MultiApProfile> for u8 {
    ghost from_gives = { λ code r. r ≡ profile_byte_lem code };

    fn from(code: MultiApProfile) -> Self {
        match code {
            MultiApProfile::Profile1 => 1,
            MultiApProfile::Profile2 => 2,
            MultiApProfile::Profile3 => 3,
            MultiApProfile::Reserved(number) => number,
        }
    }
}

// The units of byte counters (rule K6).
#[derive(Clone, Copy)]
pub enum ByteCounterUnits {
    Bytes,
    KiB,
    MiB,
    Reserved,
}

impl ByteCounterUnits {
    // The units that a number of two bits stands for. Whoever is given a greater one has to refuse it, so this is no
    // `From`; and `Firmness` has it by this name.
    pub fn from_u8(input: u8) -> Self
        ensures { result ≡ units_of input }
    {
        match input {
            0 => Self::Bytes,
            1 => Self::KiB,
            2 => Self::MiB,
            _ => Self::Reserved,
        }
    }
}

// The fields of a capability, with its reserved byte and bits (rule K6).
#[derive(Clone, Copy)]
pub struct Profile2ApCapability {
    pub max_prioritization_rules: u8,
    pub reserved: u8,
    pub byte_counter_units: ByteCounterUnits,
    pub prioritization: bool,
    pub dpp_onboarding: bool,
    pub traffic_separation: bool,
    pub flags_reserved: u8,
    pub max_vids: u8,
}

// The codes of the record kinds (rule K2). They stay numbers: the wire and C give a kind by its code.
pub const END_OF_MESSAGE: u8 = 0;

pub const AL_MAC_ADDRESS: u8 = 1;

pub const MAC_ADDRESS: u8 = 2;

pub const SEARCHED_ROLE: u8 = 13;

pub const SUPPORTED_ROLE: u8 = 15;

pub const SUPPORTED_FREQ_BAND: u8 = 16;

pub const IEEE1905_PROFILE_VERSION: u8 = 26;

pub const LINK_METRIC_RESULT_CODE: u8 = 12;

pub const LINK_METRIC_QUERY: u8 = 8;

pub const CLIENT_ASSOCIATION: u8 = 0x92;

pub const MULTI_AP_PROFILE: u8 = 0xB3;

pub const PROFILE2_AP_CAPABILITY: u8 = 0xB4;

// The record kinds (rule K2).
#[derive(Clone, Copy)]
pub enum RecordKind {
    EndOfMessage,
    AlMacAddress,
    MacAddress,
    SearchedRole,
    SupportedRole,
    SupportedFreqBand,
    Ieee1905ProfileVersion,
    LinkMetricResultCode,
    LinkMetricQuery,
    ClientAssociation,
    MultiApProfile,
    Profile2ApCapability,
}

// A record of any kind. A role is kept as its byte, although reading accepts only 0, the registrar.
#[derive(Clone, Copy)]
pub enum Record {
    EndOfMessage,
    AlMacAddress(MacAddr),
    MacAddress(MacAddr),
    SearchedRole(u8),
    SupportedRole(u8),
    SupportedFreqBand(SupportedFreqBand),
    Ieee1905ProfileVersion(Ieee1905ProfileVersion),
    LinkMetricResultCode(LinkMetricResultCode),
    LinkMetricQuery(LinkMetricQuery),
    ClientAssociation(ClientAssociation),
    MultiApProfile(MultiApProfile),
    Profile2ApCapability(Profile2ApCapability),
}

// What reading a value finds (rule K1): the record, and how many bytes its layout consumed. The bytes after them are
// the rest.
#[derive(Clone, Copy)]
pub struct RecordRead {
    pub value: Record,
    pub consumed: usize,
}

// The kind that has a code.
fn kind_of(code: u8) -> Result<RecordKind, Refusal>
    ensures { answered result ≡ with_code code record_kinds }
{
    match code {
        END_OF_MESSAGE => Ok(RecordKind::EndOfMessage),
        AL_MAC_ADDRESS => Ok(RecordKind::AlMacAddress),
        MAC_ADDRESS => Ok(RecordKind::MacAddress),
        SEARCHED_ROLE => Ok(RecordKind::SearchedRole),
        SUPPORTED_ROLE => Ok(RecordKind::SupportedRole),
        SUPPORTED_FREQ_BAND => Ok(RecordKind::SupportedFreqBand),
        IEEE1905_PROFILE_VERSION => Ok(RecordKind::Ieee1905ProfileVersion),
        LINK_METRIC_RESULT_CODE => Ok(RecordKind::LinkMetricResultCode),
        LINK_METRIC_QUERY => Ok(RecordKind::LinkMetricQuery),
        CLIENT_ASSOCIATION => Ok(RecordKind::ClientAssociation),
        MULTI_AP_PROFILE => Ok(RecordKind::MultiApProfile),
        PROFILE2_AP_CAPABILITY => Ok(RecordKind::Profile2ApCapability),
        _ => Err(Refusal::UnknownKind),
    }
}

// Reads the value s by the record kind with this code (rule K1).
#[tactic(auto, unfolding(crate::specs::Reading::read_record_lem))]
pub fn read_record(code: u8, s: &[u8]) -> Result<RecordRead, Refusal>
    ensures { answered result ≡ read_record_lem code s.now }
{
    let kind = kind_of(code)?;
    reading::read_as(kind, s)
}

// The other way round: the code of a record's kind (rule K2).
pub fn code_of(item: Record) -> u8
    ensures { result ≡ code_of (kind_of item) }
{
    match item {
        Record::EndOfMessage => END_OF_MESSAGE,
        Record::AlMacAddress(_) => AL_MAC_ADDRESS,
        Record::MacAddress(_) => MAC_ADDRESS,
        Record::SearchedRole(_) => SEARCHED_ROLE,
        Record::SupportedRole(_) => SUPPORTED_ROLE,
        Record::SupportedFreqBand(_) => SUPPORTED_FREQ_BAND,
        Record::Ieee1905ProfileVersion(_) => IEEE1905_PROFILE_VERSION,
        Record::LinkMetricResultCode(_) => LINK_METRIC_RESULT_CODE,
        Record::LinkMetricQuery(_) => LINK_METRIC_QUERY,
        Record::ClientAssociation(_) => CLIENT_ASSOCIATION,
        Record::MultiApProfile(_) => MULTI_AP_PROFILE,
        Record::Profile2ApCapability(_) => PROFILE2_AP_CAPABILITY,
    }
}

// Whether a record kind has this code (rule K2).
pub fn is_record(code: u8) -> bool
    ensures { result ≡ is_record_lem code }
{
    kind_of(code).is_ok()
}

// Reads like `read_record`, for a caller that needs only the number of bytes consumed (rule K1).
pub fn measure(code: u8, s: &[u8]) -> Result<usize, Refusal>
    ensures { answered result ≡ mapped (λ x. x.consumed) (read_record_lem code s.now) }
{
    let read = read_record(code, s)?;
    Ok(read.consumed)
}
