// The record kinds (rule K2) as they cross to C, by their fields (rule C6): plain structs of five shapes, as they are
// read and as they are to be written. `refusal` is 0 where nothing is refused; otherwise every other field is 0 or
// false. C has no enum with values, so that a flag stands beside a field. The public calls are no `From`: `Firmness`
// has them by their names.
#![tactic(auto)]

use records::MacAddr;

mod reading;
mod shapes;
mod writing;

pub use reading::{
    address_numbers, association_numbers, byte_numbers, capability_numbers, query_numbers,
};
pub use writing::{
    address_record, association_record, byte_record, capability_record, query_record, write_meant,
};

// A query for link metrics. `neighbor` is there only if `has_neighbor` says so, and 0 otherwise.
#[repr(C)]
#[derive(Clone, Copy, Default)]
pub struct AshlarQuery {
    pub neighbor: MacAddr,
    pub neighbor_type: u8,
    pub has_neighbor: bool,
    pub metrics: u8,
}

// A station joined an access point, or left it (rule K5).
#[repr(C)]
#[derive(Clone, Copy, Default)]
pub struct AshlarAssociation {
    pub station: MacAddr,
    pub point: MacAddr,
    pub joined: bool,
}

// A capability, with its reserved byte and bits (rule K6). The units are 0 bytes, 1 KiB, 2 MiB, 3 reserved.
#[repr(C)]
#[derive(Clone, Copy, Default)]
pub struct AshlarCapability {
    pub max_prioritization_rules: u8,
    pub reserved: u8,
    pub byte_counter_units: u8,
    pub prioritization: bool,
    pub dpp_onboarding: bool,
    pub traffic_separation: bool,
    pub flags_reserved: u8,
    pub max_vids: u8,
}

// A value of kind 1 or 2, as it was read.
#[repr(C)]
#[derive(Clone, Copy, Default)]
pub struct AshlarAddressRead {
    pub consumed: usize,
    pub rest: usize,
    pub address: MacAddr,
    pub refusal: u8,
}

// A value of kind 12, 13, 15, 16, 26 or 0xB3, as it was read. `reserved`: the byte has no name (rule K5).
#[repr(C)]
#[derive(Clone, Copy, Default)]
pub struct AshlarByteRead {
    pub consumed: usize,
    pub rest: usize,
    pub byte: u8,
    pub reserved: bool,
    pub refusal: u8,
}

// A value of kind 8, as it was read.
#[repr(C)]
#[derive(Clone, Copy, Default)]
pub struct AshlarQueryRead {
    pub consumed: usize,
    pub rest: usize,
    pub query: AshlarQuery,
    pub refusal: u8,
}

// A value of kind 0x92, as it was read, with the byte that says joined or left.
#[repr(C)]
#[derive(Clone, Copy, Default)]
pub struct AshlarAssociationRead {
    pub consumed: usize,
    pub rest: usize,
    pub association: AshlarAssociation,
    pub state: u8,
    pub refusal: u8,
}

// A value of kind 0xB4, as it was read, with the byte that holds units, flags and reserved bits.
#[repr(C)]
#[derive(Clone, Copy, Default)]
pub struct AshlarCapabilityRead {
    pub consumed: usize,
    pub rest: usize,
    pub capability: AshlarCapability,
    pub flags: u8,
    pub refusal: u8,
}

// What a record holds for C: the fields of one of the five shapes, with the raw byte beside a named value. The end
// marker holds nothing.
#[derive(Clone, Copy)]
pub(crate) enum Shape {
    Nothing,
    Address(MacAddr),
    Byte {
        byte: u8,
        reserved: bool,
    },
    Query(AshlarQuery),
    Association {
        association: AshlarAssociation,
        state: u8,
    },
    Capability {
        capability: AshlarCapability,
        flags: u8,
    },
}
