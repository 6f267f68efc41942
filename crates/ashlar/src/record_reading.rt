// Records by their fields (rule C6), read from a value.
ghost use Rattle.std.specs.Prelude.{◌≡◌, length};
ghost use Rattle.records.specs.declared.RecordKind.{RecordKind};
ghost use Rattle.records.specs.Kinds.{code_of};
ghost use Rattle.records.specs.Reading.{read_record_lem};
ghost use Rattle.c_records.specs.Shapes.{address_fields, byte_fields, query_fields, association_fields, capability_fields};
ghost use Rattle.c_records.specs.Reading.{read_in_shape, address_numbers_lem, byte_numbers_lem, query_numbers_lem, association_numbers_lem, capability_numbers_lem};

use c_records::{
    AshlarAddressRead, AshlarAssociationRead, AshlarByteRead, AshlarCapabilityRead, AshlarQueryRead,
};

// A value of kind 1 or 2: an address.
#[unsafe(no_mangle)]
pub extern "C" fn ashlar_read_address(code: u8, value: &[u8]) -> AshlarAddressRead
    ensures { result ≡ address_numbers_lem (read_in_shape address_fields (length value.now) (read_record_lem code value.now)) }
{
    c_records::address_numbers(records::read_record(code, value), value.len())
}

// A value of kind 12, 13, 15, 16, 26 or 0xB3: a byte.
#[unsafe(no_mangle)]
pub extern "C" fn ashlar_read_byte(code: u8, value: &[u8]) -> AshlarByteRead
    ensures { result ≡ byte_numbers_lem (read_in_shape byte_fields (length value.now) (read_record_lem code value.now)) }
{
    c_records::byte_numbers(records::read_record(code, value), value.len())
}

// A value of kind 8: a query for link metrics.
#[unsafe(no_mangle)]
pub extern "C" fn ashlar_read_query(value: &[u8]) -> AshlarQueryRead
    ensures { result ≡ query_numbers_lem (read_in_shape query_fields (length value.now) (read_record_lem (code_of RecordKind.LinkMetricQuery) value.now)) }
{
    c_records::query_numbers(
        records::read_record(records::LINK_METRIC_QUERY, value),
        value.len(),
    )
}

// A value of kind 0x92: a station joined an access point, or left it.
#[unsafe(no_mangle)]
pub extern "C" fn ashlar_read_association(value: &[u8]) -> AshlarAssociationRead
    ensures { result ≡ association_numbers_lem (read_in_shape association_fields (length value.now) (read_record_lem (code_of RecordKind.ClientAssociation) value.now)) }
{
    c_records::association_numbers(
        records::read_record(records::CLIENT_ASSOCIATION, value),
        value.len(),
    )
}

// A value of kind 0xB4: the capability of an access point.
#[unsafe(no_mangle)]
pub extern "C" fn ashlar_read_capability(value: &[u8]) -> AshlarCapabilityRead
    ensures { result ≡ capability_numbers_lem (read_in_shape capability_fields (length value.now) (read_record_lem (code_of RecordKind.Profile2ApCapability) value.now)) }
{
    c_records::capability_numbers(
        records::read_record(records::PROFILE2_AP_CAPABILITY, value),
        value.len(),
    )
}
