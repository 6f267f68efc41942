// What is written into lent room: a TLV, a value of any kind, and records from their fields (rule C7).
ghost use Rattle.std.specs.Prelude.{◌≡◌, length};
ghost use Rattle.framing.specs.Tlv.{write_size, tlv_bytes, leaves};
ghost use Rattle.kinds.specs.Writing.{write_kind_lem, kind_bytes};
ghost use Rattle.c_records.specs.Writing.{address_record_lem, byte_record_lem, query_record_lem, association_record_lem, capability_record_lem, meant_size, meant_bytes};
ghost use Rattle.c_captures.specs.Numbers.{written_numbers_lem};

use c_captures::AshlarWritten;
use c_records::{AshlarAssociation, AshlarCapability, AshlarQuery};
use records::MacAddr;

// Writes a TLV of any type at the start of `out` (rule B5).
#[unsafe(no_mangle)]
pub extern "C" fn ashlar_write_tlv(tlv_type: u8, value: &[u8], out: &mut [u8]) -> AshlarWritten
    ensures answer { result ≡ written_numbers_lem (write_size (length value.now) (length out.old)) }
    ensures bytes { out.new ≡ leaves (write_size (length value.now) (length out.old)) (tlv_bytes tlv_type value.now) out.old }
{
    c_captures::written_numbers(framing::write_tlv(tlv_type, value, out))
}

// Writes the TLV of the kind with this code, from the bytes of a value that reads. The rest is not written (rule O2).
#[unsafe(no_mangle)]
pub extern "C" fn ashlar_write_kind(code: u8, bytes: &[u8], out: &mut [u8]) -> AshlarWritten
    ensures answer { result ≡ written_numbers_lem (write_kind_lem code bytes.now (length out.old)) }
    ensures bytes { out.new ≡ leaves (write_kind_lem code bytes.now (length out.old)) (kind_bytes code bytes.now) out.old }
{
    c_captures::written_numbers(kinds::write_kind(code, bytes, out))
}

// Writes the TLV of kind 1 or 2: an address.
#[unsafe(no_mangle)]
pub extern "C" fn ashlar_write_address(code: u8, address: MacAddr, out: &mut [u8]) -> AshlarWritten
    ensures answer { result ≡ written_numbers_lem (meant_size (address_record_lem code address) (length out.old)) }
    ensures bytes { out.new ≡ leaves (meant_size (address_record_lem code address) (length out.old)) (meant_bytes (address_record_lem code address)) out.old }
{
    let meant = c_records::address_record(code, address);
    c_captures::written_numbers(c_records::write_meant(meant, out))
}

// Writes the TLV of kind 12, 13, 15, 16, 26 or 0xB3: a byte.
#[unsafe(no_mangle)]
pub extern "C" fn ashlar_write_byte(code: u8, byte: u8, out: &mut [u8]) -> AshlarWritten
    ensures answer { result ≡ written_numbers_lem (meant_size (byte_record_lem code byte) (length out.old)) }
    ensures bytes { out.new ≡ leaves (meant_size (byte_record_lem code byte) (length out.old)) (meant_bytes (byte_record_lem code byte)) out.old }
{
    let meant = c_records::byte_record(code, byte);
    c_captures::written_numbers(c_records::write_meant(meant, out))
}

// Writes the TLV of kind 8: a query for link metrics.
#[unsafe(no_mangle)]
pub extern "C" fn ashlar_write_query(query: AshlarQuery, out: &mut [u8]) -> AshlarWritten
    ensures answer { result ≡ written_numbers_lem (meant_size (query_record_lem query) (length out.old)) }
    ensures bytes { out.new ≡ leaves (meant_size (query_record_lem query) (length out.old)) (meant_bytes (query_record_lem query)) out.old }
{
    let meant = c_records::query_record(query);
    c_captures::written_numbers(c_records::write_meant(meant, out))
}

// Writes the TLV of kind 0x92: a station joined an access point, or left it.
#[unsafe(no_mangle)]
pub extern "C" fn ashlar_write_association(
    association: AshlarAssociation,
    out: &mut [u8],
) -> AshlarWritten
    ensures answer { result ≡ written_numbers_lem (meant_size (association_record_lem association) (length out.old)) }
    ensures bytes { out.new ≡ leaves (meant_size (association_record_lem association) (length out.old)) (meant_bytes (association_record_lem association)) out.old }
{
    let meant = c_records::association_record(association);
    c_captures::written_numbers(c_records::write_meant(meant, out))
}

// Writes the TLV of kind 0xB4: the capability of an access point.
#[unsafe(no_mangle)]
pub extern "C" fn ashlar_write_capability(
    capability: AshlarCapability,
    out: &mut [u8],
) -> AshlarWritten
    ensures answer { result ≡ written_numbers_lem (meant_size (capability_record_lem capability) (length out.old)) }
    ensures bytes { out.new ≡ leaves (meant_size (capability_record_lem capability) (length out.old)) (meant_bytes (capability_record_lem capability)) out.old }
{
    let meant = c_records::capability_record(capability);
    c_captures::written_numbers(c_records::write_meant(meant, out))
}
