// Framing, the lowest layer of the protocol: a TLV and the CMDU header, each read and written (rules B2 to B7).
// The walk over a payload's TLVs is the crate `walking`.
#![tactic(auto)]

ghost use Rattle.std.specs.Prelude.{◌≡◌, ◌++◌, ◌≤◌, length, drop};
ghost use Rattle.numbers.specs.Numbers.{answered};
ghost use Rattle.numbers.specs.Parts.{behind};
ghost use Rattle.framing.specs.Tlv.{read_tlv_lem, value_in_lem, value_from, write_size, header, tlv_bytes, leaves};
ghost use Rattle.framing.specs.Cmdu.{read_header, flags_for_lem, header_bytes_lem, header_size};

use numbers::{Refusal, be16};

// The longest value that a length in two bytes can say (rule B5).
const LONGEST_VALUE: usize = 65535;

// What reading a TLV finds (rule B3): its type, the length of its value, and the bytes consumed. The value follows the
// first three bytes.
#[derive(Clone, Copy)]
pub struct TlvRead {
    pub tlv_type: u8,
    pub value_length: usize,
    pub consumed: usize,
}

// The header of a CMDU, every field as it stands there (rule B6). `last_fragment` is bit 7 of `flags`.
#[repr(C)]
#[derive(Clone, Copy)]
pub struct CmduHeader {
    pub message_version: u8,
    pub reserved: u8,
    pub message_type: u16,
    pub message_id: u16,
    pub fragment: u8,
    pub flags: u8,
    pub last_fragment: bool,
}

// What a header that is written says (rule B7). Its reserved byte and the other bits of its flags are 0.
#[repr(C)]
#[derive(Clone, Copy)]
pub struct CmduFields {
    pub message_version: u8,
    pub message_type: u16,
    pub message_id: u16,
    pub fragment: u8,
    pub last_fragment: bool,
}

// Reads the TLV at the start of s (rule B3).
pub fn read_tlv(s: &[u8]) -> Result<TlvRead, Refusal>
    ensures { answered result ≡ read_tlv_lem s.now }
{
    if s.len() < 3 {
        return Err(Refusal::TooFewBytes(3 - s.len()));
    }
    let value_length = be16(s[1], s[2]);
    let consumed = 3 + value_length;
    if s.len() < consumed {
        return Err(Refusal::RunsPastEnd(consumed - s.len()));
    }
    Ok(TlvRead {
        tlv_type: s[0],
        value_length,
        consumed,
    })
}

// The value of the TLV at the start of s, as a part of s (rule B3). Where no TLV reads, it is the empty part at the
// start of s (rule A5).
pub fn value(s: &[u8]) -> &[u8]
    ensures bytes { result.now ≡ value_in_lem (read_tlv_lem s.now) s.now }
    ensures place { result.ref_ptr ≡ behind (value_from (read_tlv_lem s.now)) s.entry }
{
    match read_tlv(s) {
        Ok(tlv) => &s[3..tlv.consumed],
        Err(_) => &s[0..0],
    }
}

// Writes the first three bytes of a TLV whose value has `value_length` bytes, if there is room for the whole TLV (rule
// B5). Whoever writes the value is then lent the room from byte 3 on.
pub fn write_header(tlv_type: u8, value_length: usize, out: &mut [u8]) -> Result<usize, Refusal>
    ensures answer { answered result ≡ write_size value_length (length out.old) }
    ensures bytes { out.new ≡ leaves (write_size value_length (length out.old)) (header tlv_type value_length) out.old }
{
    if LONGEST_VALUE < value_length {
        return Err(Refusal::ValueTooLong);
    }
    let size = 3 + value_length;
    if out.len() < size {
        return Err(Refusal::NoRoom);
    }
    out[0] = tlv_type;
    out[1] = (value_length / 256) as u8;
    out[2] = (value_length % 256) as u8;
    Ok(size)
}

// Copies the bytes to the start of `out`.
fn put_bytes(bytes: &[u8], out: &mut [u8])
    requires { length bytes.now ≤ length out.old }
    ensures { out.new ≡ bytes.now ++ drop (length bytes.now) out.old }
{
    out[..bytes.len()].copy_from_slice(bytes);
}

// Writes the TLV with this type and value at the start of `out` (rule B5).
pub fn write_tlv(tlv_type: u8, bytes: &[u8], out: &mut [u8]) -> Result<usize, Refusal>
    ensures answer { answered result ≡ write_size (length bytes.now) (length out.old) }
    ensures bytes { out.new ≡ leaves (write_size (length bytes.now) (length out.old)) (tlv_bytes tlv_type bytes.now) out.old }
{
    let size = write_header(tlv_type, bytes.len(), out)?;
    put_bytes(bytes, &mut out[3..]);
    Ok(size)
}

// Reads the header of the CMDU at the start of s (rule B6).
pub fn read_cmdu_header(s: &[u8]) -> Result<CmduHeader, Refusal>
    ensures { answered result ≡ read_header s.now }
{
    if s.len() < 8 {
        return Err(Refusal::TooFewBytes(8 - s.len()));
    }
    let message_type = be16(s[2], s[3]) as u16;
    let message_id = be16(s[4], s[5]) as u16;
    Ok(CmduHeader {
        message_version: s[0],
        reserved: s[1],
        message_type,
        message_id,
        fragment: s[6],
        flags: s[7],
        last_fragment: s[7] / 128 % 2 == 1,
    })
}

// The flags with this last mark (rule B7).
fn flags_for(last: bool) -> u8
    ensures { result ≡ flags_for_lem last }
{
    if last {
        return 128;
    }
    0
}

// The bytes of a header with these fields (rule B7).
fn header_bytes(fields: CmduFields) -> [u8; 8]
    ensures { result ≡ header_bytes_lem fields }
{
    [
        fields.message_version,
        0,
        (fields.message_type / 256) as u8,
        (fields.message_type % 256) as u8,
        (fields.message_id / 256) as u8,
        (fields.message_id % 256) as u8,
        fields.fragment,
        flags_for(fields.last_fragment),
    ]
}

// Writes a CMDU header with these fields at the start of `out` (rule B7).
pub fn write_cmdu_header(fields: CmduFields, out: &mut [u8]) -> Result<usize, Refusal>
    ensures answer { answered result ≡ header_size (length out.old) }
    ensures bytes { out.new ≡ leaves (header_size (length out.old)) (header_bytes_lem fields) out.old }
{
    if out.len() < 8 {
        return Err(Refusal::NoRoom);
    }
    let header = header_bytes(fields);
    put_bytes(&header, out);
    Ok(8)
}
