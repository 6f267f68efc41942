// Writing a record (rules O1, O3 and O4): its value alone, or the whole TLV.
#![tactic(auto)]

use numbers::Refusal;
use records::Record;

mod values;

ghost use Rattle.std.specs.Prelude.{◌≡◌, length, get_or};
ghost use Rattle.numbers.specs.Numbers.{answered};
ghost use Rattle.framing.specs.Tlv.{tlv_bytes, leaves};
ghost use Rattle.records.specs.Values.{bytes_of};
ghost use Rattle.records.specs.Kinds.{kind_of, code_of};
ghost use Rattle.record_writing.specs.Writing.{value_size, record_size_lem};

// Whoever gives a capability by its fields needs the number of its units.
pub use values::units_byte;

// How many bytes a record's value has (rule O4). `write_value` needs room for as many, `write_record` for 3 more.
pub fn size_of(item: Record) -> usize
    ensures { result ≡ length (bytes_of item) }
{
    let value = values::value_of(item);
    value.as_slice().len()
}

// The byte at place i of a record's value, or 0 past its end.
pub fn byte_at(item: Record, i: usize) -> u8
    ensures { result ≡ get_or (bytes_of item) i 0 }
{
    let value = values::value_of(item);
    value.as_slice().get(i).copied().unwrap_or(0)
}

// Writes the value of a record at the start of `out` (rule O4).
#[tactic(auto, unfolding(crate::specs::Writing::value_size))]
pub fn write_value(item: Record, out: &mut [u8]) -> Result<usize, Refusal>
    ensures answer { answered result ≡ value_size item (length out.old) }
    ensures bytes { out.new ≡ leaves (value_size item (length out.old)) (bytes_of item) out.old }
{
    if !values::is_readable(item) {
        return Err(Refusal::NeverRead);
    }
    let size = size_of(item);
    if out.len() < size {
        return Err(Refusal::NoRoom);
    }
    values::put_value(item, out);
    Ok(size)
}

// Writes the TLV of a record at the start of `out` (rules O1 and O3). The value goes into the room after the first
// three bytes. Refusal 8 never comes, because no value of a record has more than 13 bytes.
#[tactic(auto, unfolding(crate::specs::Writing::record_size_lem))]
pub fn write_record(item: Record, out: &mut [u8]) -> Result<usize, Refusal>
    ensures answer { answered result ≡ record_size_lem item (length out.old) }
    ensures bytes { out.new ≡ leaves (record_size_lem item (length out.old)) (tlv_bytes (code_of (kind_of item)) (bytes_of item)) out.old }
{
    if !values::is_readable(item) {
        return Err(Refusal::NeverRead);
    }
    let size = framing::write_header(records::code_of(item), size_of(item), out)?;
    values::put_value(item, &mut out[3..]);
    Ok(size)
}
