// The 25 kinds by their codes (rule K2). A value is read as a list, as text or as a record. Its entries and texts are
// asked for. The bytes of a value that reads are written as a TLV.
#![tactic(auto)]

ghost use Rattle.std.specs.Prelude.{◌≡◌, length};
ghost use Rattle.numbers.specs.Numbers.{answered, mapped};
ghost use Rattle.numbers.specs.Parts.{behind};
ghost use Rattle.framing.specs.Tlv.{leaves};
ghost use Rattle.layouts.specs.Access.{numbers_of, part_of, start_in};
ghost use Rattle.kinds.specs.Kinds.{family_of_lem, is_kind_lem, one_list, read_kind_lem, without_record, no_entry_in_lem, locate_kind, count_kind, locate_text_in};
ghost use Rattle.kinds.specs.Writing.{write_kind_lem, kind_bytes};

use layouts::{Consumed, Path, Span};
use numbers::Refusal;
use records::Record;

// What a typed value holds: a record, given as an R, or how many entries a list kind's own list or a value that holds
// text has.
#[derive(Clone, Copy)]
pub enum Contents<R> {
    One(R),
    List(usize),
}

// What reading a typed value finds (rule K1). The rest is how many bytes follow those consumed.
#[derive(Clone, Copy)]
pub struct Typed<R> {
    pub held: Contents<R>,
    pub consumed: usize,
    pub rest: usize,
}

// The families of kinds: what the value of a code is read as.
#[derive(Clone, Copy)]
pub(crate) enum Family {
    List,
    Text,
    Record,
}

// A code is classed here, by the tables of the crates below; whoever has its family asks that family's crate. A code
// that is no list's and no text's is left to the records, whose reader knows it or refuses it: a test for them here
// would be made twice.
fn family_of(code: u8) -> Family
    ensures { result ≡ family_of_lem code }
{
    if layouts::is_list(code) {
        return Family::List;
    }
    if texts::is_text(code) {
        return Family::Text;
    }
    Family::Record
}

// Does a kind have this code (rule K2)?
pub fn is_kind(code: u8) -> bool
    ensures { result ≡ is_kind_lem code }
{
    match family_of(code) {
        Family::List => true,
        Family::Text => true,
        Family::Record => records::is_record(code),
    }
}

// What a list that was read says of its value.
fn listed<R>(list: Consumed) -> Typed<R>
    ensures { result ≡ one_list list }
{
    Typed {
        held: Contents::List(list.entries),
        consumed: list.consumed,
        rest: list.rest,
    }
}

// The value s of the kind with this code (rule K1).
#[tactic(auto, using(records::proofs::Given::consumed_within), unfolding(crate::specs::Kinds::read_kind_lem))]
pub fn read_kind(code: u8, s: &[u8]) -> Result<Typed<Record>, Refusal>
    ensures { answered result ≡ read_kind_lem code s.now }
{
    match family_of(code) {
        Family::List => Ok(listed::<Record>(layouts::read_value(code, s)?)),
        Family::Text => Ok(listed::<Record>(texts::read_value(code, s)?)),
        Family::Record => {
            let read = records::read_record(code, s)?;
            Ok(Typed {
                held: Contents::One(read.value),
                consumed: read.consumed,
                rest: s.len() - read.consumed,
            })
        }
    }
}

// The same for a caller that needs no record: the value is measured alone. It stands beside `read_kind`, since the two
// differ in the call for a record: a trait of what is kept of one would be longer than both.
#[tactic(auto, using(crate::proofs::Laws::measured_inside, crate::proofs::Laws::measured, crate::proofs::Laws::unmeasured), unfolding(crate::specs::Kinds::read_kind_lem))]
pub fn measure(code: u8, s: &[u8]) -> Result<Typed<()>, Refusal>
    ensures { answered result ≡ mapped without_record (read_kind_lem code s.now) }
{
    match family_of(code) {
        Family::List => Ok(listed::<()>(layouts::read_value(code, s)?)),
        Family::Text => Ok(listed::<()>(texts::read_value(code, s)?)),
        Family::Record => {
            let size = records::measure(code, s)?;
            Ok(Typed {
                held: Contents::One(()),
                consumed: size,
                rest: s.len() - size,
            })
        }
    }
}

// The answer where an entry of a record kind is asked for, or a text of a kind that holds none: the value's own
// refusal, and then 6 (rules E2 and E7).
fn no_entry_in<T>(code: u8, s: &[u8]) -> Result<T, Refusal>
    ensures { answered result ≡ no_entry_in_lem code s.now }
{
    measure(code, s)?;
    Err(Refusal::NoEntry)
}

// Where the entry with these numbers lies in the value s, which has to read whole (rules E1 and E2).
#[tactic(auto, unfolding(crate::specs::Kinds::locate_kind))]
pub fn locate(code: u8, path: Path, s: &[u8]) -> Result<Span, Refusal>
    ensures { answered result ≡ locate_kind code (numbers_of path) s.now }
{
    match family_of(code) {
        Family::List => layouts::locate(code, path, s),
        Family::Text => texts::locate(code, path, s),
        Family::Record => no_entry_in(code, s),
    }
}

// The entry with these numbers as its own part of s, with the lists that it holds (rule E1). The empty start of s where
// `locate` refuses (rule A5).
#[tactic(auto, using(crate::proofs::Laws::no_part), unfolding(crate::specs::Kinds::locate_kind))]
pub fn entry(code: u8, path: Path, s: &[u8]) -> &[u8]
    ensures result_value { result.now ≡ part_of (locate_kind code (numbers_of path) s.now) s.now }
    ensures place { result.ref_ptr ≡ behind (start_in (locate_kind code (numbers_of path) s.now)) s.entry }
{
    match family_of(code) {
        Family::List => layouts::entry(code, path, s),
        Family::Text => texts::entry(code, path, s),
        Family::Record => &s[0..0],
    }
}

// How many entries the list of the entry with these numbers has; without numbers, the value's own list (rule E3).
#[tactic(auto, unfolding(crate::specs::Kinds::count_kind))]
pub fn count(code: u8, path: Path, s: &[u8]) -> Result<usize, Refusal>
    ensures { answered result ≡ count_kind code (numbers_of path) s.now }
{
    match family_of(code) {
        Family::List => layouts::count(code, path, s),
        Family::Text => texts::count(code, path, s),
        Family::Record => no_entry_in(code, s),
    }
}

// Where the text with this number lies in the value s, which has to read whole (rule E7). Three kinds have texts of
// their own, the others none.
#[tactic(auto, unfolding(crate::specs::Kinds::locate_text_in))]
pub fn locate_text(code: u8, number: usize, s: &[u8]) -> Result<Span, Refusal>
    ensures { answered result ≡ locate_text_in code number s.now }
{
    match family_of(code) {
        Family::List => no_entry_in(code, s),
        Family::Text => texts::locate_text(code, number, s),
        Family::Record => no_entry_in(code, s),
    }
}

// The TLV of the kind with this code, from the bytes of a value that reads. The rest is not written (rule O2).
#[tactic(auto, using(crate::proofs::Laws::size, crate::proofs::Laws::written, crate::proofs::Laws::left, crate::proofs::Laws::unwritten, framing::proofs::Writing::kept))]
pub fn write_kind(code: u8, bytes: &[u8], out: &mut [u8]) -> Result<usize, Refusal>
    ensures answer { answered result ≡ write_kind_lem code bytes.now (length out.old) }
    ensures bytes { out.new ≡ leaves (write_kind_lem code bytes.now (length out.old)) (kind_bytes code bytes.now) out.old }
{
    let value = read_kind(code, bytes)?;
    framing::write_tlv(code, &bytes[..value.consumed], out)
}
