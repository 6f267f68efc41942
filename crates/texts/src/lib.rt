// Values that hold text (rules E5 to E8). The pieces in which a text stands are read, and each text has to be UTF-8. A
// text and a radio are asked for by their numbers.
#![tactic(auto)]

mod access;
mod pieces;
mod reading;
mod rows;

ghost use Rattle.std.specs.Prelude.{◌≡◌};
ghost use Rattle.numbers.specs.Numbers.{answered};
ghost use Rattle.numbers.specs.Parts.{behind};
ghost use Rattle.layouts.specs.Reading.{end_of};
ghost use Rattle.layouts.specs.Access.{numbers_of, part_of, start_in};
ghost use Rattle.texts.specs.Texts.{is_text_lem, radio};
ghost use Rattle.texts.specs.Reading.{read_text};
ghost use Rattle.texts.specs.Access.{locate_radio, count_radios, radios_of, locate_text_lem, locate_radio_text_lem};

use layouts::{Consumed, ListAt, Path, Span};
use numbers::Refusal;

// The codes of these kinds.
pub const DEVICE_IDENTIFICATION_TYPE: u8 = 21;

pub const CONTROL_URL: u8 = 22;

pub const DEVICE_INVENTORY: u8 = 0xD4;

// Whether the kind with this code is one of these.
#[tactic(auto, unfolding(crate::specs::Texts::is_text_lem))]
pub fn is_text(code: u8) -> bool
    ensures { result ≡ is_text_lem code }
{
    rows::row_of(code).is_ok()
}

// The value of the kind with this code at the start of s (rule K1). Its entries are its radios.
#[tactic(auto, using(crate::proofs::Whole::whole_of_lem, crate::proofs::Whole::not_outlined, crate::proofs::Whole::outline_inside), unfolding(crate::specs::Reading::read_text))]
pub fn read_value(code: u8, s: &[u8]) -> Result<Consumed, Refusal>
    ensures { answered result ≡ read_text code s.now }
{
    let row = rows::row_of(code)?;
    let value = reading::read_row(row, s)?;
    Ok(Consumed {
        consumed: value.end,
        rest: s.len() - value.end,
        entries: value.list.many,
    })
}

// Where the radio with these numbers lies in the value s: a radio has one number (rule E8). The whole value has to
// read.
#[tactic(auto, unfolding(crate::specs::Access::of_text, crate::specs::Access::locate_radio))]
pub fn locate(code: u8, path: Path, s: &[u8]) -> Result<Span, Refusal>
    ensures { answered result ≡ locate_radio code (numbers_of path) s.now }
{
    let row = rows::row_of(code)?;
    access::radio_in(row, path, s)
}

// The radio with these numbers as its own part of s: its id, its length and its text. The empty start of s where
// `locate` refuses (rule A5).
#[tactic(auto, using(crate::proofs::Asked::radio_lies))]
pub fn entry(code: u8, path: Path, s: &[u8]) -> &[u8]
    ensures result_value { result.now ≡ part_of (locate_radio code (numbers_of path) s.now) s.now }
    ensures place { result.ref_ptr ≡ behind (start_in (locate_radio code (numbers_of path) s.now)) s.entry }
{
    access::part(locate(code, path, s), s)
}

// How many radios the value s has, asked without numbers (rule E3). A kind without radios has none. A radio has no
// entries to count.
#[tactic(auto, unfolding(crate::specs::Access::of_text, crate::specs::Access::count_radios))]
pub fn count(code: u8, path: Path, s: &[u8]) -> Result<usize, Refusal>
    ensures { answered result ≡ count_radios code (numbers_of path) s.now }
{
    let row = rows::row_of(code)?;
    access::count_in(row, path, s)
}

// How many radios the value s has, and where the first one starts (rule E9). A kind without radios has none. The texts
// are not looked at.
#[tactic(auto, unfolding(crate::specs::Access::radios_of))]
pub fn radios(code: u8, s: &[u8]) -> Result<ListAt, Refusal>
    ensures { answered result ≡ radios_of code s.now }
{
    let row = rows::row_of(code)?;
    reading::radios_in(row, s)
}

// Where the radio that starts at `at` ends (rule E9).
#[tactic(auto, using(layouts::proofs::Laws::one_entry))]
pub fn radio_end(s: &[u8], at: usize) -> Result<usize, Refusal>
    ensures { answered result ≡ end_of radio s.now at }
{
    layouts::read_list(rows::radio(), 1, s, at)
}

// Where the text with this number lies in the value s (rule E7): kinds 21 and 0xD4 have three, 22 has one. The texts of
// radios are not among them. The whole value has to read.
#[tactic(auto, unfolding(crate::specs::Access::of_text, crate::specs::Access::locate_text_lem))]
pub fn locate_text(code: u8, number: usize, s: &[u8]) -> Result<Span, Refusal>
    ensures { answered result ≡ locate_text_lem code number s.now }
{
    let row = rows::row_of(code)?;
    access::text_in(row, number, s)
}

// That text as its own part of s; the empty start of s where `locate_text` refuses (rule A5).
#[tactic(auto, using(crate::proofs::Asked::text_lies_lem))]
pub fn text(code: u8, number: usize, s: &[u8]) -> &[u8]
    ensures result_value { result.now ≡ part_of (locate_text_lem code number s.now) s.now }
    ensures place { result.ref_ptr ≡ behind (start_in (locate_text_lem code number s.now)) s.entry }
{
    access::part(locate_text(code, number, s), s)
}

// Where the text of the radio with this number lies in the value s of DeviceInventory (rule E8). The whole value has to
// read.
#[tactic(auto, using(crate::proofs::Asked::radio_ordered, crate::proofs::Asked::radio_inside), unfolding(crate::specs::Access::locate_radio_text_lem))]
pub fn locate_radio_text(number: usize, s: &[u8]) -> Result<Span, Refusal>
    ensures { answered result ≡ locate_radio_text_lem number s.now }
{
    let path = Path {
        depth: 1,
        i0: number,
        i1: 0,
        i2: 0,
    };
    let radio = locate(DEVICE_INVENTORY, path, s)?;
    Ok(pieces::text_span(rows::radio(), s, radio))
}

// That text as its own part of s; the empty start of s where `locate_radio_text` refuses (rule A5).
#[tactic(auto, using(crate::proofs::Asked::radio_text_lies))]
pub fn radio_text(number: usize, s: &[u8]) -> &[u8]
    ensures result_value { result.now ≡ part_of (locate_radio_text_lem number s.now) s.now }
    ensures place { result.ref_ptr ≡ behind (start_in (locate_radio_text_lem number s.now)) s.entry }
{
    access::part(locate_radio_text(number, s), s)
}
