// A radio by its number, and a text by its own.
ghost use Rattle.std.specs.Prelude.{◌≡◌};
ghost use Rattle.numbers.specs.Numbers.{answered, mapped, and_then};
ghost use Rattle.numbers.specs.Parts.{behind};
ghost use Rattle.layouts.specs.Rows.{row_layout};
ghost use Rattle.layouts.specs.Access.{numbers_of, part_of, start_in, nth_of};
ghost use Rattle.texts.specs.Reading.{text_span_lem, whole_of};
ghost use Rattle.texts.specs.Access.{radio_in_lem, radio_count};
ghost use Rattle.texts.specs.PrivateSteps.{row_kind, InValue};

use crate::pieces::{nth, text_span};
use crate::reading::read_row;
use crate::rows::{TextRow, radio};
use layouts::{Path, Span};
use numbers::Refusal;

// What was located in s, as its own part of it; the empty start of s where it is refused (rule A5). `layouts::entry`
// has these lines too: lent from there, they would be one more public call.
pub(crate) fn part(located: Result<Span, Refusal>, s: &[u8]) -> &[u8]
    requires { InValue (answered located) s.now }
    ensures result_value { result.now ≡ part_of (answered located) s.now }
    ensures place { result.ref_ptr ≡ behind (start_in (answered located)) s.entry }
{
    match located {
        Ok(span) => &s[span.start..span.end],
        Err(_) => &s[0..0],
    }
}

// The radio with these numbers, in a value that has to read whole.
#[tactic(auto, using(crate::proofs::Whole::not_read, crate::proofs::Whole::radio_asked, crate::proofs::Asked::no_radio, crate::proofs::Whole::whole_of_lem))]
pub(crate) fn radio_in(row: TextRow, path: Path, s: &[u8]) -> Result<Span, Refusal>
    ensures { answered result ≡ and_then (whole_of (row_kind row) s.now) (λ v. radio_in_lem (numbers_of path) v) }
{
    let value = read_row(row, s)?;
    if path.depth == 1 {
        return nth(radio(), value.list.many, path.i0, s, value.list.first);
    }
    Err(Refusal::NoEntry)
}

// How many radios such a value has; a kind without radios has none.
#[tactic(auto, using(crate::proofs::Whole::whole_of_lem, crate::proofs::Whole::not_read, crate::proofs::Asked::count_all, crate::proofs::Asked::count_under))]
pub(crate) fn count_in(row: TextRow, path: Path, s: &[u8]) -> Result<usize, Refusal>
    ensures { answered result ≡ and_then (whole_of (row_kind row) s.now) (λ v. radio_count (numbers_of path) v) }
{
    let value = read_row(row, s)?;
    if path.depth == 0 {
        return Ok(value.list.many);
    }
    Err(Refusal::NoEntry)
}

// The value's own text with this number.
#[tactic(auto, using(crate::proofs::Whole::not_read, crate::proofs::Whole::text_missing, crate::proofs::Whole::piece_ordered, crate::proofs::Whole::piece_inside))]
pub(crate) fn text_in(row: TextRow, number: usize, s: &[u8]) -> Result<Span, Refusal>
    ensures { answered result ≡ and_then (whole_of (row_kind row) s.now) (λ v. mapped (text_span_lem (row_layout row.piece) s.now) (nth_of v.texts.each number)) }
{
    read_row(row, s)?;
    let piece = nth(row.piece, row.many, number, s, 0)?;
    Ok(text_span(row.piece, s, piece))
}
