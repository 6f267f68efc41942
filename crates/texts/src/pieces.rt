// The text of an entry, and entries one after the other.
ghost use Rattle.std.specs.Prelude.{◌≡◌, ◌≤◌, length, nat_eq, position};
ghost use Rattle.numbers.specs.Numbers.{answered};
ghost use Rattle.layouts.specs.Rows.{row_layout};
ghost use Rattle.layouts.specs.Reading.{end_of};
ghost use Rattle.layouts.specs.Access.{spans_from};
ghost use Rattle.texts.specs.Reading.{until_zero_lem, text_span_lem};
ghost use Rattle.texts.specs.PrivateSteps.{valid_in, nth_at};

use layouts::{LayoutRow, Span, read_list};
use numbers::{Refusal, wide};
use utf8::is_utf8;

// Where the first zero byte stands.
fn first_zero(s: &[u8]) -> Option<usize>
    ensures { result ≡ position (λ b. nat_eq b 0) s.now }
{
    s.iter().position(|b| *b == 0)
}

// How many bytes stand before the first zero byte; all of them, where there is none (rule E6).
#[tactic(auto, using(crate::proofs::Laws::until_zero_found, crate::proofs::Laws::until_within))]
fn until_zero(s: &[u8]) -> usize
    ensures { (result ≡ until_zero_lem s.now) × (result ≤ length s.now) }
{
    first_zero(s).unwrap_or(s.len())
}

// The text of the entry of this row that lies there.
#[tactic(auto, using(layouts::proofs::Laws::layout_zero, layouts::proofs::Laws::layout_more), unfolding(crate::specs::Reading::text_span_lem))]
pub(crate) fn text_span(row: LayoutRow, s: &[u8], entry: Span) -> Span
    requires { (entry.start ≤ entry.end) × (entry.end ≤ length s.now) }
    ensures { result ≡ text_span_lem (row_layout row) s.now entry }
{
    if row.levels == 0 {
        let field = &s[entry.start..entry.end];
        return Span {
            start: entry.start,
            end: entry.start + until_zero(field),
        };
    }
    Span {
        start: entry.start + wide(row.h0) + usize::from(row.has_count),
        end: entry.end,
    }
}

// Whether the texts of n entries that are there, the first of which starts at `at`, are UTF-8 (rule E5).
#[tactic(auto, using(layouts::proofs::Laws::one_entry, crate::proofs::Laws::left_all, crate::proofs::Laws::left_none, crate::proofs::Laws::left_cut, crate::proofs::Laws::left_bad, crate::proofs::Laws::left_more, crate::proofs::Laws::entry_ordered, crate::proofs::Laws::entry_inside, crate::proofs::Laws::text_ordered, crate::proofs::Laws::text_inside))]
pub(crate) fn all_valid(row: LayoutRow, n: usize, s: &[u8], at: usize) -> bool
    ensures { result ≡ valid_in (row_layout row) s.now (spans_from (end_of (row_layout row) s.now) n at) }
{
    let mut start = at;
    for _ in 0..n {
        let Ok(end) = read_list(row, 1, s, start) else {
            return false;
        };
        let text = text_span(row, s, Span { start, end });
        if !is_utf8(&s[text.start..text.end]) {
            return false;
        }
        start = end;
    }
    true
}

// Entry i of n, the first of which starts at `at`.
#[tactic(auto, using(crate::proofs::Laws::nth_none, crate::proofs::Laws::nth_after, layouts::proofs::Laws::one_entry))]
pub(crate) fn nth(row: LayoutRow, n: usize, i: usize, s: &[u8], at: usize) -> Result<Span, Refusal>
    ensures { answered result ≡ nth_at (row_layout row) n i s.now at }
{
    if n <= i {
        return Err(Refusal::NoEntry);
    }
    let start = read_list(row, i, s, at)?;
    let end = read_list(row, 1, s, start)?;
    Ok(Span { start, end })
}
