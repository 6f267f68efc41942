// The list kinds (rules K2 to K4): values that hold a list of entries, which may hold lists themselves. There is one
// table of rows. A list reader and an entry reader call each other. Numbers lead to an entry (rule E1).
// These calls know the list kinds alone, and refuse any other code by 16. The crate `kinds` knows every kind.
#![tactic(auto)]

mod access;
mod lists;
mod passing;
mod rows;

ghost use Rattle.std.specs.Prelude.{◌≡◌};
ghost use Rattle.numbers.specs.Numbers.{answered, mapped, and_then};
ghost use Rattle.numbers.specs.Parts.{behind};
ghost use Rattle.layouts.specs.Layouts.{layout_of, is_list_lem};
ghost use Rattle.layouts.specs.Rows.{row_layout};
ghost use Rattle.layouts.specs.Reading.{list_of, entries_end, end_of, read_as_lem, read_value_lem};
ghost use Rattle.layouts.specs.Access.{numbers_of, locate_entry, part_of, start_in, count_entries, pass_entry};

use numbers::{Refusal, wide};

// A layout as a row of numbers (rule K3). An entry has h0 bytes and then, if `levels` is not 0, a list: after its count
// if `has_count`, otherwise to the end. An entry of that list has h1 bytes and then, if levels are left, a list after
// its count, and so on. A value is an entry too.
#[derive(Clone, Copy)]
pub struct LayoutRow {
    pub levels: u8,
    pub has_count: bool,
    pub h0: u8,
    pub h1: u8,
    pub h2: u8,
    pub h3: u8,
}

// A list: how many entries it has, and where the first one starts.
#[derive(Clone, Copy)]
pub struct ListAt {
    pub many: usize,
    pub first: usize,
}

// What reading a value finds (rule K1): how many bytes were consumed, how many follow these, and how many entries the
// outermost list has.
#[derive(Clone, Copy)]
pub struct Consumed {
    pub consumed: usize,
    pub rest: usize,
    pub entries: usize,
}

// The numbers of an entry, `depth` of them (rule E1): i0 in the outermost list, i1 in that entry's list, i2 in the
// next. It crosses to C as it is.
#[repr(C)]
#[derive(Clone, Copy)]
pub struct Path {
    pub depth: usize,
    pub i0: usize,
    pub i1: usize,
    pub i2: usize,
}

// Where an entry's own part of the value starts, and where it ends (rule E1).
#[derive(Clone, Copy)]
pub struct Span {
    pub start: usize,
    pub end: usize,
}

// The list of the entry that starts at `at` and has this row. It follows the entry's first h0 bytes. An entry of the
// lowest level has none. The row and the place are no struct: both change at each step, so it would be made anew there.
#[tactic(auto, using(crate::proofs::Laws::list_none, crate::proofs::Laws::list_steps))]
pub fn list_at(row: LayoutRow, s: &[u8], at: usize) -> Result<ListAt, Refusal>
    ensures { answered result ≡ list_of (row_layout row) s.now at }
{
    if row.levels == 0 {
        return Err(Refusal::NoEntry);
    }
    let head = lists::reach(wide(row.h0), s, at)?;
    lists::count_at(row.has_count, wide(row.h1), s, head)
}

// Where n entries of this row end, the first of which starts at `at` (rule K3). Entries without a list are all of one
// size, and are passed in one step. It goes over others in a loop, so that the stack grows with the levels alone.
#[cycle(read_entry_read_list)]
#[tactic(auto, using(crate::proofs::Laws::layout_zero, crate::proofs::Loop::left_all, crate::proofs::Loop::left_none, crate::proofs::Loop::left_cut, crate::proofs::Loop::left_more))]
pub fn read_list(row: LayoutRow, n: usize, s: &[u8], at: usize) -> Result<usize, Refusal>
    ensures { answered result ≡ entries_end (end_of (row_layout row) s.now) n at }
{
    if row.levels == 0 {
        return lists::run_end(n, wide(row.h0), s, at);
    }
    let mut end = at;
    for _ in 0..n {
        end = read_entry(row, s, end)?;
    }
    Ok(end)
}

// Where the entry of this row that starts at `at` ends: where its list ends, if it has one (rule K3).
#[cycle(read_entry_read_list)]
#[tactic(auto, using(crate::proofs::Laws::end_bytes, crate::proofs::Laws::end_there, crate::proofs::Laws::end_cut))]
fn read_entry(row: LayoutRow, s: &[u8], at: usize) -> Result<usize, Refusal>
    ensures { answered result ≡ end_of (row_layout row) s.now at }
{
    if row.levels == 0 {
        return lists::reach(wide(row.h0), s, at);
    }
    let list = list_at(row, s, at)?;
    read_list(rows::row_below(row), list.many, s, list.first)
}

// Whether a list kind has this code (rule K2).
#[tactic(auto, unfolding(crate::specs::Layouts::is_list_lem))]
pub fn is_list(code: u8) -> bool
    ensures { result ≡ is_list_lem code }
{
    rows::row_of(code).is_ok()
}

// Reads the value s by the list kind with this code (rule K1).
#[tactic(auto, unfolding(crate::specs::Reading::read_value_lem))]
pub fn read_value(code: u8, s: &[u8]) -> Result<Consumed, Refusal>
    ensures { answered result ≡ read_value_lem code s.now }
{
    let row = rows::row_of(code)?;
    lists::read_row(row, s)
}

// The row of the list kind with this code, of which the value s has to read (rule E2).
fn row_read(code: u8, s: &[u8]) -> Result<LayoutRow, Refusal>
    ensures { mapped row_layout (answered result) ≡ and_then (layout_of code) (λ l. mapped (λ r. l) (read_as_lem l s.now)) }
{
    let row = rows::row_of(code)?;
    lists::read_row(row, s)?;
    Ok(row)
}

// Where the entry with these numbers lies in the value s (rule E1). The whole value has to read first (rule E2).
#[tactic(auto, unfolding(crate::specs::Access::of_value_lem, crate::specs::Access::locate_entry))]
pub fn locate(code: u8, path: Path, s: &[u8]) -> Result<Span, Refusal>
    ensures { answered result ≡ locate_entry code (numbers_of path) s.now }
{
    let row = row_read(code, s)?;
    access::span_of(row, path, s)
}

// The entry with these numbers as its own part of s, to the end of the lists that it holds (rule E1). Where `locate`
// refuses, it is the empty part at the start of s (rule A5).
#[tactic(auto, using(crate::proofs::Values::located_ordered, crate::proofs::Values::located_inside))]
pub fn entry(code: u8, path: Path, s: &[u8]) -> &[u8]
    ensures result_value { result.now ≡ part_of (locate_entry code (numbers_of path) s.now) s.now }
    ensures place { result.ref_ptr ≡ behind (start_in (locate_entry code (numbers_of path) s.now)) s.entry }
{
    match locate(code, path, s) {
        Ok(span) => &s[span.start..span.end],
        Err(_) => &s[0..0],
    }
}

// How many entries the list of the entry with these numbers has; without numbers, the outermost list (rule E3). An
// entry of the lowest level has no list.
#[tactic(auto, unfolding(crate::specs::Access::of_value_lem, crate::specs::Access::count_entries))]
pub fn count(code: u8, path: Path, s: &[u8]) -> Result<usize, Refusal>
    ensures { answered result ≡ count_entries code (numbers_of path) s.now }
{
    let row = row_read(code, s)?;
    access::length_at(row, path, s)
}

// Goes over the entry of this level that starts at `at` (rule E9). The answer is how many entries its own list has and
// where to go on: at the first of these if `enter`, otherwise where the entry ends. Nothing else of the value is read.
#[tactic(auto, unfolding(crate::specs::Access::pass_entry))]
pub fn pass(code: u8, level: u8, enter: bool, s: &[u8], at: usize) -> Result<ListAt, Refusal>
    ensures { answered result ≡ pass_entry code level enter s.now at }
{
    let row = rows::row_of(code)?;
    passing::pass_at(row, level, enter, s, at)
}
