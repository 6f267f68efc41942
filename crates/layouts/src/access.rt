// Asking for an entry by its numbers (rules E1 to E3).
ghost use Rattle.std.specs.Prelude.{◌≡◌, ◌<◌, get_or};
ghost use Rattle.numbers.specs.Numbers.{answered, mapped};
ghost use Rattle.layouts.specs.Access.{numbers_of, child_at, find_entry_lem, span_of, length_at};
ghost use Rattle.layouts.specs.Rows.{row_layout};
ghost use Rattle.layouts.specs.PrivateRows.{spot_of};

use crate::rows::row_below;
use crate::{LayoutRow, Path, Span, list_at, read_list};
use numbers::Refusal;

// An entry that was found: its row, and where it starts.
#[derive(Clone, Copy)]
pub(crate) struct Found {
    pub row: LayoutRow,
    pub at: usize,
}

impl Path {
    // The number for this level, counted from 0. Those past the third are 0: no kind has more than three levels.
    #[tactic(auto, using(crate::proofs::Finding::first, crate::proofs::Finding::second, crate::proofs::Finding::third, crate::proofs::Finding::further))]
    fn number(self, level: usize) -> usize
        requires { level < self.depth }
        ensures { result ≡ get_or (numbers_of self) level 0 }
    {
        match level {
            0 => self.i0,
            1 => self.i1,
            2 => self.i2,
            _ => 0,
        }
    }
}

// Where entry i starts in the list of this entry.
#[tactic(auto, using(crate::proofs::Laws::list_level, crate::proofs::Finding::child_row, crate::proofs::Finding::child_past, crate::proofs::Finding::child_none))]
fn child(entry: Found, i: usize, s: &[u8]) -> Result<usize, Refusal>
    ensures { answered result ≡ child_at (row_layout entry.row) i s.now entry.at }
{
    let list = list_at(entry.row, s, entry.at)?;
    if i < list.many {
        return read_list(row_below(entry.row), i, s, list.first);
    }
    Err(Refusal::NoEntry)
}

// Finds the entry with these numbers (rule E1). Each turn takes one number and goes one level down.
#[tactic(auto, using(crate::proofs::Finding::how_many, crate::proofs::Finding::child_level, crate::proofs::Finding::level_stop, crate::proofs::Finding::level_on, crate::proofs::Finding::find_end))]
fn find_entry(value: LayoutRow, path: Path, s: &[u8]) -> Result<Found, Refusal>
    ensures { mapped spot_of (answered result) ≡ find_entry_lem (row_layout value) (numbers_of path) s.now 0 }
{
    let mut entry = Found { row: value, at: 0 };
    for level in 0..path.depth {
        let at = child(entry, path.number(level), s)?;
        entry = Found {
            row: row_below(entry.row),
            at,
        };
    }
    Ok(entry)
}

// Where the entry with these numbers lies. Without a number there is no such entry (rule E2).
#[tactic(auto, using(crate::proofs::Laws::one_entry, crate::proofs::Finding::span_none, crate::proofs::Finding::span_some))]
pub(crate) fn span_of(row: LayoutRow, path: Path, s: &[u8]) -> Result<Span, Refusal>
    ensures { answered result ≡ span_of (row_layout row) (numbers_of path) s.now }
{
    if path.depth == 0 {
        return Err(Refusal::NoEntry);
    }
    let found = find_entry(row, path, s)?;
    let end = read_list(found.row, 1, s, found.at)?;
    Ok(Span {
        start: found.at,
        end,
    })
}

// How many entries the list of the entry with these numbers has (rule E3).
#[tactic(auto, unfolding(crate::specs::Access::length_at))]
pub(crate) fn length_at(row: LayoutRow, path: Path, s: &[u8]) -> Result<usize, Refusal>
    ensures { answered result ≡ length_at (row_layout row) (numbers_of path) s.now }
{
    let found = find_entry(row, path, s)?;
    let list = list_at(found.row, s, found.at)?;
    Ok(list.many)
}
