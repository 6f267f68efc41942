// Going over the entries in order, one at a time (rule E9).
ghost use Rattle.std.specs.Prelude.{◌≡◌};
ghost use Rattle.numbers.specs.Numbers.{answered, mapped, and_then};
ghost use Rattle.layouts.specs.Access.{at_level, gone_over};
ghost use Rattle.layouts.specs.Rows.{row_layout};

use crate::lists::reach;
use crate::rows::row_below;
use crate::{LayoutRow, ListAt, list_at, read_list};
use numbers::{Refusal, wide};

// The row of an entry of this level. The value is the one of level 0.
#[tactic(auto, using(crate::proofs::Passes::level_here, crate::proofs::Passes::level_none, crate::proofs::Passes::level_down))]
fn row_at(value: LayoutRow, level: u8) -> Result<LayoutRow, Refusal>
    ensures { mapped row_layout (answered result) ≡ at_level level (row_layout value) }
{
    let mut row = value;
    for _ in 0..level {
        if row.levels == 0 {
            return Err(Refusal::NoEntry);
        }
        row = row_below(row);
    }
    Ok(row)
}

// Goes over the entry of this row at `at`.
#[tactic(auto, using(crate::proofs::Passes::pass_leaf, crate::proofs::Passes::pass_enter, crate::proofs::Passes::pass_to, crate::proofs::Passes::pass_short, crate::proofs::Passes::pass_cut))]
fn pass_row(row: LayoutRow, enter: bool, s: &[u8], at: usize) -> Result<ListAt, Refusal>
    ensures { answered result ≡ gone_over enter (row_layout row) s.now at }
{
    if row.levels == 0 {
        let end = reach(wide(row.h0), s, at)?;
        return Ok(ListAt {
            many: 0,
            first: end,
        });
    }
    let list = list_at(row, s, at)?;
    if enter {
        return Ok(list);
    }
    let end = read_list(row_below(row), list.many, s, list.first)?;
    Ok(ListAt {
        many: list.many,
        first: end,
    })
}

// The same for an entry of this level of a value that has this row.
pub(crate) fn pass_at(
    value: LayoutRow,
    level: u8,
    enter: bool,
    s: &[u8],
    at: usize,
) -> Result<ListAt, Refusal>
    ensures { answered result ≡ and_then (at_level level (row_layout value)) (λ e. gone_over enter e s.now at) }
{
    let row = row_at(value, level)?;
    pass_row(row, enter, s, at)
}
