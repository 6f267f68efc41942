// Where a list starts, and reading a whole value.
ghost use Rattle.std.specs.Prelude.{◌≡◌, ◌+◌, ◌≤◌, length};
ghost use Rattle.numbers.specs.Numbers.{answered};
ghost use Rattle.layouts.specs.Layouts.{bytes};
ghost use Rattle.layouts.specs.Reading.{reaching, count_at_lem, entries_end, end_of, consumed_to_lem, read_as_lem};
ghost use Rattle.layouts.specs.Rows.{counting, row_layout};

use crate::rows::row_below;
use crate::{Consumed, LayoutRow, ListAt, list_at, read_list};
use numbers::{Refusal, wide};

// Where the n bytes at `at` end, if they are there.
#[tactic(auto, using(crate::proofs::Within::cut, crate::proofs::Within::reaches))]
pub(crate) fn reach(n: usize, s: &[u8], at: usize) -> Result<usize, Refusal>
    ensures { answered result ≡ reaching (at + n) s.now (at + n) }
{
    if s.len() < at || s.len() - at < n {
        return Err(Refusal::CutShort);
    }
    Ok(at + n)
}

// Where n entries of h bytes each end, the first of which starts at `at` (rule K3). A product that no number holds is
// more bytes than there are.
#[tactic(auto, using(crate::proofs::Runs::run_bytes, crate::proofs::Within::cut), unfolding(crate::specs::Reading::entries_end))]
pub(crate) fn run_end(n: usize, h: usize, s: &[u8], at: usize) -> Result<usize, Refusal>
    ensures { answered result ≡ entries_end (end_of (bytes h) s.now) n at }
{
    if n == 0 {
        return Ok(at);
    }
    let Some(size) = n.checked_mul(h) else {
        return Err(Refusal::CutShort);
    };
    reach(size, s, at)
}

// The list at `at` (rule K3), by its count or to the end. Its entries begin with h bytes. A list to the end has no
// entry if h is 0.
#[tactic(auto, unfolding(crate::specs::Reading::count_at_lem))]
pub(crate) fn count_at(has_count: bool, h: usize, s: &[u8], at: usize) -> Result<ListAt, Refusal>
    requires { at ≤ length s.now }
    ensures { answered result ≡ count_at_lem (counting has_count) h s.now at }
{
    if has_count {
        if s.len() <= at {
            return Err(Refusal::CutShort);
        }
        return Ok(ListAt {
            many: wide(s[at]),
            first: at + 1,
        });
    }
    if h == 0 {
        return Ok(ListAt { many: 0, first: at });
    }
    Ok(ListAt {
        many: (s.len() - at) / h,
        first: at,
    })
}

// Reads the value s by this row (rule K1). Its count is read once, for the answer and for its entries.
#[tactic(auto, using(crate::proofs::Laws::list_level, crate::proofs::Laws::counting_of, crate::proofs::Laws::end_there, crate::proofs::Laws::read_to, crate::proofs::Laws::end_inside), unfolding(crate::specs::Reading::read_as_lem))]
pub(crate) fn read_row(row: LayoutRow, s: &[u8]) -> Result<Consumed, Refusal>
    ensures { answered result ≡ read_as_lem (row_layout row) s.now }
{
    let list = list_at(row, s, 0)?;
    let end = read_list(row_below(row), list.many, s, list.first)?;
    consumed_to(row.has_count, end, list.many, s)
}

// A value of n entries whose layout ends at `end`. After a list to the end, left-over bytes are refused (rule K4).
#[tactic(auto, unfolding(crate::specs::Reading::consumed_to_lem))]
fn consumed_to(has_count: bool, end: usize, n: usize, s: &[u8]) -> Result<Consumed, Refusal>
    requires { end ≤ length s.now }
    ensures { answered result ≡ consumed_to_lem (counting has_count) end n s.now }
{
    let rest = s.len() - end;
    if !has_count && 0 < rest {
        return Err(Refusal::LeftOver);
    }
    Ok(Consumed {
        consumed: end,
        rest,
        entries: n,
    })
}
