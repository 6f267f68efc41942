// The fragment table as a caller uses it: push and sweep change a lent table, show returns the message of an answer.
#![tactic(auto)]

ghost use Rattle.std.specs.Prelude.{◌≡◌, length};
ghost use Rattle.pushing.specs.Push.{pushed_of, way, Goes};
ghost use Rattle.sweeping.specs.Sweep.{swept, swept_as};
ghost use Rattle.pushing.specs.Show.{shown};
ghost use Rattle.pushing.specs.Made.{Made};
ghost use Rattle.reassembler.specs.Showing.{shown_from};

use numbers::Refusal;
use pushing::{Arrival, Pushed};
use table::Table;

// Rule T10: the message of an answer. For a single fragment it is the payload, for a joined message the start of the
// output. The slices are those that push was lent.
pub fn show<'a>(answer: Result<Pushed, Refusal>, payload: &'a [u8], out: &'a [u8]) -> &'a [u8]
    ensures result_value { result.now ≡ shown (pushed_of answer) payload.now out.now }
    ensures place { result.ref_ptr ≡ (shown_from (pushed_of answer) payload.entry out.entry).ref_ptr }
{
    match answer {
        Ok(Pushed::Single(n)) if n <= payload.len() => &payload[..n],
        Ok(Pushed::Joined(n)) if n <= out.len() => &out[..n],
        Ok(Pushed::Joined(_)) => &out[..0],
        _ => &payload[..0],
    }
}

// Rules T4 to T9: a push to the lent table, which is changed in place. push_in_place does the work.
pub fn push(
    t: &mut Table,
    store: &mut [u8],
    out: &mut [u8],
    a: Arrival,
    payload: &[u8],
) -> Result<Pushed, Refusal>
    requires { Made t.old }
    ensures { Goes (way t.old store.old a payload.now (length out.old)) t.old store.old out.old a payload.now result t.new store.new out.new }
{
    pushing::push_in_place(t, store, out, a, payload)
}

// Rules S1 and S2: a sweep of the lent table, which is changed in place. sweep_step does the work. Returns how many
// keys were dropped.
pub fn sweep(t: &mut Table, time: u64) -> usize
    ensures { swept_as t.new result ≡ swept t.old time }
{
    let swept = sweeping::sweep_step(*t, time);
    *t = swept.table;
    swept.dropped
}
