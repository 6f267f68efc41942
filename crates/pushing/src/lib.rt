// A push to the fragment table (rules T4 to T9): a fragment is kept, joined with those of its key, found to be there
// already, or refused.
#![tactic(auto)]

mod choose;
mod join;
mod look;
mod rows;

ghost use Rattle.std.specs.Prelude.{length};
ghost use Rattle.pushing.specs.Push.{way, Goes};
ghost use Rattle.pushing.specs.Made.{Made};

use choose::check_room;
use join::{compare, finish};
use look::look_up;
use numbers::Refusal;
use rows::{copy, with_fragment};
use table::{PLACE_SIZE, PLACES, STORE_SIZE, Table, drop_key, totals_at};

// Rule T3: a fragment without its payload.
#[repr(C)]
#[derive(Clone, Copy)]
pub struct Fragment {
    pub message_type: u16,
    pub version: u8,
    pub number: u8,
    pub last: bool,
}

// A fragment as it comes in: under which key (rule T2; key_of in the crate keys), and when, in milliseconds.
#[repr(C)]
#[derive(Clone, Copy)]
pub struct Arrival {
    pub key: u64,
    pub time: u64,
    pub fragment: Fragment,
}

// What push answers (rules T5 to T9) where it doesn't refuse.
#[derive(Clone, Copy)]
pub enum Pushed {
    WaitingForMoreFragments,
    DuplicatedFragment,
    InconsistentMetadata,
    MissingFragments,
    MissingLastFragment,
    // rule T9: the message is the payload that was pushed, which has this length
    Single(usize),
    // rule T9: the message is at the start of the output, and has this length
    Joined(usize),
}

#[derive(Clone, Copy)]
pub struct AfterPush {
    pub table: Table,
    pub answer: Result<Pushed, Refusal>,
}

// Rules T4 to T9: a fragment comes in, to the lent table. The store keeps payloads, and the output gets a joined message.
pub fn push_in_place(
    t: &mut Table,
    store: &mut [u8],
    out: &mut [u8],
    a: Arrival,
    payload: &[u8],
) -> Result<Pushed, Refusal>
    requires { Made t.old }
    ensures { Goes (way t.old store.old a payload.now (length out.old)) t.old store.old out.old a payload.now result t.new store.new out.new }
{
    if store.len() < STORE_SIZE {
        return Err(Refusal::StoreTooSmall);
    }
    if PLACE_SIZE < payload.len() {
        return Err(Refusal::PayloadTooLong);
    }
    let found = look_up(t, a);
    if found.place < PLACES {
        return Ok(Pushed::DuplicatedFragment);
    }
    if a.fragment.last {
        let last = compare(t, found.row, a.fragment);
        let answer = finish(t, store, payload, last, out)?;
        drop_key(t, found.row);
        return Ok(answer);
    }
    let held = totals_at(&t.sender_keys, &t.sender_places, found.first);
    check_room(found, held)?;
    copy(payload, store, found.free * PLACE_SIZE);
    with_fragment(t, found, held, a, payload.len());
    Ok(Pushed::WaitingForMoreFragments)
}

// The same step by value. Returns the table after it, and the answer.
pub fn push_step(
    t: Table,
    store: &mut [u8],
    out: &mut [u8],
    a: Arrival,
    payload: &[u8],
) -> AfterPush
    requires { Made t }
    ensures { Goes (way t store.old a payload.now (length out.old)) t store.old out.old a payload.now result.answer result.table store.new out.new }
{
    let mut n = t;
    let answer = push_in_place(&mut n, store, out, a, payload);
    AfterPush { table: n, answer }
}
