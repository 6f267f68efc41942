// Looking up in the table: one pass for each question.
ghost use Rattle.std.specs.Prelude.{◌≡◌, ◌≤◌, ltb};
ghost use Rattle.keys.specs.Keys.{sender_of_lem};
ghost use Rattle.table.specs.Rows.{keys, places, owner_of, first_row_lem, row_of, spare_row, place_of, lowest_free};
ghost use Rattle.pushing.specs.Push.{looked_up};
ghost use Rattle.pushing.specs.PrivateSteps.{numbered_in, unlike_in, beyond_in};

use crate::{Arrival, Fragment};
use keys::sender_of;
use table::{KEYS, PLACES, Table, first_row};

// The row of a key, `KEYS` where there is none. The search starts at the lowest row of the key's sender.
fn find_key(t: &Table, first: usize, key: u64) -> usize
    requires { first ≡ first_row_lem t.now (sender_of_lem key) }
    ensures { result ≡ row_of t.now key }
{
    (first..KEYS)
        .find(|row| t.used[*row] && t.row_keys[*row] == key)
        .unwrap_or(KEYS)
}

// Rule T6: the lowest free row, `KEYS` where each row has a key.
fn find_spare(t: &Table) -> usize
    ensures { result ≡ spare_row t.now }
{
    (0..KEYS).find(|row| !t.used[*row]).unwrap_or(KEYS)
}

// Rule T6: the lowest free place, `PLACES` where none is free.
fn find_free(t: &Table) -> usize
    ensures { result ≡ lowest_free t.now }
{
    (0..PLACES)
        .find(|place| t.owners[*place] == 0)
        .unwrap_or(PLACES)
}

// The place of an owner's fragment with this number, `PLACES` where there is none.
pub(crate) fn find_numbered(t: &Table, owner: u8, number: u8) -> usize
    ensures { result ≡ numbered_in t.now.owners t.now.numbers owner number }
{
    (0..PLACES)
        .find(|place| t.owners[*place] == owner && t.numbers[*place] == number)
        .unwrap_or(PLACES)
}

// Rule T8: whether an owner has a fragment with another version or type than this one.
pub(crate) fn is_unlike(t: &Table, owner: u8, f: Fragment) -> bool
    ensures { result ≡ ltb (unlike_in t.now.owners t.now.versions t.now.message_types owner f.version f.message_type) places }
{
    (0..PLACES)
        .find(|place| {
            t.owners[*place] == owner
                && (t.versions[*place] != f.version || t.message_types[*place] != f.message_type)
        })
        .is_some()
}

// Rule T8: whether an owner has a fragment with a number above this one.
pub(crate) fn is_beyond(t: &Table, owner: u8, number: usize) -> bool
    ensures { result ≡ ltb (beyond_in t.now.owners t.now.numbers owner number) places }
{
    (0..PLACES)
        .find(|place| t.owners[*place] == owner && number < t.numbers[*place] as usize)
        .is_some()
}

// Rule T5: the place in which a row holds a number, `PLACES` where there is none. `KEYS`, a new key's row, holds none.
fn held_at(t: &Table, row: usize, number: u8) -> usize
    requires { keys ≤ row → places ≤ place_of t.now row number }
    ensures { result ≡ place_of t.now row number }
{
    if row < KEYS {
        return find_numbered(t, row as u8 + 1, number);
    }
    PLACES
}

// What decides a push, one number for each question. `KEYS` and `PLACES` stand for none, and not an Option: the
// definitions of rules T5 and T6, and the claims over them, speak of these numbers.
#[derive(Clone, Copy)]
pub(crate) struct LookedUp {
    // the row of its key
    pub row: usize,
    // the place that holds its number under this key
    pub place: usize,
    // the lowest free place
    pub free: usize,
    // the lowest free row
    pub spare: usize,
    // the lowest row of its sender
    pub first: usize,
}

pub(crate) fn look_up(t: &Table, a: Arrival) -> LookedUp
    requires { keys ≤ row_of t.now a.key → places ≤ place_of t.now (row_of t.now a.key) a.fragment.number }
    ensures { result ≡ looked_up t.now a }
{
    let first = first_row(&t.used, &t.row_keys, sender_of(a.key));
    let row = find_key(t, first, a.key);
    let place = held_at(t, row, a.fragment.number);
    let free = find_free(t);
    let spare = find_spare(t);
    LookedUp {
        row,
        place,
        free,
        spare,
        first,
    }
}
