// The fragment table (rules T1 and T14): fragments are kept until their message is whole or too old. The crates pushing
// and sweeping say what a push and a sweep do to it.
#![tactic(auto)]

ghost use Rattle.std.specs.Prelude.{◌≡◌, ◌-◌, ◌≤◌};
ghost use Rattle.keys.specs.Keys.{sender_of_lem};
ghost use Rattle.table.specs.Rows.{keys, fresh_table, first_row_in, totals_in, lower_row_lem, dropped_key_lem};

use keys::sender_of;

// Rule T1: how many keys and fragments a table can hold, and how many bytes a place and the whole store have.
pub const KEYS: usize = 16;

pub const PLACES: usize = 32;

pub const PLACE_SIZE: usize = 1492;

pub const STORE_SIZE: usize = PLACES * PLACE_SIZE;

// Rule T6: how many keys and places one sender can hold.
pub const MOST_KEYS: u8 = 4;

pub const MOST_PLACES: u8 = 8;

// Rule T1: a row is an element of five lists (`row_keys`, `firsts`, `used`, `sender_keys` and `sender_places`), a place
// one of the five others. A place holds a fragment without its payload, which lies in the lent store, and without its
// last mark, which no kept fragment has (rule T3). Each list is an array of its own: so the C header has them.
#[repr(C)]
#[derive(Clone, Copy)]
pub struct Table {
    pub row_keys: [u64; KEYS],
    // when the key's first fragment came (rule T6)
    pub firsts: [u64; KEYS],
    pub message_types: [u16; PLACES],
    // how many bytes the payload has
    pub sizes: [u16; PLACES],
    // 1 more than the row of the key, 0 where the place is free
    pub owners: [u8; PLACES],
    pub numbers: [u8; PLACES],
    pub versions: [u8; PLACES],
    pub used: [bool; KEYS],
    // how many keys and places a sender holds, in its lowest row (rule T15)
    pub sender_keys: [u8; KEYS],
    pub sender_places: [u8; KEYS],
}

// Rule T15: how many keys a sender holds, and how many places.
#[derive(Clone, Copy)]
pub struct Totals {
    pub keys: u8,
    pub places: u8,
}

// Rule T14: a table that holds nothing, and whose bytes are all zero.
pub fn fresh() -> Table
    ensures { result ≡ fresh_table }
{
    Table {
        row_keys: [0u64; KEYS],
        firsts: [0u64; KEYS],
        message_types: [0u16; PLACES],
        sizes: [0u16; PLACES],
        owners: [0u8; PLACES],
        numbers: [0u8; PLACES],
        versions: [0u8; PLACES],
        used: [false; KEYS],
        sender_keys: [0u8; KEYS],
        sender_places: [0u8; KEYS],
    }
}

// Rule T15: the lowest row with a key of this sender, `KEYS` where there is none: `first_row_in` is this number, too.
pub fn first_row<'a>(used: &'a [bool; KEYS], row_keys: &'a [u64; KEYS], sender: u64) -> usize
    ensures { (result ≡ first_row_in used.now row_keys.now sender) × (result ≤ keys) }
{
    (0..KEYS)
        .find(|row| used[*row] && sender_of(row_keys[*row]) == sender)
        .unwrap_or(KEYS)
}

// Rule T15: the totals in a row, 0 and 0 for a row that the table does not have.
pub fn totals_at<'a>(
    sender_keys: &'a [u8; KEYS],
    sender_places: &'a [u8; KEYS],
    row: usize,
) -> Totals
    ensures { result ≡ totals_in sender_keys.now sender_places.now row }
{
    if row < KEYS {
        return Totals {
            keys: sender_keys[row],
            places: sender_places[row],
        };
    }
    Totals { keys: 0, places: 0 }
}

// Rule T15: the lower of two rows, of which one may be `KEYS`. `Firmness` has it by this name.
pub fn lower_row(a: usize, b: usize) -> usize
    ensures { result ≡ lower_row_lem a b }
{
    a.min(b)
}

// Rules T12 and T15: the table without a row's key. The row and its places are as fresh ones, and its sender's totals
// are less by one key and these places. For a row that has no key, nothing is dropped. There is one pass over the
// places, and one search for the sender's next row.
pub fn without_key(t: Table, row: usize) -> Table
    ensures { result ≡ dropped_key_lem t row }
{
    let mut n = t;
    drop_key(&mut n, row);
    n
}

// The same in place, so that push and sweep need no copies of the table on the stack: the compiler gives each local of
// a function bytes of its own there.
pub fn drop_key(n: &mut Table, row: usize)
    ensures { n.new ≡ dropped_key_lem n.old row }
{
    if row >= KEYS || !n.used[row] {
        return;
    }
    let sender = sender_of(n.row_keys[row]);
    n.row_keys[row] = 0;
    n.firsts[row] = 0;
    n.used[row] = false;
    let next = first_row(&n.used, &n.row_keys, sender);
    let first = lower_row(row, next);
    let keys = n.sender_keys[first];
    let places = n.sender_places[first];
    n.sender_keys[row] = 0;
    n.sender_places[row] = 0;
    let owner = row as u8 + 1;
    let mut freed: u8 = 0;
    for i in 0..PLACES {
        if n.owners[i] == owner {
            n.message_types[i] = 0;
            n.sizes[i] = 0;
            n.owners[i] = 0;
            n.numbers[i] = 0;
            n.versions[i] = 0;
            freed += 1;
        }
    }
    if next < KEYS {
        n.sender_keys[next] = keys.saturating_sub(1);
        n.sender_places[next] = places.saturating_sub(freed);
    }
}
