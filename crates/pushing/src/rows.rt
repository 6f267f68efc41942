// Changes to the table's rows and places, and to the bytes that belong to them.
ghost use Rattle.std.specs.Prelude.{◌≡◌, ◌+◌, ◌≤◌, ◌<◌, length, set};
ghost use Rattle.std.proofs.Math.Seq.{paste};
ghost use Rattle.table.specs.Rows.{keys, places, place_size, most_keys, most_places};
ghost use Rattle.pushing.specs.PrivateSteps.{under_row_lem, kept_by_lem};

use crate::Arrival;
use crate::choose::under_row;
use crate::look::LookedUp;
use table::{KEYS, Table, Totals, lower_row};

// The bytes of src go to dst, from the byte `at` on.
pub(crate) fn copy(src: &[u8], dst: &mut [u8], at: usize)
    requires { at + length src.now ≤ length dst.old }
    ensures { dst.new ≡ paste dst.old at src.now (length src.now) }
{
    dst[at..at + src.len()].copy_from_slice(src);
}

// Rule T15: a list of totals with 0 in a row. For a row that the table does not have, it stays. The list is 16 bytes.
fn without_total(totals: [u8; KEYS], row: usize) -> [u8; KEYS]
    ensures { result ≡ set totals row 0 }
{
    let mut n = totals;
    if row < KEYS {
        n[row] = 0;
    }
    n
}

// Rules T6 and T15: the table with a fragment in the lowest free place, under the row that has its key or gets it. A row
// that gets its key may be the lowest one of its sender, with which the totals are.
pub(crate) fn with_fragment(n: &mut Table, found: LookedUp, held: Totals, a: Arrival, size: usize)
    requires { (found.free < places) × (under_row_lem found < keys) × (held.places < most_places) × (keys ≤ found.row → held.keys < most_keys) × (size ≤ place_size) }
    ensures { n.new ≡ kept_by_lem found held n.old a size }
{
    let place = found.free;
    let row = under_row(found);
    let mut keys = held.keys;
    if KEYS <= found.row {
        n.sender_keys = without_total(n.sender_keys, found.first);
        n.sender_places = without_total(n.sender_places, found.first);
        n.row_keys[row] = a.key;
        n.firsts[row] = a.time;
        n.used[row] = true;
        keys += 1;
    }
    n.message_types[place] = a.fragment.message_type;
    n.sizes[place] = size as u16;
    n.owners[place] = row as u8 + 1;
    n.numbers[place] = a.fragment.number;
    n.versions[place] = a.fragment.version;
    let first = lower_row(row, found.first);
    n.sender_keys[first] = keys;
    n.sender_places[first] = held.places + 1;
}
