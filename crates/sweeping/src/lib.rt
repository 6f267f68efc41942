// The sweep of the fragment table (rules S1 and S2): keys that are too old are dropped and counted.
#![tactic(auto)]

ghost use Rattle.std.specs.Prelude.{◌≡◌, ◌&&◌};
ghost use Rattle.sweeping.specs.Sweep.{is_old, swept};

use table::{KEYS, Table, drop_key};

// Rule S1: after how many milliseconds a key is dropped.
const LIFETIME: u64 = 3000;

// Rule S1: whether a row has a key that is too old. It is not if the clock went back.
fn is_expired(used: bool, first: u64, time: u64) -> bool
    ensures { result ≡ (used && is_old time first) }
{
    used && LIFETIME <= time.saturating_sub(first)
}

// The table after a sweep, and how many keys it dropped (rule S2).
#[derive(Clone, Copy)]
pub struct Swept {
    pub table: Table,
    pub dropped: usize,
}

// Rules S1 and S2: the table without the keys that are too old at `time`, and how many they were.
pub fn sweep_step(t: Table, time: u64) -> Swept
    ensures { result ≡ swept t time }
{
    let mut table = t;
    let mut dropped = 0;
    for row in 0..KEYS {
        if is_expired(table.used[row], table.firsts[row], time) {
            drop_key(&mut table, row);
            dropped += 1;
        }
    }
    Swept { table, dropped }
}
