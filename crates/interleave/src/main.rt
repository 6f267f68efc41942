// Rule D3, run: three senders push a message of three fragments each, in every order that keeps each sender's own.
// There are 1,680 such orders. In each, every sender must get the same answers and the same message. Prints how many
// orders were played and how many differed.
#![tactic(auto)]

ghost use Rattle.std.specs.Prelude.{◌<◌, ◌≤◌};
ghost use Rattle.pushing.specs.Made.{Made};

use numbers::Refusal;
use pushing::{AfterPush, Arrival, Fragment, Pushed};
use std::io;
use table::{STORE_SIZE, Table};

// A push to a table that these calls made leaves such a table (rule A1).
fn pushed_on(t: Table, store: &mut [u8], out: &mut [u8], a: Arrival, payload: &[u8]) -> AfterPush
    requires { Made t }
    ensures { Made result.table }
{
    pushing::push_step(t, store, out, a, payload)
}

// Which sender's turn is turn k of an order: its digit k to the base 3.
fn digit(order: u64, k: u64) -> u64
    ensures { result < 3 }
{
    let mut rest = order;
    for _ in 0..k {
        rest /= 3;
    }
    rest % 3
}

// How many of the first n turns are this sender's.
fn turns(order: u64, n: u64, sender: u64) -> usize
    ensures { result ≤ n }
{
    let mut rest = order;
    let mut found = 0;
    for _ in 0..n {
        if rest % 3 == sender {
            found += 1;
        }
        rest /= 3;
    }
    found
}

// An answer as a number, and the bytes of its message folded into it.
fn folded_reply(answer: Result<Pushed, Refusal>, payload: &[u8], out: &[u8]) -> u64 {
    let code = match answer {
        Ok(Pushed::WaitingForMoreFragments) => 1,
        Ok(Pushed::DuplicatedFragment) => 2,
        Ok(Pushed::InconsistentMetadata) => 3,
        Ok(Pushed::MissingFragments) => 4,
        Ok(Pushed::MissingLastFragment) => 5,
        Ok(Pushed::Single(_)) => 6,
        Ok(Pushed::Joined(_)) => 7,
        Err(_) => 8,
    };
    folded(code, reassembler::show(answer, payload, out))
}

// A number that changes with every byte of a message and with their order.
fn folded(start: u64, bytes: &[u8]) -> u64 {
    let mut sum = start % 16777216;
    for byte in bytes {
        sum = (sum * 31 + u64::from(*byte)) % 16777213;
    }
    sum
}

// The senders use one message id, so that only their addresses keep their messages apart (rule T2).
fn arrival(sender: u8, number: u8, time: u64) -> Arrival {
    Arrival {
        key: keys::key_of(2, 0, 0, 0, 0, sender, 7),
        time,
        fragment: Fragment {
            message_type: 3,
            version: 0,
            number,
            last: number == 2,
        },
    }
}

// What the three senders were answered, folded into one number for each.
type Sums = [u64; 3];

// One order played from a fresh table: nine pushes.
fn play(order: u64, store: &mut [u8], out: &mut [u8]) -> Sums {
    let mut t = table::fresh();
    let mut sums = [0; 3];
    for k in 0..9 {
        let sender = digit(order, k);
        let number = turns(order, k, sender) as u8;
        let payload = [sender as u8, number, 90, 91];
        let after = pushed_on(t, store, out, arrival(sender as u8, number, k), &payload);
        t = after.table;
        let reply = folded_reply(after.answer, &payload, out);
        let sum = &mut sums[sender as usize];
        *sum = *sum % 16777216 * 37 + reply % 16777216;
    }
    sums
}

// Each sender has three turns.
fn is_fair(order: u64) -> bool {
    turns(order, 9, 0) == 3 && turns(order, 9, 1) == 3
}

// How many orders were played, and in how many of them a sender was answered something else.
#[derive(Clone, Copy)]
struct Score {
    played: u64,
    differed: u64,
}

// The orders in which each sender has three turns.
fn play_all(expected: Sums, store: &mut [u8], out: &mut [u8]) -> Score {
    let mut score = Score {
        played: 0,
        differed: 0,
    };
    for order in 0..19683 {
        if is_fair(order) {
            score.played += 1;
            if play(order, store, out) != expected {
                score.differed += 1;
            }
        }
    }
    score
}

// One sender after the other: the digits of this order are 0 three times, 1 three times and 2 three times.
const ONE_BY_ONE: u64 = 19305;

fn main(rt: HostRuntime) -> io::Result<()> {
    let mut store = [0u8; STORE_SIZE];
    let mut out = [0u8; 64];
    let expected = play(ONE_BY_ONE, &mut store, &mut out);
    let score = play_all(expected, &mut store, &mut out);
    println!(rt;
        "{} orders played, {} differed; one by one the senders were told {} {} {}",
        score.played, score.differed, expected[0], expected[1], expected[2]
    )
}
