// Messages that are not whole: keys that a sweep drops, and keys that are open at the end (rules H7 and H8).
ghost use Rattle.std.specs.Prelude.{◌≡◌};

use crate::{Heading, Said};
use answer_lines::Answers;
use field_lines::Counted;
use records::MacAddr;
use std::fmt::Write;
use table::Table;

// The fragments of a key's row: how many places they take, and the message type in the lowest of these.
#[derive(Clone, Copy)]
struct Kept {
    count: u64,
    message_type: u16,
}

// The owner of a place is 1 more than the row of its key.
fn kept_in(t: &Table, row: usize) -> Kept {
    let mut kept = Kept {
        count: 0,
        message_type: 0,
    };
    for (owner, message_type) in t.owners.iter().zip(t.message_types) {
        if usize::from(*owner).checked_sub(1) == Some(row) {
            if kept.count == 0 {
                kept.message_type = message_type;
            }
            kept.count = kept.count.wrapping_add(1);
        }
    }
    kept
}

// The sender of a key (rule T2).
fn sender_in(key: u64) -> MacAddr {
    let [b0, b1, b2, b3, b4, b5, _, _] = key.to_be_bytes();
    MacAddr {
        b0,
        b1,
        b2,
        b3,
        b4,
        b5,
    }
}

// The line of a row's key. A struct of what it is given would be made for this call alone.
fn put_row(rt: &impl Print, text: &mut Answers, t: &Table, row: usize, time: u64, why: &str) {
    if let Some(key) = t.row_keys.get(row) {
        let kept = kept_in(t, row);
        let heading = Heading {
            time,
            sender: sender_in(*key),
            message_type: kept.message_type,
            message_id: (*key % 65536) as u16,
        };
        let fragments = Counted {
            count: kept.count,
            what: "fragment",
        };
        text.with_room(rt);
        let _ = write!(text, "{heading}: {why}, {fragments}\n");
    }
}

// The keys that a sweep at this time drops.
pub(crate) fn put_swept(rt: &impl Print, text: &mut Answers, t: &Table, time: u64) -> Said
    ensures { result.messages ≡ 0 }
{
    let swept = sweeping::sweep_step(*t, time);
    if 0 < swept.dropped {
        for (row, (before, after)) in t.used.iter().zip(swept.table.used).enumerate() {
            if *before && !after {
                put_row(rt, text, t, row, time, "lost, not whole after 3 seconds");
            }
        }
    }
    Said {
        messages: 0,
        losses: swept.dropped as u64,
    }
}

// The keys that the table holds.
pub(crate) fn put_open(rt: &impl Print, text: &mut Answers, t: &Table) -> Said
    ensures { result.messages ≡ 0 }
{
    let mut losses: u64 = 0;
    for (row, (used, first)) in t.used.iter().zip(t.firsts).enumerate() {
        if *used {
            put_row(rt, text, t, row, first, "still open at the end");
            losses = losses.wrapping_add(1);
        }
    }
    Said {
        messages: 0,
        losses,
    }
}
