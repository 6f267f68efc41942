// Rules T7 to T9, step 4 of push: a fragment marked last is joined with those that its key holds. Each number is
// looked up when it is needed. The fragments are never copied to be sorted.
ghost use Rattle.std.specs.Prelude.{◌≡◌, List, ℕ, ◌+◌, ◌≤◌, ◌<◌, length, get_or};
ghost use Rattle.table.specs.Rows.{keys, place_size, store_size};
ghost use Rattle.pushing.specs.Push.{over, join_by, pushed_of, answer_by};
ghost use Rattle.pushing.specs.PrivateSteps.{fragment_at, size_at, piece_bytes, pieces_to, reach_for, gap_in, compared_in, join_in, Ends};

use crate::look::{find_numbered, is_beyond, is_unlike};
use crate::rows::copy;
use crate::{Fragment, Pushed};
use numbers::Refusal;
use table::{PLACE_SIZE, PLACES, Table};

// What stands for the new fragment among the places: the number after `PLACES`, which stands for none.
const NEW_PIECE: usize = PLACES + 1;

// Where the piece with number k lies: in a place, `PLACES` where there is none, `NEW_PIECE` for the new fragment.
fn piece_at(t: &Table, row: usize, number: u8, k: u8) -> usize
    requires { row ≤ keys }
    ensures { result ≡ fragment_at t.now.owners t.now.numbers row number k }
{
    if k == number {
        return NEW_PIECE;
    }
    find_numbered(t, row as u8 + 1, k)
}

// How many bytes a piece has; `size` is the new fragment's.
fn size_at(t: &Table, size: usize, piece: usize) -> usize
    ensures { result ≡ size_at t.now.sizes size piece }
{
    if piece < PLACES {
        t.sizes[piece] as usize
    } else {
        size
    }
}

// How many numbers from 0 on are there without a gap, and how many bytes their payloads have.
#[derive(Clone, Copy)]
pub(crate) struct Reach {
    pub count: usize,
    pub total: usize,
}

fn reach_of(t: &Table, row: usize, number: u8, size: usize) -> Reach
    requires { (row ≤ keys) × (size ≤ place_size) × ((i : ℕ) → get_or t.now.sizes i 0 ≤ place_size) }
    ensures { (result ≡ reach_for t.now.sizes t.now.owners t.now.numbers row number size) × (result.count ≤ 256) }
{
    let mut total: usize = 0;
    for k in 0..256 {
        let piece = piece_at(t, row, number, k as u8);
        if piece == PLACES {
            return Reach { count: k, total };
        }
        total += size_at(t, size, piece);
    }
    Reach { count: 256, total }
}

// Rule T8: whether a number is there above one that is not.
fn is_gapped(t: &Table, owner: u8, number: u8, count: usize) -> bool
    ensures { result ≡ gap_in t.now.owners t.now.numbers owner number count }
{
    count < number as usize || is_beyond(t, owner, count)
}

// What decides the joining: the three tests of rule T8, how many numbers from 0 on are there, and how many bytes their
// payloads have.
#[derive(Clone, Copy)]
pub(crate) struct Seen {
    pub unlike: bool,
    pub gapped: bool,
    pub marked: bool,
    pub count: usize,
    pub total: usize,
}

// Rules T8 and T9: what joining answers. An output that is shorter than the message is refused by 13.
#[tactic(auto, unfolding(crate::specs::Push::message_way))]
pub(crate) fn judge(s: Seen, room: usize) -> Result<Pushed, Refusal>
    ensures { (bytes : List ℕ) → s.total ≡ length bytes → pushed_of result ≡ answer_by (join_by s.unlike s.gapped s.marked s.count bytes room) }
{
    if s.unlike {
        return Ok(Pushed::InconsistentMetadata);
    }
    if s.gapped {
        return Ok(Pushed::MissingFragments);
    }
    if !s.marked {
        return Ok(Pushed::MissingLastFragment);
    }
    if s.count <= 1 {
        return Ok(Pushed::Single(s.total));
    }
    if room < s.total {
        return Err(Refusal::OutputTooSmall(s.total));
    }
    Ok(Pushed::Joined(s.total))
}

// The bytes of a piece: in the store, or the new fragment's payload.
#[tactic(auto, unfolding(crate::specs::PrivateSteps::piece_bytes))]
fn bytes_of<'a>(t: &Table, store: &'a [u8], payload: &'a [u8], piece: usize) -> &'a [u8]
    requires { ((i : ℕ) → get_or t.now.sizes i 0 ≤ place_size) × (store_size ≤ length store.now) }
    ensures { result.now ≡ piece_bytes t.now.sizes store.now payload.now piece }
{
    if piece < PLACES {
        let start = piece * PLACE_SIZE;
        return &store[start..start + t.sizes[piece] as usize];
    }
    payload
}

// Which pieces: those with numbers below `count`, of a row's fragments and the new one.
#[derive(Clone, Copy)]
pub(crate) struct Pieces {
    pub row: usize,
    pub number: u8,
    pub count: usize,
}

// Rule T9: the pieces go to the start of the output, in the order of their numbers.
fn join_into(t: &Table, store: &[u8], payload: &[u8], p: Pieces, out: &mut [u8])
    requires { (p.row ≤ keys) × ((i : ℕ) → get_or t.now.sizes i 0 ≤ place_size) × (store_size ≤ length store.now) × (p.count ≤ 256)
        × (length (pieces_to t.now.sizes t.now.owners t.now.numbers store.now p.row p.number payload.now p.count) ≤ length out.old) }
    ensures { out.new ≡ over (pieces_to t.now.sizes t.now.owners t.now.numbers store.now p.row p.number payload.now p.count) out.old }
{
    let mut at: usize = 0;
    for k in 0..p.count {
        let piece = piece_at(t, p.row, p.number, k as u8);
        let bytes = bytes_of(t, store, payload, piece);
        copy(bytes, out, at);
        at += bytes.len();
    }
}

// A last fragment that was compared with those that its row holds (rule T8).
#[derive(Clone, Copy)]
pub(crate) struct Compared {
    pub row: usize,
    pub number: u8,
    // whether one of them has another version or type
    pub unlike: bool,
}

pub(crate) fn compare(t: &Table, row: usize, f: Fragment) -> Compared
    requires { row ≤ keys }
    ensures { result ≡ compared_in t.now.owners t.now.versions t.now.message_types row f }
{
    Compared {
        row,
        number: f.number,
        unlike: is_unlike(t, row as u8 + 1, f),
    }
}

// Rules T7 to T9, step 4 of push: what a fragment marked last is answered. A joined message goes to the output.
pub(crate) fn finish(
    t: &Table,
    store: &[u8],
    payload: &[u8],
    last: Compared,
    out: &mut [u8],
) -> Result<Pushed, Refusal>
    requires { (last.row ≤ keys) × ((i : ℕ) → get_or t.now.sizes i 0 ≤ place_size) × (store_size ≤ length store.now) × (length payload.now ≤ place_size) }
    ensures { Ends (join_in t.now.sizes t.now.owners t.now.numbers store.now payload.now last (length out.old)) result out.old out.new }
{
    let row = last.row;
    let number = last.number;
    let reached = reach_of(t, row, number, payload.len());
    let count = reached.count;
    let gapped = is_gapped(t, row as u8 + 1, number, count);
    let seen = Seen {
        unlike: last.unlike,
        gapped,
        marked: count == number as usize + 1,
        count,
        total: reached.total,
    };
    let answer = judge(seen, out.len())?;
    if let Pushed::Joined(_) = answer {
        join_into(t, store, payload, Pieces { row, number, count }, out);
    }
    Ok(answer)
}
