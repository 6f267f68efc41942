// The commands of the fragment table: z, p, v, c and C.
#![tactic(auto)]

mod contents;

ghost use Rattle.std.specs.Prelude.{◌<◌, ◌≤◌, IfSome};
ghost use Rattle.pushing.specs.Made.{Made};

use answer_lines::Answers;
use command_lines::Line;
use numbers::Refusal;
use pushing::{Arrival, Fragment, Pushed};
use table::{PLACE_SIZE, STORE_SIZE, Table};

// How many bytes of output a push is lent: a fragment's from each place and one more. The longest message has fewer
// (rule T9).
const OUTPUT: usize = STORE_SIZE + PLACE_SIZE;

fn key_in(line: &Line) -> u64 {
    let s = line.field(1);
    keys::key_of(
        command_lines::pair(s, 0),
        command_lines::pair(s, 1),
        command_lines::pair(s, 2),
        command_lines::pair(s, 3),
        command_lines::pair(s, 4),
        command_lines::pair(s, 5),
        line.two_bytes(2),
    )
}

// The fragment of a line; bit 7 of the flags marks the last (rule B6).
fn fragment_in(line: &Line) -> Fragment
    ensures { result.number < 256 }
{
    Fragment {
        message_type: line.two_bytes(4),
        version: line.byte(3),
        number: line.byte(5),
        last: 127 < line.byte(6),
    }
}

// What arrives with a line of p, or of F (crate capture_commands): all of a push but its payload.
pub fn arrival_in(line: &Line) -> Arrival
    ensures { result.fragment.number < 256 }
{
    Arrival {
        key: key_in(line),
        time: line.number(7),
        fragment: fragment_in(line),
    }
}

// A fragment by number, version, type and last mark, and its payload.
pub fn put_fragment(f: Fragment, payload: &[u8], text: &mut Answers) {
    text.put_next(f.number as u64);
    text.put_after(b':', f.version as u64);
    text.put_after(b':', f.message_type as u64);
    text.put_after(b':', f.last as u64);
    text.put_shown(b':', payload);
}

// The word for an answer.
fn word_of(pushed: Pushed) -> &'static [u8] {
    match pushed {
        Pushed::WaitingForMoreFragments => b"waiting",
        Pushed::DuplicatedFragment => b"DuplicatedFragment",
        Pushed::InconsistentMetadata => b"InconsistentMetadata",
        Pushed::MissingFragments => b"MissingFragments",
        Pushed::MissingLastFragment => b"MissingLastFragment",
        Pushed::Single(_) => b"complete single",
        Pushed::Joined(_) => b"complete joined",
    }
}

// A finished message is shown after its word.
fn put_answer(answer: Result<Pushed, Refusal>, payload: &[u8], out: &[u8], text: &mut Answers) {
    match answer {
        Ok(pushed) => {
            text.put(word_of(pushed));
            if let Pushed::Single(_) | Pushed::Joined(_) = pushed {
                text.put_shown(b' ', reassembler::show(answer, payload, out));
            }
        }
        Err(refusal) => text.put_refused(refusal),
    }
}

// How many bytes a push lends: what field n says, or `otherwise` where the line has no such field.
fn lent(line: &Line, n: usize, otherwise: usize) -> usize {
    if line.field(n).is_empty() {
        otherwise
    } else {
        line.size(n)
    }
}

// p: a push (rules T4 to T10). Two more fields say how many bytes of output and of store are lent.
fn push(
    t: &mut Table,
    line: &Line,
    payload: &[u8],
    out: &mut [u8],
    store: &mut [u8],
) -> Result<Pushed, Refusal>
    requires { Made t.old }
    ensures { Made t.new }
{
    let room = lent(line, 9, OUTPUT).min(out.len());
    let kept = lent(line, 10, STORE_SIZE).min(store.len());
    let arrival = arrival_in(line);
    reassembler::push(t, &mut store[..kept], &mut out[..room], arrival, payload)
}

// v: a sweep, and how many keys it dropped (rule S2).
fn sweep(t: &mut Table, time: u64, text: &mut Answers)
    requires { Made t.old }
    ensures { Made t.new }
{
    let dropped = reassembler::sweep(t, time);
    text.put(b"swept");
    text.put_next(dropped as u64);
}

// Which field of a line has the command's bytes, for the letters of these commands: the payload of a push is the only
// one.
pub fn field_of_bytes(letter: u8) -> Option<usize>
    ensures { IfSome result (λ n. n ≤ 8) }
{
    match letter {
        b'z' | b'p' | b'v' | b'c' | b'C' => Some(8),
        _ => None,
    }
}

// A fresh table, which is one that these calls made (rule A1).
pub fn fresh() -> Table
    ensures { Made result }
{
    table::fresh()
}

// Answers one line about the table. `Made` has cases, and a push asks for it whole, so it is no ghost field of a type.
pub fn answer(
    t: &mut Table,
    line: &Line,
    payload: &[u8],
    out: &mut [u8],
    store: &mut [u8],
    text: &mut Answers,
)
    requires { Made t.old }
    ensures { Made t.new }
{
    match line.letter() {
        b'z' => {
            *t = fresh();
            text.put_ok();
        }
        b'p' => {
            let answer = push(t, line, payload, out, store);
            put_answer(answer, payload, out, text);
        }
        b'v' => sweep(t, line.number(1), text),
        b'c' => contents::put_contents(t, store, text),
        _ => contents::put_senders(t, text),
    }
}
