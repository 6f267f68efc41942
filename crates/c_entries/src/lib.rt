// What the calls about entries answer (rules E3 and E9), as it crosses to C (rule C1): plain structs, in numbers. A
// cursor crosses as it is.
#![tactic(auto)]

ghost use Rattle.std.specs.Prelude.{◌≡◌};
ghost use Rattle.numbers.specs.Numbers.{answered};
ghost use Rattle.entries.specs.Entries.{gone_on_lem};
ghost use Rattle.c_entries.specs.Numbers.{no_cursor_lem, begun_numbers_lem, without_entry_lem, entry_numbers_lem, cursor_after_lem, after_step, count_numbers_lem};

use entries::{Cursor, Gone, Start};
use numbers::Refusal;

// The entries of a value begun (rule E9): the cursor at the first one, how many entries the outermost list has, and how
// many bytes were consumed and follow these. Where it is refused, nothing is left to the cursor.
#[repr(C)]
#[derive(Clone, Copy)]
pub struct AshlarBegun {
    pub cursor: Cursor,
    pub entries: usize,
    pub consumed: usize,
    pub rest: usize,
    pub refusal: u8,
}

// What going on gives (rule E9): 1 no entry is left, 2 an entry; 0 where it is refused. The entry starts at `start`,
// its own list has `entries` entries, and its level counts from 1.
#[repr(C)]
#[derive(Clone, Copy, Default)]
pub struct AshlarEntry {
    pub start: usize,
    pub entries: usize,
    pub level: u8,
    pub answer: u8,
    pub refusal: u8,
}

// The same with the cursor after it. It doesn't cross: C's own cursor is altered.
#[derive(Clone, Copy)]
pub struct AfterStep {
    pub cursor: Cursor,
    pub entry: AshlarEntry,
}

// How many entries a list has (rule E3).
#[repr(C)]
#[derive(Clone, Copy)]
pub struct AshlarCount {
    pub entries: usize,
    pub refusal: u8,
}

// A cursor to which nothing is left.
fn no_cursor() -> Cursor
    ensures { result ≡ no_cursor_lem }
{
    Cursor {
        at: 0,
        left1: 0,
        left2: 0,
        left3: 0,
        code: 0,
        depth: 0,
    }
}

// What beginning answers.
pub fn begun_numbers(begun: Result<Start, Refusal>) -> AshlarBegun
    ensures { result ≡ begun_numbers_lem (answered begun) }
{
    match begun {
        Ok(start) => AshlarBegun {
            cursor: start.cursor,
            entries: start.entries,
            consumed: start.consumed,
            rest: start.rest,
            refusal: 0,
        },
        Err(refusal) => AshlarBegun {
            cursor: no_cursor(),
            entries: 0,
            consumed: 0,
            rest: 0,
            refusal: numbers::number_of(refusal),
        },
    }
}

// An answer without an entry.
fn without_entry(answer: u8, refusal: u8) -> AshlarEntry
    ensures { result ≡ without_entry_lem answer refusal }
{
    AshlarEntry {
        answer,
        refusal,
        ..AshlarEntry::default()
    }
}

// What going on answers.
fn entry_numbers(went: Result<Option<Gone>, Refusal>) -> AshlarEntry
    ensures { result ≡ entry_numbers_lem (answered went) }
{
    match went {
        Ok(Some(gone)) => AshlarEntry {
            start: gone.entry.start,
            entries: gone.entry.entries,
            level: gone.entry.level,
            answer: 2,
            refusal: 0,
        },
        Ok(None) => without_entry(1, 0),
        Err(refusal) => without_entry(0, numbers::number_of(refusal)),
    }
}

// Where the cursor then stands. It is altered only where an entry is given.
fn cursor_after(cursor: Cursor, went: Result<Option<Gone>, Refusal>) -> Cursor
    ensures { result ≡ cursor_after_lem cursor (answered went) }
{
    match went {
        Ok(Some(gone)) => gone.cursor,
        Ok(None) => cursor,
        Err(_) => cursor,
    }
}

// Goes on: what it answers, and where the cursor then stands.
pub fn next(cursor: Cursor, value: &[u8]) -> AfterStep
    ensures { result ≡ after_step cursor (gone_on_lem cursor value.now) }
{
    let went = entries::go_on(cursor, value);
    AfterStep {
        cursor: cursor_after(cursor, went),
        entry: entry_numbers(went),
    }
}

// What counting answers.
pub fn count_numbers(counted: Result<usize, Refusal>) -> AshlarCount
    ensures { result ≡ count_numbers_lem (answered counted) }
{
    match counted {
        Ok(entries) => AshlarCount {
            entries,
            refusal: 0,
        },
        Err(refusal) => AshlarCount {
            entries: 0,
            refusal: numbers::number_of(refusal),
        },
    }
}
