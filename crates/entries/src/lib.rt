// The entries of a value in order, one call for each (rule E9): an entry comes before those of its own list. The first
// call reads the value whole. The others read the entry alone, where asking by number reads the value again each time.
// Going on gives what asking by number gives (rule E10).
#![tactic(auto)]

ghost use Rattle.std.specs.Prelude.{◌≡◌, ◌<◌};
ghost use Rattle.numbers.specs.Numbers.{answered};
ghost use Rattle.entries.specs.Entries.{entries_in_lem, first_cursor_lem, beginning, pass_radio_lem, pass_in_lem, entered, next_level_lem, moved, gone_on_lem};

use kinds::Contents;
use layouts::ListAt;
use numbers::Refusal;
use texts::DEVICE_INVENTORY;

// Where a caller stands among the entries of a value. It crosses to C as it is.
#[repr(C)]
#[derive(Clone, Copy)]
pub struct Cursor {
    // where the next entry starts
    pub at: usize,
    // how many entries are still to come in the outermost list, in the open list one level down, and in the one below
    pub left1: usize,
    pub left2: usize,
    pub left3: usize,
    // the kind of the value
    pub code: u8,
    // how many levels are gone into; the lists below these are passed over
    pub depth: u8,
}

// An entry: where it starts, how many entries its own list has (0 where it has none), and its level, from 1.
#[derive(Clone, Copy)]
pub struct EntryAt {
    pub start: usize,
    pub entries: usize,
    pub level: u8,
}

// The entries of a value begun: the cursor at the first one, how many entries the outermost list has, and how many
// bytes were consumed and follow these (rule K1).
#[derive(Clone, Copy)]
pub struct Start {
    pub cursor: Cursor,
    pub entries: usize,
    pub consumed: usize,
    pub rest: usize,
}

// The next entry, with the cursor after it.
#[derive(Clone, Copy)]
pub struct Gone {
    pub entry: EntryAt,
    pub cursor: Cursor,
}

// The outermost list of a value that reads and is no record.
#[tactic(auto, unfolding(crate::specs::Entries::entries_in_lem))]
fn entries_in(code: u8, s: &[u8]) -> Result<ListAt, Refusal>
    ensures { answered result ≡ entries_in_lem code s.now }
{
    if texts::is_text(code) {
        return texts::radios(code, s);
    }
    layouts::pass(code, 0, true, s, 0)
}

// The cursor at the first entry of this list. If no level is gone into, none is to come.
#[tactic(auto, using(crate::proofs::Laws::first_all))]
fn first_cursor(code: u8, depth: u8, list: ListAt) -> Cursor
    ensures { result ≡ first_cursor_lem code depth list }
{
    Cursor {
        at: list.first,
        left1: if depth == 0 { 0 } else { list.many },
        left2: 0,
        left3: 0,
        code,
        depth,
    }
}

// Begins the entries of the value s, down to `depth` levels (rule E9). The value is read whole, with the refusals of
// reading; then 6 for a record kind.
#[tactic(auto, using(crate::proofs::Laws::begun_not, crate::proofs::Laws::begun_record, crate::proofs::Laws::begun_list, crate::proofs::Laws::begun_cut))]
pub fn begin(code: u8, depth: u8, s: &[u8]) -> Result<Start, Refusal>
    ensures { answered result ≡ beginning code depth s.now }
{
    let value = kinds::read_kind(code, s)?;
    let Contents::List(_) = value.held else {
        return Err(Refusal::NoEntry);
    };
    let list = entries_in(code, s)?;
    Ok(Start {
        cursor: first_cursor(code, depth, list),
        entries: list.many,
        consumed: value.consumed,
        rest: value.rest,
    })
}

// A radio is the one entry of a DeviceInventory that there is, and it has no list (rule E8).
#[tactic(auto, unfolding(crate::specs::Entries::pass_radio_lem))]
fn pass_radio(level: u8, s: &[u8], at: usize) -> Result<ListAt, Refusal>
    ensures { answered result ≡ pass_radio_lem level s.now at }
{
    if level != 1 {
        return Err(Refusal::NoEntry);
    }
    let end = texts::radio_end(s, at)?;
    Ok(ListAt {
        many: 0,
        first: end,
    })
}

// Goes over the entry of this level at `at`: how many entries its own list has, and where to go on.
#[tactic(auto, unfolding(crate::specs::Entries::pass_in_lem))]
fn pass_in(code: u8, level: u8, enter: bool, s: &[u8], at: usize) -> Result<ListAt, Refusal>
    ensures { answered result ≡ pass_in_lem code level enter s.now at }
{
    if code == DEVICE_INVENTORY {
        return pass_radio(level, s, at);
    }
    layouts::pass(code, level, enter, s, at)
}

// The level of the next entry: the deepest list with entries left goes first. 0 where none is left.
#[tactic(auto, unfolding(crate::specs::Entries::next_level_lem))]
fn next_level(cursor: Cursor) -> u8
    ensures { result ≡ next_level_lem cursor }
{
    if 0 < cursor.left3 {
        return 3;
    }
    if 0 < cursor.left2 {
        return 2;
    }
    if 0 < cursor.left1 {
        return 1;
    }
    0
}

// How many entries of a list are gone over next: all n if it is entered.
fn entered(enter: bool, n: usize) -> usize
    ensures { result ≡ entered enter n }
{
    if enter {
        return n;
    }
    0
}

// The cursor after the next entry: one less is left in its list, and n in the list below it.
#[tactic(auto, using(crate::proofs::Laws::outermost), unfolding(crate::specs::Entries::moved))]
fn moved(cursor: Cursor, n: usize, at: usize) -> Cursor
    requires { 0 < next_level_lem cursor }
    ensures { result ≡ moved cursor n at }
{
    if 0 < cursor.left3 {
        return Cursor {
            at,
            left3: cursor.left3 - 1,
            ..cursor
        };
    }
    if 0 < cursor.left2 {
        return Cursor {
            at,
            left2: cursor.left2 - 1,
            left3: n,
            ..cursor
        };
    }
    Cursor {
        at,
        left1: cursor.left1 - 1,
        left2: n,
        left3: 0,
        ..cursor
    }
}

// The next entry of the value s, or that none is left (rule E9). Any cursor is taken, and any bytes: one that `begin`
// didn't make, or a value that was altered in between, gets an answer or a refusal.
#[tactic(auto, using(crate::proofs::Laws::gone_to, crate::proofs::Laws::gone_cut), unfolding(crate::specs::Entries::gone_on_lem))]
pub fn go_on(cursor: Cursor, s: &[u8]) -> Result<Option<Gone>, Refusal>
    ensures { answered result ≡ gone_on_lem cursor s.now }
{
    let level = next_level(cursor);
    if level == 0 {
        return Ok(None);
    }
    let enter = level < cursor.depth;
    let list = pass_in(cursor.code, level, enter, s, cursor.at)?;
    let entry = EntryAt {
        start: cursor.at,
        entries: list.many,
        level,
    };
    Ok(Some(Gone {
        entry,
        cursor: moved(cursor, entered(enter, list.many), list.first),
    }))
}
