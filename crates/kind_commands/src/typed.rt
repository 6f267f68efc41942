// The commands of the kinds that read: r, e, a, u and U.
use answer_lines::{Answers, Tally};
use command_lines::Line;
use kinds::Contents;
use layouts::Path;
use numbers::Refusal;

// No value has as many entries and ends of lists.
const TURNS: usize = 1000000;

// What stands in front of the list: an address or two, or nothing.
fn front_of(code: u8, data: &[u8]) -> &[u8] {
    let size = match code {
        6 | 7 => 6,
        9 | 10 => 12,
        _ => 0,
    };
    command_lines::part(data, 0, size)
}

// The texts of a value, three or the one of kind 22, and how many radios kind 0xD4 has.
fn put_texts(code: u8, data: &[u8], radios: usize, text: &mut Answers) {
    text.put_shown(b' ', texts::text(code, 0, data));
    if code == 22 {
        return;
    }
    text.put_shown(b' ', texts::text(code, 1, data));
    text.put_shown(b' ', texts::text(code, 2, data));
    if code != 21 {
        text.put_next(radios as u64);
    }
}

// What a value without a record holds: its texts, or the front of its list, and how many entries it has.
fn put_list(code: u8, data: &[u8], entries: usize, text: &mut Answers) {
    if texts::is_text(code) {
        put_texts(code, data, entries, text);
    } else {
        text.put_shown(b' ', front_of(code, data));
        text.put_next(entries as u64);
    }
}

// r: a value read (rule K1), how many of its bytes were read, and how many are left.
pub(crate) fn read(code: u8, data: &[u8], text: &mut Answers) -> Result<(), Refusal> {
    let typed = kinds::read_kind(code, data)?;
    text.put_ok();
    text.put_next(typed.consumed as u64);
    text.put_next(typed.rest as u64);
    match typed.held {
        Contents::One(record) => record_lines::put_record(record, text),
        Contents::List(entries) => put_list(code, data, entries, text),
    }
    Ok(())
}

// An entry's numbers, from the outer list in.
fn path_of(numbers: &Line) -> Path {
    Path {
        depth: numbers.count(),
        i0: numbers.size(0),
        i1: numbers.size(1),
        i2: numbers.size(2),
    }
}

// A part of a value that is there.
fn put_part(part: &[u8], text: &mut Answers) {
    text.put_ok();
    text.put_shown(b' ', part);
}

// e: an entry by its numbers (rule E1).
pub(crate) fn entry(
    code: u8,
    numbers: &Line,
    data: &[u8],
    text: &mut Answers,
) -> Result<(), Refusal> {
    let path = path_of(numbers);
    kinds::locate(code, path, data)?;
    put_part(kinds::entry(code, path, data), text);
    Ok(())
}

// u: the text of a value with this number (rule E7).
pub(crate) fn text_of(
    code: u8,
    number: usize,
    data: &[u8],
    text: &mut Answers,
) -> Result<(), Refusal> {
    kinds::locate_text(code, number, data)?;
    put_part(texts::text(code, number, data), text);
    Ok(())
}

// U: the text of the radio with this number (rule E8).
pub(crate) fn radio_text(number: usize, data: &[u8], text: &mut Answers) -> Result<(), Refusal> {
    texts::locate_radio_text(number, data)?;
    put_part(texts::radio_text(number, data), text);
    Ok(())
}

// The entry after this one in the same list.
fn following(p: Path) -> Path {
    match p.depth {
        1 => Path {
            i0: p.i0.wrapping_add(1),
            i1: 0,
            i2: 0,
            ..p
        },
        2 => Path {
            i1: p.i1.wrapping_add(1),
            i2: 0,
            ..p
        },
        _ => Path {
            i2: p.i2.wrapping_add(1),
            ..p
        },
    }
}

// After an entry that is there comes the first one below it, or at the lowest level the next one in its list. After one
// that isn't there comes the one after the entry above, if there is one above.
fn next(p: Path, is_there: bool) -> Option<Path> {
    let depth = p.depth;
    if is_there && 3 <= depth {
        return Some(following(p));
    }
    if is_there {
        return Some(Path {
            depth: depth + 1,
            ..p
        });
    }
    if depth < 2 {
        return None;
    }
    Some(following(Path {
        depth: depth - 1,
        ..p
    }))
}

// The checksum goes on over the numbers of an entry.
fn sum_path(sum: u64, p: Path) -> u64 {
    let depth = answer_lines::sum_byte(sum, (p.depth % 256) as u8);
    let numbers = [p.i0, p.i1, p.i2];
    numbers
        .iter()
        .take(p.depth)
        .fold(depth, |sum, number| answer_lines::sum_two(sum, *number))
}

// Every entry of a value, each before those below it.
fn all_entries(code: u8, data: &[u8]) -> Tally {
    let mut all = Tally::new();
    let mut p = Path {
        depth: 1,
        i0: 0,
        i1: 0,
        i2: 0,
    };
    for _ in 0..TURNS {
        let is_there = kinds::locate(code, p, data).is_ok();
        if is_there {
            let before = Tally {
                count: all.count,
                sum: sum_path(all.sum, p),
            };
            all = before.with_part(kinds::entry(code, p, data));
        }
        match next(p, is_there) {
            Some(after) => p = after,
            None => return all,
        }
    }
    all
}

// a: every entry at every level.
pub(crate) fn entries(code: u8, data: &[u8], text: &mut Answers) -> Result<(), Refusal> {
    kinds::read_kind(code, data)?;
    text.put_tally(all_entries(code, data));
    Ok(())
}
