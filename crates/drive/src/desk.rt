// What the commands work on, and which library answers a command.
ghost use Rattle.pushing.specs.Made.{Made};

use answer_lines::Answers;
use command_lines::Line;
use stations::Stations;
use table::{STORE_SIZE, Table};

// The library that answers a command.
#[derive(Clone, Copy)]
enum Part {
    Kinds,
    Payloads,
    Table,
    Stations,
    Links,
    Cutting,
    Captures,
}

// The one place that says which library answers a letter, with the field of its line that has the bytes.
fn part_of(letter: u8) -> Option<(Part, usize)> {
    if let Some(field) = kind_commands::field_of_bytes(letter) {
        return Some((Part::Kinds, field));
    }
    if let Some(field) = payload_commands::field_of_bytes(letter) {
        return Some((Part::Payloads, field));
    }
    if let Some(field) = table_commands::field_of_bytes(letter) {
        return Some((Part::Table, field));
    }
    if let Some(field) = station_commands::field_of_bytes(letter) {
        return Some((Part::Stations, field));
    }
    if let Some(field) = link_commands::field_of_bytes(letter) {
        return Some((Part::Links, field));
    }
    if let Some(field) = cutting_commands::field_of_bytes(letter) {
        return Some((Part::Cutting, field));
    }
    if let Some(field) = capture_commands::field_of_bytes(letter) {
        return Some((Part::Captures, field));
    }
    None
}

// The tables, the buffers that are lent to the library's calls, and the answers. Its methods say `Made` of the table,
// which has cases, and so can't be a ghost field.
#[derive(Drop)]
pub(crate) struct Desk {
    pub(crate) table: Table,
    stations: Stations,
    out: [u8; 66048],
    store: [u8; STORE_SIZE],
    pub(crate) text: Answers,
}

impl Desk {
    // Fresh tables, and nothing answered yet.
    pub(crate) fn new() -> Self
        ensures { Made result.table }
    {
        Desk {
            table: table_commands::fresh(),
            stations: stations::fresh(),
            out: [0; 66048],
            store: [0; STORE_SIZE],
            text: Answers::new(),
        }
    }

    // Answers a line from the bytes that it has.
    fn answer_as(&mut self, part: Part, line: &Line, bytes: &[u8])
        requires { Made self.old.table }
        ensures { Made self.new.table }
    {
        let text = &mut self.text;
        match part {
            Part::Kinds => kind_commands::answer(line, bytes, &mut self.out, text),
            Part::Payloads => payload_commands::answer(line, bytes, text),
            Part::Table => table_commands::answer(
                &mut self.table,
                line,
                bytes,
                &mut self.out,
                &mut self.store,
                text,
            ),
            Part::Stations => station_commands::answer(&mut self.stations, line, bytes, text),
            Part::Links => link_commands::answer(line, bytes, text),
            Part::Cutting => cutting_commands::answer(line, bytes, text),
            Part::Captures => capture_commands::answer(line, bytes, &mut self.out, text),
        }
    }

    // Reads the bytes that a line has, and answers it. `None` is no command.
    pub(crate) fn answer(&mut self, line: &[u8], data: &mut [u8]) -> Option<()>
        requires { Made self.old.table }
        ensures { Made self.new.table }
    {
        let given = Line::of_command(line);
        let (part, field) = part_of(given.letter())?;
        let n = given.decode(field, data);
        let command = command_lines::command_of(line, n);
        if command.is_empty() {
            return None;
        }
        self.answer_as(part, &Line::of_command(command), &data[..n]);
        Some(())
    }
}
