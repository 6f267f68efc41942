// The commands of captures (part G of docs/RULES.md): H and F, which write, and R, which reads.
#![tactic(auto)]

ghost use Rattle.std.specs.Prelude.{◌≡◌, ◌≤◌, ◌++◌, take, drop, IfSome};
ghost use Rattle.numbers.specs.Numbers.{answered};
ghost use Rattle.captures.specs.Reading.{frames_counted, capture_in, with_room_lem, frames_left};

use answer_lines::Answers;
use captures::{Frame, FrameCount};
use command_lines::Line;
use numbers::Refusal;
use pushing::Fragment;

// The most frames that a command lends a list for.
const LISTED: usize = 40;

// Which field of a line has the command's bytes, for the letters of these commands; H has none, and no such field.
pub fn field_of_bytes(letter: u8) -> Option<usize>
    ensures { IfSome result (λ n. n ≤ 8) }
{
    match letter {
        b'H' | b'R' => Some(2),
        b'F' => Some(8),
        _ => None,
    }
}

// H: a file header, into as much room as the line says (rule G5).
fn put_header(line: &Line, out: &mut [u8], text: &mut Answers) -> Result<(), Refusal> {
    let room = line.size(1).min(out.len());
    let size = captures::write_file_header(&mut out[..room])?;
    text.put_ok_shown(command_lines::part(out, 0, size));
    Ok(())
}

// F: a frame, from what a push takes, into as much room as the line says (rule G5).
fn put_frame(
    line: &Line,
    payload: &[u8],
    out: &mut [u8],
    text: &mut Answers,
) -> Result<(), Refusal> {
    let arrival = table_commands::arrival_in(line);
    let room = line.size(9).min(out.len());
    let size = captures::write_frame(arrival, payload, &mut out[..room])?;
    text.put_ok_shown(command_lines::part(out, 0, size));
    Ok(())
}

// A frame as it was read: sender and id, when it was seen, and its fragment (rule G9).
fn put_read(file: &[u8], f: Frame, text: &mut Answers) {
    let h = f.cmdu;
    record_lines::put_address(f.sender, b' ', text);
    text.put_after(b'/', h.message_id as u64);
    text.put_after(b'@', f.seconds as u64);
    text.put_after(b':', f.microseconds as u64);
    let fragment = Fragment {
        message_type: h.message_type,
        version: h.message_version,
        number: h.fragment,
        last: h.last_fragment,
    };
    table_commands::put_fragment(fragment, captures::payload(file, f), text);
}

// Reads a capture into the first `room` elements of the list.
fn list_frames(list: &mut [Frame; LISTED], room: usize, file: &[u8]) -> Result<FrameCount, Refusal>
    requires { room ≤ 40 }
    ensures { (answered result ≡ frames_counted (with_room_lem room (capture_in file.now)))
        × (list.new ≡ frames_left (with_room_lem room (capture_in file.now)) (take room list.old) ++ drop room list.old) }
{
    captures::frames_into(&mut list[..room], file)
}

// R: the frames of a capture, in a list of so many elements (rule G8), and how many frames were passed over.
fn put_capture(line: &Line, file: &[u8], text: &mut Answers) -> Result<(), Refusal> {
    let mut list = [captures::no_frame(); LISTED];
    let count = list_frames(&mut list, line.size(1).min(LISTED), file)?;
    text.put_ok();
    text.put_next(count.handed as u64);
    text.put_next(count.passed_over as u64);
    for f in list.iter().take(count.handed) {
        put_read(file, *f, text);
    }
    Ok(())
}

fn answered(line: &Line, bytes: &[u8], out: &mut [u8], text: &mut Answers) -> Result<(), Refusal> {
    match line.letter() {
        b'R' => put_capture(line, bytes, text),
        b'H' => put_header(line, out, text),
        _ => put_frame(line, bytes, out, text),
    }
}

// Answers one line about captures.
pub fn answer(line: &Line, bytes: &[u8], out: &mut [u8], text: &mut Answers) {
    if let Err(refusal) = answered(line, bytes, out, text) {
        text.put_refused(refusal);
    }
}
