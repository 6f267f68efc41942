// The commands about one TLV, header or value: t, h, r, e, a, u and U, which read, and w, s and f, which write.
#![tactic(auto)]

mod framed;
mod typed;
mod written;

ghost use Rattle.std.specs.Prelude.{◌≤◌, IfSome};

use answer_lines::Answers;
use command_lines::Line;
use numbers::Refusal;

// Which field of a line has the command's bytes, for the letters of these commands; 8 for f, which has none.
pub fn field_of_bytes(letter: u8) -> Option<usize>
    ensures { IfSome result (λ n. n ≤ 8) }
{
    match letter {
        b't' | b'h' => Some(1),
        b'r' | b'a' | b'U' => Some(2),
        b'w' | b's' | b'e' | b'u' => Some(3),
        b'f' => Some(8),
        _ => None,
    }
}

fn answered(line: &Line, bytes: &[u8], out: &mut [u8], text: &mut Answers) -> Result<(), Refusal> {
    match line.letter() {
        b'w' | b's' | b'f' => written::answer(line, bytes, out, text),
        b't' => framed::read(bytes, text),
        b'h' => framed::header(bytes, text),
        b'r' => typed::read(line.byte(1), bytes, text),
        b'e' => typed::entry(line.byte(1), &line.pieces(2, b'.'), bytes, text),
        b'a' => typed::entries(line.byte(1), bytes, text),
        b'u' => typed::text_of(line.byte(1), line.size(2), bytes, text),
        _ => typed::radio_text(line.size(1), bytes, text),
    }
}

// Answers one line from the bytes that it has.
pub fn answer(line: &Line, bytes: &[u8], out: &mut [u8], text: &mut Answers) {
    if let Err(refusal) = answered(line, bytes, out, text) {
        text.put_refused(refusal);
    }
}
