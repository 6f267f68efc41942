// The commands over the TLVs of a payload: k, g and L, which walk, and d, D and l, which find.
#![tactic(auto)]

mod found;
mod given;
mod walked;

ghost use Rattle.std.specs.Prelude.{◌≤◌, IfSome};

use answer_lines::Answers;
use command_lines::Line;
use walking::PayloadError;

// Which field of a line has the payload, for the letters of these commands.
pub fn field_of_bytes(letter: u8) -> Option<usize>
    ensures { IfSome result (λ n. n ≤ 3) }
{
    match letter {
        b'k' | b'g' => Some(1),
        b'd' | b'D' | b'L' => Some(2),
        b'l' => Some(3),
        _ => None,
    }
}

fn answered(line: &Line, payload: &[u8], text: &mut Answers) -> Result<(), PayloadError> {
    match line.letter() {
        b'l' => given::first(&line.pieces(2, b','), payload, line.byte(1), text)?,
        b'd' => found::first(payload, line.byte(1), text)?,
        b'D' => found::every(payload, line.byte(1), text)?,
        b'L' => walked::walk_into(payload, line.number(1), text)?,
        _ => walked::walk(payload, text)?,
    }
    Ok(())
}

// Answers one line from the payload that it has.
pub fn answer(line: &Line, payload: &[u8], text: &mut Answers) {
    match answered(line, payload, text) {
        Ok(()) => {}
        Err(PayloadError::Unwalked(unwalked)) => {
            text.put_refused_at(unwalked.refusal, unwalked.at);
        }
        Err(PayloadError::Refused(refusal)) => text.put_refused(refusal),
    }
}
