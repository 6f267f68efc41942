// The commands of how a message is cut (part M of docs/RULES.md): q, which checks what others cut, and Q, which cuts.
#![tactic(auto)]

mod cutter;
mod proposals;

ghost use Rattle.std.specs.Prelude.{◌≤◌, IfSome};

use answer_lines::Answers;
use command_lines::Line;
use walking::PayloadError;

// Which field of a line has the command's bytes, for the letters of these commands.
pub fn field_of_bytes(letter: u8) -> Option<usize>
    ensures { IfSome result (λ n. n ≤ 3) }
{
    match letter {
        b'q' => Some(3),
        b'Q' => Some(2),
        _ => None,
    }
}

fn answered(line: &Line, bytes: &[u8], text: &mut Answers) -> Result<(), PayloadError> {
    match line.letter() {
        b'q' => proposals::check(&line.pieces(2, b','), line.size(1), bytes, text),
        _ => cutter::cut(bytes, line.size(1), text),
    }
}

// Answers one line from the bytes that it has. payload_commands has the same match: a method of `Answers` for it would
// make `answer_lines` know of walks.
pub fn answer(line: &Line, bytes: &[u8], text: &mut Answers) {
    match answered(line, bytes, text) {
        Ok(()) => {}
        Err(PayloadError::Unwalked(unwalked)) => {
            text.put_refused_at(unwalked.refusal, unwalked.at);
        }
        Err(PayloadError::Refused(refusal)) => text.put_refused(refusal),
    }
}
