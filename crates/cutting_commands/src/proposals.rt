// The command q: whether the fragments that it proposes are a cutting of a message (rule M4).
ghost use Rattle.std.specs.Prelude.{◌≡◌, ◌≤◌, take};
ghost use Rattle.walking.specs.Walk.{payload_answered};
ghost use Rattle.cutting.specs.Cuts.{check_of};

use answer_lines::Answers;
use command_lines::Line;
use cutting::Proposed;
use walking::PayloadError;

// The most fragments that a command proposes.
const MOST: usize = 12;

// The fragment of `VERSION:TYPE:ID:NUMBER:LAST:LENGTH`, whose payload begins at `start`.
fn fragment_of(piece: &Line, start: usize) -> Proposed {
    Proposed {
        version: piece.byte(0),
        message_type: piece.two_bytes(1),
        id: piece.two_bytes(2),
        number: piece.byte(3),
        last: piece.number(4) != 0,
        start,
        length: piece.size(5),
    }
}

// The first `count` fragments of a command. Their payloads lie one after the other.
fn fragments_of(pieces: &Line, count: usize) -> [Proposed; MOST] {
    let mut fragments = [fragment_of(&Line::new(&[], b':'), 0); MOST];
    let mut start: usize = 0;
    for (i, fragment) in fragments.iter_mut().take(count).enumerate() {
        *fragment = fragment_of(&pieces.pieces(i, b':'), start);
        start = start.wrapping_add(fragment.length);
    }
    fragments
}

// What the checker says of the first `count` of these.
fn checked(
    fragments: &[Proposed; MOST],
    count: usize,
    message: &[u8],
    payloads: &[u8],
) -> Result<bool, PayloadError>
    requires { count ≤ 12 }
    ensures { payload_answered result ≡ check_of message.now (take count fragments.now) payloads.now }
{
    cutting::check(message, &fragments[..count], payloads)
}

// q: the first `size` bytes are the message. The fragments' payloads follow it, one after the other.
pub(crate) fn check(
    pieces: &Line,
    size: usize,
    bytes: &[u8],
    text: &mut Answers,
) -> Result<(), PayloadError> {
    let count = pieces.count().min(MOST);
    let fragments = fragments_of(pieces, count);
    let message = command_lines::part(bytes, 0, size);
    let payloads = command_lines::part(bytes, size, bytes.len());
    if checked(&fragments, count, message, payloads)? {
        text.put(b"yes");
    } else {
        text.put(b"not");
    }
    Ok(())
}
