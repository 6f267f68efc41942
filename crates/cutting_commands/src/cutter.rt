// The command Q: a message that is cut (rule M5).
ghost use Rattle.std.specs.Prelude.{◌≡◌, ◌≤◌, ◌++◌, length, take, drop};
ghost use Rattle.numbers.specs.Numbers.{mapped};
ghost use Rattle.walking.specs.Walk.{payload_answered};
ghost use Rattle.cutting.specs.Greedy.{cut_into, with_ends};

use answer_lines::Answers;
use walking::PayloadError;

// The most places that a command lends.
const MOST: usize = 16;

// Cuts a message into the first `room` places of the list.
fn ends_of(message: &[u8], room: usize, ends: &mut [usize; MOST]) -> Result<usize, PayloadError>
    requires { room ≤ 16 }
    ensures { (payload_answered result ≡ mapped length (cut_into message.now room))
        × (ends.new ≡ with_ends (cut_into message.now room) (take room ends.old) ++ drop room ends.old) }
{
    cutting::cut(message, &mut ends[..room])
}

// Q: cut into a list of `room` places. The answer says how many ends there are, and each of them.
pub(crate) fn cut(message: &[u8], room: usize, text: &mut Answers) -> Result<(), PayloadError> {
    let mut ends = [0; MOST];
    let count = ends_of(message, room.min(MOST), &mut ends)?;
    text.put_ok();
    text.put_next(count as u64);
    for end in ends.iter().take(count) {
        text.put_next(*end as u64);
    }
    Ok(())
}
