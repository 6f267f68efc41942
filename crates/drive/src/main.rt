// Answers the commands on standard input, a line each, through the library's public calls (oracle/COMMANDS.md).
// oracle/run compares its answers with the original's (rule D2). Every check compares them with a kept list of those.
#![tactic(auto)]

mod desk;
mod input;

ghost use Rattle.pushing.specs.Made.{Made};

use desk::Desk;
use input::Input;
use std::io::Read;

// The bytes that come out of a line.
type Bytes = [u8; 66048];

// Answers a line, after room is made for the answer. What is no command is answered "bad".
fn answer(rt: &impl Print, line: &[u8], data: &mut Bytes, desk: &mut Desk)
    requires { Made desk.old.table }
    ensures { Made desk.new.table }
{
    desk.text.with_room(rt);
    if desk.answer(line, data).is_none() {
        desk.text.put(b"bad");
    }
    desk.text.put(b"\n");
}

// Answers line by line until the input ends. A proved loop has to end, and nothing says that an input does, so it
// counts its turns.
fn serve(
    rt: &impl Print,
    reader: &mut impl Read,
    input: &mut Input,
    data: &mut Bytes,
    desk: &mut Desk,
)
    requires { Made desk.old.table }
{
    for _ in 0..u64::MAX {
        if let Some(line) = input.line() {
            answer(rt, line, data, desk);
        } else if input.ended {
            desk.text.flush(rt);
            return;
        } else {
            input.fill(reader);
        }
    }
}

fn main(rt: HostRuntime) {
    let mut input = Input::new();
    let mut data = [0u8; 66048];
    let mut desk = Desk::new();
    serve(&rt, &mut rt.stdin(), &mut input, &mut data, &mut desk);
}
