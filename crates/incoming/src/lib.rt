// Bytes as they come in. A read that fails counts as one that gives nothing.
#![tactic(auto)]

ghost use Rattle.std.specs.Prelude.{◌≡◌, ◌≤◌, length, take};
ghost use Rattle.std.specs.Io.KnownBytes.{Consumes};

use std::io::Read;

// Reads once, and returns how many bytes came: they stand at the start of the room.
pub fn read_some<R: Read>(input: &mut R, room: &mut [u8]) -> usize
    ensures within { result ≤ length room.old }
    ensures long { length room.new ≡ length room.old }
    ensures bytes { Consumes (R.remaining input.old) (R.remaining input.new) (take result room.new) }
{
    input.read(room).unwrap_or(0)
}

// Reads until the room is full or nothing more comes, and returns how many bytes came.
pub fn read_full<R: Read>(input: &mut R, room: &mut [u8]) -> usize
    ensures within { result ≤ length room.old }
    ensures long { length room.new ≡ length room.old }
    ensures bytes { Consumes (R.remaining input.old) (R.remaining input.new) (take result room.new) }
{
    let mut have = 0;
    // No range counts the turns: each goes on by as many bytes as came.
    while have < room.len() {
        let more = read_some(input, &mut room[have..]);
        if more == 0 {
            break;
        }
        have += more;
    }
    have
}
