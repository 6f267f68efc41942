// What the calls about captures answer (part G), as it crosses to C (rule C5): plain structs, in numbers. A frame crosses
// as it is.
#![tactic(auto)]

ghost use Rattle.std.specs.Prelude.{◌≡◌};
ghost use Rattle.numbers.specs.Numbers.{answered};
ghost use Rattle.captures.specs.Reading.{reached_of};
ghost use Rattle.c_captures.specs.Numbers.{written_numbers_lem, without_frame_lem, reached_numbers_lem, checked_numbers_lem};

use captures::{Frame, FrameCount, Reached};
use numbers::Refusal;

// How many bytes were written (rules B7 and G5).
#[repr(C)]
#[derive(Clone, Copy)]
pub struct AshlarWritten {
    pub length: usize,
    pub refusal: u8,
}

// What a step goes over (rule G7): 1 no byte is left, 2 a 1905 frame, 3 another; 0 where it is refused. The next step
// starts at `next`. For refusal 2 the shortfall is how many bytes are missing.
#[repr(C)]
#[derive(Clone, Copy)]
pub struct AshlarReached {
    pub frame: Frame,
    pub next: usize,
    pub shortfall: usize,
    pub answer: u8,
    pub refusal: u8,
}

// How many 1905 frames a capture holds, and how many others (rule G6). For refusal 2, how many bytes are missing.
#[repr(C)]
#[derive(Clone, Copy)]
pub struct AshlarCapture {
    pub frames: usize,
    pub others: usize,
    pub shortfall: usize,
    pub refusal: u8,
}

// What a writer answers.
pub fn written_numbers(written: Result<usize, Refusal>) -> AshlarWritten
    ensures { result ≡ written_numbers_lem (answered written) }
{
    match written {
        Ok(length) => AshlarWritten { length, refusal: 0 },
        Err(refusal) => AshlarWritten {
            length: 0,
            refusal: numbers::number_of(refusal),
        },
    }
}

// An answer without a frame, and where the next step starts.
fn without_frame(answer: u8, next: usize) -> AshlarReached
    ensures { result ≡ without_frame_lem answer next }
{
    AshlarReached {
        frame: captures::no_frame(),
        next,
        shortfall: 0,
        answer,
        refusal: 0,
    }
}

// What a step goes over.
pub fn reached_numbers(reached: Result<Reached, Refusal>) -> AshlarReached
    ensures { result ≡ reached_numbers_lem (reached_of reached) }
{
    match reached {
        Ok(Reached::FileEnd) => without_frame(1, 0),
        Ok(Reached::Ours { frame, next }) => AshlarReached {
            frame,
            next,
            shortfall: 0,
            answer: 2,
            refusal: 0,
        },
        Ok(Reached::Other { next }) => without_frame(3, next),
        Err(refusal) => AshlarReached {
            frame: captures::no_frame(),
            next: 0,
            shortfall: numbers::carried_by(refusal),
            answer: 0,
            refusal: numbers::number_of(refusal),
        },
    }
}

// What the check of a capture answers, and the list of its frames.
pub fn checked_numbers(checked: Result<FrameCount, Refusal>) -> AshlarCapture
    ensures { result ≡ checked_numbers_lem (answered checked) }
{
    match checked {
        Ok(counted) => AshlarCapture {
            frames: counted.handed,
            others: counted.passed_over,
            shortfall: 0,
            refusal: 0,
        },
        Err(refusal) => AshlarCapture {
            frames: 0,
            others: 0,
            shortfall: numbers::carried_by(refusal),
            refusal: numbers::number_of(refusal),
        },
    }
}
