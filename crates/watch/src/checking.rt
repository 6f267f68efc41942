// The first pass: whether all of the file can be read (rule G6), through the window.
use crate::faults::Fault;
use crate::window::{HEADER, Window};
use crate::{hearing, window};
use captures::Reached;
use hearing::Stopped;
use numbers::Refusal;
use std::io::{Read, Seek};

// A record header has so many bytes (rule G2).
const RECORD: usize = 16;

// The fault of a file header in the first bytes of a file.
fn check_header(start: &[u8]) -> Result<(), Fault> {
    if start.starts_with(&[0x0A, 0x0D, 0x0D, 0x0A]) {
        return Err(Fault::Pcapng);
    }
    if start.len() < HEADER {
        return Err(Fault::HeaderCut {
            missing: (HEADER - start.len()) as u64,
        });
    }
    Ok(())
}

// The fault that a window shows, whatever follows it. A record that the window cuts shows none.
fn check_stop(window: &Window, stopped: Stopped) -> Result<(), Fault> {
    let at = stopped.at;
    match stopped.reached {
        Err(Refusal::NotACapture) => Err(Fault::NoCapture),
        Err(Refusal::BadFrame) => Err(Fault::Partial {
            at: window.place_of(at),
            stored: window.four_at(at.wrapping_add(8)),
            original: window.four_at(at.wrapping_add(12)),
        }),
        _ => Ok(()),
    }
}

// How many bytes of a record the window lacks.
pub(crate) fn missing_in(reached: Result<Reached, Refusal>) -> u64 {
    match reached {
        Ok(_) => 0,
        Err(refusal) => numbers::carried_by(refusal) as u64,
    }
}

// The fault of a record that the file's end cuts, where the window begins with it.
fn cut_in(window: &Window, missing: u64) -> Fault {
    let at = window.place_of(HEADER);
    if window.seen().len() < HEADER + RECORD {
        return Fault::RecordCut { at, missing };
    }
    Fault::FrameCut { at, missing }
}

// Nothing more comes: the file ends with the window, or is cut, or the window is too short for a record. Says whether
// the pass is over.
fn at_end(
    input: &mut impl Seek,
    window: &mut Window,
    missing: u64,
    size: u64,
) -> Result<bool, Fault> {
    if !window.is_full() {
        if window.seen().len() == HEADER {
            return Ok(true);
        }
        return Err(cut_in(window, missing));
    }
    let next = window.after_long(missing);
    if size < next {
        return Err(cut_in(window, next - size));
    }
    window.seek(input, next);
    Ok(false)
}

// The records of the window are looked at, and the window goes on. Says whether the pass is over.
fn look<R: Read + Seek>(input: &mut R, window: &mut Window, size: u64) -> Result<bool, Fault> {
    let stopped = hearing::looked_at(window.seen(), HEADER);
    check_stop(window, stopped)?;
    if 0 < window.refill(input, stopped.at) {
        return Ok(false);
    }
    at_end(input, window, missing_in(stopped.reached), size)
}

// The fault of the file, if it has one. A proved loop has to end, and nothing says that a file does: so its turns are
// counted.
pub(crate) fn check_file<R: Read + Seek>(input: &mut R, window: &mut Window) -> Result<(), Fault> {
    let size = window::size_of_input(input);
    window.start(input);
    check_header(window.seen())?;
    for _ in 0..u64::MAX {
        if look(input, window, size)? {
            return Ok(());
        }
    }
    Ok(())
}
