// Captures in the classic pcap file form, which an analyser opens (rules G1 to G10): pushed fragments written as frames
// of a capture, and the 1905 frames of a capture read.
#![tactic(auto)]

mod reading;
mod writing;

ghost use Rattle.std.specs.Prelude.{◌≡◌, length};
ghost use Rattle.numbers.specs.Parts.{behind};
ghost use Rattle.numbers.specs.Numbers.{answered};
ghost use Rattle.framing.specs.Tlv.{leaves};
ghost use Rattle.captures.specs.Writing.{our_header, file_header_size, frame_record, frame_size};
ghost use Rattle.captures.specs.Reading.{no_frame_lem, reached_of, file_step, frames_counted, capture_in, with_room_lem, frames_left, frame_payload, payload_from, arrival_of_lem};
ghost use Rattle.captures.specs.PrivateReading.{Hands};

use framing::CmduHeader;
use numbers::Refusal;
use pushing::{Arrival, Fragment};
use reading::Ordered;
use records::MacAddr;
use table::PLACE_SIZE;

// The first number of seconds that doesn't fit four bytes (rule G5).
const SECONDS_END: u64 = 4294967296;

// A 1905 frame of a capture (rules G4 and G7): when it was seen, as the file says; who sent it; its CMDU header; and
// where its payload lies in the file.
#[repr(C)]
#[derive(Clone, Copy)]
pub struct Frame {
    pub seconds: u32,
    pub microseconds: u32,
    pub sender: MacAddr,
    pub cmdu: CmduHeader,
    pub offset: usize,
    pub length: usize,
}

// What a step goes over (rule G7): nothing, as no byte is left; a 1905 frame, or another one, which is passed over, and
// where the next step starts.
#[derive(Clone, Copy)]
pub enum Reached {
    FileEnd,
    Ours { frame: Frame, next: usize },
    Other { next: usize },
}

// What a capture holds (rule G6): how many 1905 frames, and how many others, which are passed over.
#[derive(Clone, Copy)]
pub struct FrameCount {
    pub handed: usize,
    pub passed_over: usize,
}

// Writes a file header at the start of `out` (rule G5).
pub fn write_file_header(out: &mut [u8]) -> Result<usize, Refusal>
    ensures answer { answered result ≡ file_header_size (length out.old) }
    ensures bytes { out.new ≡ leaves (file_header_size (length out.old)) our_header out.old }
{
    if out.len() < 24 {
        return Err(Refusal::NoRoom);
    }
    // the magic, the version, zone and accuracy, snap length and link type
    let header = b"\xD4\xC3\xB2\xA1\x02\0\x04\0\0\0\0\0\0\0\0\0\xFF\xFF\0\0\x01\0\0\0";
    out[..24].copy_from_slice(header);
    Ok(24)
}

// Writes a fragment as a frame of a capture at the start of `out` (rule G5): its arrival and its payload are what push
// takes.
pub fn write_frame(a: Arrival, payload: &[u8], out: &mut [u8]) -> Result<usize, Refusal>
    ensures answer { answered result ≡ frame_size a.time (length payload.now) (length out.old) }
    ensures bytes { out.new ≡ leaves (frame_size a.time (length payload.now) (length out.old)) (frame_record a payload.now) out.old }
{
    if PLACE_SIZE < payload.len() {
        return Err(Refusal::PayloadTooLong);
    }
    if SECONDS_END <= a.time / 1000 {
        return Err(Refusal::BadFrame);
    }
    let size = 38 + payload.len();
    if out.len() < size {
        return Err(Refusal::NoRoom);
    }
    writing::put_frame(a, payload, out);
    Ok(size)
}

// Goes over the record at the offset `at` of a capture, if the file header is in order (rule G7). The first record
// stands at 24. Whoever goes over the records of a capture goes by this step. It doesn't look at the records after this
// one: `check` does.
pub fn step(file: &[u8], at: usize) -> Result<Reached, Refusal>
    ensures { reached_of result ≡ file_step file.now at }
{
    let high_first = reading::order_of(file)?;
    Ordered { file, high_first }.record_at(at)
}

// Checks a whole capture, and counts its frames (rule G6). Where this refuses nothing, no step from 24 on does.
pub fn check(file: &[u8]) -> Result<FrameCount, Refusal>
    ensures { answered result ≡ frames_counted (capture_in file.now) }
{
    let mut at = 24;
    let mut frames = 0;
    let mut others = 0;
    loop {
        let found = match step(file, at) {
            Ok(found) => found,
            Err(refusal) => return Err(refusal),
        };
        match found {
            Reached::FileEnd => {
                return Ok(FrameCount {
                    handed: frames,
                    passed_over: others,
                });
            }
            Reached::Ours { frame: _, next } => {
                at = next;
                frames += 1;
            }
            Reached::Other { next } => {
                at = next;
                others += 1;
            }
        }
    }
}

// What stands where there is no frame to give.
pub fn no_frame() -> Frame
    ensures { result ≡ no_frame_lem }
{
    Frame {
        seconds: 0,
        microseconds: 0,
        sender: MacAddr {
            b0: 0,
            b1: 0,
            b2: 0,
            b3: 0,
            b4: 0,
            b5: 0,
        },
        cmdu: CmduHeader {
            message_version: 0,
            reserved: 0,
            message_type: 0,
            message_id: 0,
            fragment: 0,
            flags: 0,
            last_fragment: false,
        },
        offset: 0,
        length: 0,
    }
}

// A frame that is handed back, and where the next step starts.
#[derive(Clone, Copy)]
struct Handed {
    frame: Frame,
    next: usize,
}

// The first 1905 frame of the records from the offset `from` on, if there is one before a fault.
fn next_frame(file: &[u8], from: usize) -> Option<Handed>
    ensures { Hands file.now from result }
{
    let mut at = from;
    loop {
        match step(file, at) {
            Ok(Reached::Ours { frame, next }) => {
                return Some(Handed { frame, next });
            }
            Ok(Reached::Other { next }) => {
                at = next;
            }
            Ok(Reached::FileEnd) => {
                return None;
            }
            Err(_) => {
                return None;
            }
        }
    }
}

// What is counted with a list of `room` elements (rule G8).
fn plan(file: &[u8], room: usize) -> Result<FrameCount, Refusal>
    ensures { answered result ≡ frames_counted (with_room_lem room (capture_in file.now)) }
{
    let counted = check(file)?;
    if room < counted.handed {
        return Err(Refusal::ListTooShort);
    }
    Ok(counted)
}

// Checks a whole capture, and lists its 1905 frames (rule G8). Nothing is listed before the whole file has been
// checked, so that a fault in its last record leaves the list as it was (rule A3).
// `walking::walk_into` has the same form, over its own steps and items: the loop that they share has four lines.
pub fn frames_into(list: &mut [Frame], file: &[u8]) -> Result<FrameCount, Refusal>
    ensures { (answered result ≡ frames_counted (with_room_lem (length list.old) (capture_in file.now)))
        × (list.new ≡ frames_left (with_room_lem (length list.old) (capture_in file.now)) list.old) }
{
    let planned = plan(file, list.len())?;
    let mut at = 24;
    for element in &mut list[..planned.handed] {
        let handed = next_frame(file, at).unwrap();
        *element = handed.frame;
        at = handed.next;
    }
    Ok(planned)
}

// The payload of a frame, as a part of the file that the frame was read from (rule G9).
pub fn payload(file: &[u8], frame: Frame) -> &[u8]
    ensures bytes { result.now ≡ frame_payload file.now frame }
    ensures place { result.ref_ptr ≡ behind (payload_from file.now frame) file.entry }
{
    let start = frame.offset;
    let length = frame.length;
    if file.len() < start {
        return &file[0..0];
    }
    if file.len() - start < length {
        return &file[0..0];
    }
    let end = start + length;
    &file[start..end]
}

// A frame as push takes it, but for its payload (rule G9).
pub fn arrival_of(frame: Frame) -> Arrival
    ensures { result ≡ arrival_of_lem frame }
{
    let s = frame.sender;
    let h = frame.cmdu;
    Arrival {
        key: keys::key_of(s.b0, s.b1, s.b2, s.b3, s.b4, s.b5, h.message_id),
        time: frame.seconds as u64 * 1000 + frame.microseconds as u64 / 1000,
        fragment: Fragment {
            message_type: h.message_type,
            version: h.message_version,
            number: h.fragment,
            last: h.last_fragment,
        },
    }
}
