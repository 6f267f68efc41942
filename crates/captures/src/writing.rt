// The bytes of a frame in a capture (rules G2 to G5).
ghost use Rattle.std.specs.Prelude.{false, ◌≡◌, ◌++◌, ◌+◌, ◌≤◌, length, drop};
ghost use Rattle.keys.specs.Keys.{sender_of_lem, sender_bytes};
ghost use Rattle.table.specs.Rows.{place_size};
ghost use Rattle.captures.specs.Form.{field_bytes, record_header_lem, seconds_in, microseconds_in};
ghost use Rattle.captures.specs.Writing.{ethernet_header_lem, fields_of, frame_record};

use framing::CmduFields;
use pushing::Arrival;

// The four bytes of a number of the file's own, lowest byte first (rule G1).
fn little(n: u64) -> [u8; 4]
    ensures { result ≡ field_bytes false 4 n }
{
    let second = n / 256;
    let third = second / 256;
    let fourth = third / 256;
    [
        (n % 256) as u8,
        (second % 256) as u8,
        (third % 256) as u8,
        (fourth % 256) as u8,
    ]
}

// The record header of a frame of `size` bytes that came at this time (rules G2 and G3).
fn record_header(time: u64, size: u64) -> [u8; 16]
    ensures { result ≡ record_header_lem false (seconds_in time) (microseconds_in time) size }
{
    let s = little(time / 1000);
    let m = little(time % 1000 * 1000);
    let n = little(size);
    [
        s[0], s[1], s[2], s[3], m[0], m[1], m[2], m[3], n[0], n[1], n[2], n[3], n[0], n[1], n[2],
        n[3],
    ]
}

// The Ethernet header of a frame from the sender of a message with this key (rules G5 and T2).
fn ethernet_header(key: u64) -> [u8; 14]
    ensures { result ≡ ethernet_header_lem (sender_bytes (sender_of_lem key)) }
{
    let s5 = key / 65536;
    let s4 = s5 / 256;
    let s3 = s4 / 256;
    let s2 = s3 / 256;
    let s1 = s2 / 256;
    let s0 = s1 / 256;
    [
        0x01,
        0x80,
        0xC2,
        0x00,
        0x00,
        0x13,
        (s0 % 256) as u8,
        (s1 % 256) as u8,
        (s2 % 256) as u8,
        (s3 % 256) as u8,
        (s4 % 256) as u8,
        (s5 % 256) as u8,
        0x89,
        0x3A,
    ]
}

// The fields of the CMDU header that a fragment came with (rules T2 and T3).
fn fields_of(a: Arrival) -> CmduFields
    ensures { result ≡ fields_of a }
{
    CmduFields {
        message_version: a.fragment.version,
        message_type: a.fragment.message_type,
        message_id: (a.key % 65536) as u16,
        fragment: a.fragment.number,
        last_fragment: a.fragment.last,
    }
}

// Puts the record of a fragment at the start of `out`.
pub(crate) fn put_frame(a: Arrival, payload: &[u8], out: &mut [u8])
    requires { (38 + length payload.now ≤ length out.old) × (length payload.now ≤ place_size) }
    ensures { out.new ≡ frame_record a payload.now ++ drop (38 + length payload.now) out.old }
{
    let stamp = record_header(a.time, (22 + payload.len()) as u64);
    out[..16].copy_from_slice(&stamp);
    let ethernet = ethernet_header(a.key);
    out[16..30].copy_from_slice(&ethernet);
    let _ = framing::write_cmdu_header(fields_of(a), &mut out[30..]);
    out[38..38 + payload.len()].copy_from_slice(payload);
}
