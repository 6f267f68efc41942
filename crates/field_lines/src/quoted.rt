// Texts and names in quotes.
use answer_lines::Answers;

// Bytes that a terminal shows as they are stand so; any other one in hex.
fn put_shown(text: &mut Answers, b: u8) {
    match b {
        b'"' | b'\\' | 0..=0x1F | 0x7F..=0xFF => {
            text.put(b"\\x");
            text.put_hex(u64::from(b), 2);
        }
        _ => text.put_byte(b),
    }
}

// Any bytes, in quotes. They may be more than a text has room for.
pub(crate) fn put_quoted(rt: &impl Print, text: &mut Answers, bytes: &[u8]) {
    text.put(b"\"");
    for b in bytes {
        text.with_room(rt);
        put_shown(text, *b);
    }
    text.put(b"\"");
}
