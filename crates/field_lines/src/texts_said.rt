// What a device says of itself (kinds 21, 22 and 0xD4).
use crate::{Value, listed, quoted};
use answer_lines::Answers;

// A text of a value, after its name.
fn put_text(rt: &impl Print, text: &mut Answers, name: &[u8], value: Value<'_>, number: usize) {
    text.with_room(rt);
    text.put(name);
    quoted::put_quoted(rt, text, texts::text(value.code, number, value.bytes));
}

// The texts of a value, and after those of an inventory its radios.
pub(crate) fn put_texts(rt: &impl Print, text: &mut Answers, value: Value<'_>) {
    match value.code {
        21 => {
            put_text(rt, text, b" name ", value, 0);
            put_text(rt, text, b", maker ", value, 1);
            put_text(rt, text, b", model ", value, 2);
        }
        22 => put_text(rt, text, b" URL ", value, 0),
        _ => {
            put_text(rt, text, b" serial ", value, 0);
            put_text(rt, text, b", software ", value, 1);
            put_text(rt, text, b", environment ", value, 2);
            listed::put_entries(rt, text, value);
        }
    }
}
