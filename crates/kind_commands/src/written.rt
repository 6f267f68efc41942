// The commands that write: w, s and f.
use answer_lines::Answers;
use command_lines::Line;
use kinds::Contents;
use numbers::Refusal;

// s: a value written as it was read: a record kind from its record (rule O1), any other from its bytes (rule O2).
fn rewrite(code: u8, bytes: &[u8], out: &mut [u8]) -> Result<usize, Refusal> {
    let typed = kinds::read_kind(code, bytes)?;
    match typed.held {
        Contents::One(record) => record_writing::write_record(record, out),
        Contents::List(_) => kinds::write_kind(code, bytes, out),
    }
}

// f: a record from its fields (rule O1). The kind that the line names has to be a record kind.
fn write_record(code: u8, line: &Line, out: &mut [u8]) -> Result<usize, Refusal> {
    let record = record_lines::record_in(code, line).ok_or(Refusal::UnknownKind)?;
    record_writing::write_record(record, out)
}

// w: a TLV of this type and value (rule B5).
fn write(line: &Line, bytes: &[u8], out: &mut [u8]) -> Result<usize, Refusal> {
    let code = line.byte(1);
    match line.letter() {
        b'w' => framing::write_tlv(code, bytes, out),
        b's' => rewrite(code, bytes, out),
        _ => write_record(code, line, out),
    }
}

// Answers one line: the bytes that were written, into as much room as the line says.
pub(crate) fn answer(
    line: &Line,
    bytes: &[u8],
    out: &mut [u8],
    text: &mut Answers,
) -> Result<(), Refusal> {
    let room = line.size(2).min(out.len());
    let size = write(line, bytes, &mut out[..room])?;
    text.put_ok_shown(command_lines::part(out, 0, size));
    Ok(())
}
