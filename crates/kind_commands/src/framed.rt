// The commands of framing that read: t and h.
use answer_lines::Answers;
use numbers::Refusal;

// t: a TLV read, and its value as a part of the bytes (rule B3).
pub(crate) fn read(data: &[u8], text: &mut Answers) -> Result<(), Refusal> {
    let tlv = framing::read_tlv(data)?;
    text.put_ok();
    text.put_next_three(
        tlv.tlv_type as u64,
        tlv.value_length as u64,
        tlv.consumed as u64,
    );
    text.put_shown(b' ', framing::value(data));
    Ok(())
}

// h: the header of a CMDU (rule B6).
pub(crate) fn header(data: &[u8], text: &mut Answers) -> Result<(), Refusal> {
    let h = framing::read_cmdu_header(data)?;
    text.put_ok();
    text.put_next_three(
        h.message_version as u64,
        h.reserved as u64,
        h.message_type as u64,
    );
    text.put_next_three(h.message_id as u64, h.fragment as u64, h.flags as u64);
    text.put_next(h.last_fragment as u64);
    Ok(())
}
