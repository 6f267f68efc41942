// The command l: finding over a TLV list that the command has (rule F1).
ghost use Rattle.std.specs.Prelude.{◌≡◌, ◌≤◌, take};
ghost use Rattle.numbers.specs.Numbers.{answered};
ghost use Rattle.finding.specs.Finding.{find_from};

use crate::found;
use answer_lines::Answers;
use command_lines::Line;
use finding::Hit;
use numbers::Refusal;
use walking::Tlv;

// The most records that a command has.
const MOST: usize = 40;

// The record of `TYPE:OFFSET:LENGTH`.
fn tlv_of(record: &Line) -> Tlv {
    Tlv {
        tlv_type: record.byte(0),
        length: record.two_bytes(2),
        offset: record.size(1),
    }
}

// The first `count` records of a command.
fn list_of(records: &Line, count: usize) -> [Tlv; MOST] {
    let mut list = [tlv_of(&Line::new(&[], b':')); MOST];
    for (i, tlv) in list.iter_mut().take(count).enumerate() {
        *tlv = tlv_of(&records.pieces(i, b':'));
    }
    list
}

// Searches the payload by the first `count` records (rule F1).
fn find_by(list: &[Tlv; MOST], count: usize, payload: &[u8], code: u8) -> Result<Hit, Refusal>
    requires { count ≤ 40 }
    ensures { answered result ≡ find_from code (take count list.now) payload.now 0 }
{
    finding::find(&list[..count], payload, code, 0)
}

// l: the first record that has the kind's code and reads.
pub(crate) fn first(
    records: &Line,
    payload: &[u8],
    code: u8,
    text: &mut Answers,
) -> Result<(), Refusal> {
    let count = records.count().min(MOST);
    let hit = find_by(&list_of(records, count), count, payload, code)?;
    found::put_hit(hit, payload, text);
    Ok(())
}
