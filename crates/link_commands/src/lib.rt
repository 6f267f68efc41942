// The commands of link quality (part Q of docs/RULES.md): m and M.
#![tactic(auto)]

ghost use Rattle.std.specs.Prelude.{◌≤◌, IfSome};

use answer_lines::Answers;
use command_lines::Line;
use links::{LinkKind, LinkReport};
use numbers::Refusal;

// Which field of a line has the command's bytes, for the letters of these commands: that of m; for M, which has none,
// the one after its two reports.
pub fn field_of_bytes(letter: u8) -> Option<usize>
    ensures { IfSome result (λ n. n ≤ 13) }
{
    match letter {
        b'm' => Some(2),
        b'M' => Some(13),
        _ => None,
    }
}

// The kind in field n, 9 or 10.
fn kind_in(line: &Line, n: usize) -> Option<LinkKind> {
    match line.byte(n) {
        9 => Some(LinkKind::Tx),
        10 => Some(LinkKind::Rx),
        _ => None,
    }
}

// The lowest signal strength in field n. A `-` with nothing after it stands for none.
fn lowest_in(line: &Line, n: usize) -> Option<i8> {
    match line.field(n) {
        b"-" => None,
        _ => Some(line.signed_byte(n)),
    }
}

// The report in the six fields from field n on. Its kind is 10 where it isn't 9.
fn report_in(line: &Line, n: usize) -> LinkReport
    requires { n ≤ 7 }
{
    LinkReport {
        kind: kind_in(line, n).unwrap_or(LinkKind::Rx),
        pairs: line.two_bytes(n + 1),
        errors: line.number(n + 2),
        packets: line.number(n + 3),
        low: lowest_in(line, n + 4),
        sum: line.signed(n + 5),
    }
}

fn put_lowest(lowest: Option<i8>, text: &mut Answers) {
    match lowest {
        Some(strength) => text.put_next_signed(strength as i32),
        None => text.put(b" -"),
    }
}

// A report of kind 9 has no signal strengths, so they are not shown.
fn put_report(report: LinkReport, text: &mut Answers) {
    text.put_ok();
    text.put_next_three(report.pairs as u64, report.errors, report.packets);
    if let LinkKind::Rx = report.kind {
        put_lowest(report.low, text);
        text.put_next_signed(report.sum);
    }
}

// m: the report over a value. A kind without pairs is refused by 16.
fn report(line: &Line, value: &[u8]) -> Result<LinkReport, Refusal> {
    let kind = kind_in(line, 1).ok_or(Refusal::UnknownKind)?;
    links::report(kind, value)
}

// Answers one line about link quality.
pub fn answer(line: &Line, value: &[u8], text: &mut Answers) {
    let answer = match line.letter() {
        b'm' => report(line, value),
        _ => links::merge(report_in(line, 1), report_in(line, 7)),
    };
    match answer {
        Ok(report) => put_report(report, text),
        Err(refusal) => text.put_refused(refusal),
    }
}
