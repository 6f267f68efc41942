// What the calls about link reports answer (part Q), as it crosses to C (rule C4): a plain struct, in numbers. Two such
// structs come back to be made into one.
#![tactic(auto)]

ghost use Rattle.std.specs.Prelude.{◌≡◌};
ghost use Rattle.numbers.specs.Numbers.{answered};
ghost use Rattle.c_links.specs.Numbers.{report_numbers_lem, kind_with_lem, low_of_lem, report_from_lem, merged_from};

use links::{LinkKind, LinkReport};
use numbers::{Refusal, number_of};

// A report over `count` pairs of kind 9 or 10 (rule Q4). The lowest signal strength is `low` where `has_low` says that
// there is one, and 0 otherwise; in C the two are called `lowest` and `has_lowest`.
#[repr(C)]
#[derive(Clone, Copy)]
pub struct AshlarReport {
    pub errors: u64,
    pub packets: u64,
    pub sum: i32,
    pub count: u16,
    pub kind: u8,
    pub low: i8,
    pub has_low: bool,
    pub refusal: u8,
}

// A report, or why there is none.
pub fn report_numbers(reported: Result<LinkReport, Refusal>) -> AshlarReport
    ensures { result ≡ report_numbers_lem (answered reported) }
{
    match reported {
        Ok(report) => AshlarReport {
            errors: report.errors,
            packets: report.packets,
            sum: report.sum,
            count: report.pairs,
            kind: u8::from(report.kind),
            low: report.low.unwrap_or(0),
            has_low: report.low.is_some(),
            refusal: 0,
        },
        Err(refusal) => AshlarReport {
            errors: 0,
            packets: 0,
            sum: 0,
            count: 0,
            kind: 0,
            low: 0,
            has_low: false,
            refusal: number_of(refusal),
        },
    }
}

// The kind with this code; neither 9 nor 10: 19.
fn kind_with(code: u8) -> Result<LinkKind, Refusal>
    ensures { answered result ≡ kind_with_lem code }
{
    match code {
        9 => Ok(LinkKind::Tx),
        10 => Ok(LinkKind::Rx),
        _ => Err(Refusal::NoReport),
    }
}

// The lowest that a C caller lends, or none where its flag says so. A lowest other than 0 without its flag: 19.
fn low_of(lent: AshlarReport) -> Result<Option<i8>, Refusal>
    ensures { answered result ≡ low_of_lem lent }
{
    if lent.has_low {
        return Ok(Some(lent.low));
    }
    if lent.low != 0 {
        return Err(Refusal::NoReport);
    }
    Ok(None)
}

// The report that a C caller lends.
#[tactic(auto, unfolding(crate::specs::Numbers::report_from_lem))]
fn report_from(lent: AshlarReport) -> Result<LinkReport, Refusal>
    ensures { answered result ≡ report_from_lem lent }
{
    let kind = kind_with(lent.kind)?;
    let low = low_of(lent)?;
    Ok(LinkReport {
        kind,
        pairs: lent.count,
        errors: lent.errors,
        packets: lent.packets,
        low,
        sum: lent.sum,
    })
}

// Two reports that a C caller lends, made into one (rule Q7).
fn merge_from(one: AshlarReport, other: AshlarReport) -> Result<LinkReport, Refusal>
    ensures { answered result ≡ merged_from one other }
{
    links::merge(report_from(one)?, report_from(other)?)
}

// The same in numbers.
pub fn merge_numbers(one: AshlarReport, other: AshlarReport) -> AshlarReport
    ensures { result ≡ report_numbers_lem (merged_from one other) }
{
    report_numbers(merge_from(one, other))
}
