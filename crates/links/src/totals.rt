// Reports added up: over the pairs of a value (rule Q4), and one made from two (rules Q6 and Q7).
ghost use Rattle.std.specs.Prelude.{◌≡◌, ◌+◌, ◌≤◌, ◌<◌, length, ◌+ℤ◌, Some};
ghost use Rattle.std.specs.Int.{w32};
ghost use Rattle.std.proofs.Common.{SFits};
ghost use Rattle.numbers.specs.Numbers.{gives, mapped};
ghost use Rattle.links.specs.declared.LinkKind.TheVariants.{Rx};
ghost use Rattle.links.specs.Pairs.{pairs_in};
ghost use Rattle.links.specs.Reports.{lower, lower_of_lem, no_pairs_lem, one_pair_lem, added, report_over, signals_fit_lem, some_value_gives_lem, same_kind_lem, mergeable};
ghost use Rattle.links.specs.PrivatePairs.{pair_bytes};

use crate::{LinkKind, LinkReport, pairs};

// The report over the n pairs of a value that reads. They stand one after the other, after two addresses.
pub(crate) fn over_pairs(kind: LinkKind, value: &[u8], n: usize) -> LinkReport
    requires { (n ≤ 1024) × (mapped length (pairs_in kind value.now) ≡ gives n) }
    ensures { gives result ≡ mapped (report_over kind) (pairs_in kind value.now) }
{
    let size = pairs::size_of(kind);
    let mut total = no_pairs(kind);
    for i in 0..n {
        let at = 12 + i * size;
        total = add(total, one_pair(kind, &value[at..at + size]));
    }
    total
}

fn no_pairs(kind: LinkKind) -> LinkReport
    ensures { result ≡ no_pairs_lem kind }
{
    LinkReport {
        kind,
        pairs: 0,
        errors: 0,
        packets: 0,
        low: None,
        sum: 0,
    }
}

// The report over one pair.
fn one_pair(kind: LinkKind, pair: &[u8]) -> LinkReport
    requires { pair_bytes kind ≤ length pair.now }
    ensures { result ≡ one_pair_lem kind pair.now }
{
    let low = match kind {
        LinkKind::Tx => None,
        LinkKind::Rx => Some(pairs::signal(pair)),
    };
    LinkReport {
        kind,
        pairs: 1,
        errors: pairs::errors(kind, pair) as u64,
        packets: pairs::packets(kind, pair) as u64,
        low,
        sum: low.unwrap_or(0) as i32,
    }
}

// Two reports of one kind added up.
pub(crate) fn add(one: LinkReport, other: LinkReport) -> LinkReport
    requires pairs_bound { (one.pairs + other.pairs < 65536) × (one.errors + other.errors < 18446744073709551616) }
    requires packets_bound { (one.packets + other.packets < 18446744073709551616) × SFits w32 (one.sum +ℤ other.sum) }
    ensures { result ≡ added one other }
{
    LinkReport {
        kind: one.kind,
        pairs: one.pairs + other.pairs,
        errors: one.errors + other.errors,
        packets: one.packets + other.packets,
        low: lower_of(one.low, other.low),
        sum: one.sum + other.sum,
    }
}

// The lower of two, where there are two.
fn lower_of(one: Option<i8>, other: Option<i8>) -> Option<i8>
    ensures { result ≡ lower_of_lem one other }
{
    match (one, other) {
        (Some(a), Some(b)) => Some(lower(a, b)),
        (Some(_), None) => one,
        (None, _) => other,
    }
}

fn lower(a: i8, b: i8) -> i8
    ensures { result ≡ lower a b }
{
    a.min(b)
}

// Whether two reports can be made into one (rule Q7).
pub(crate) fn can_merge(one: LinkReport, other: LinkReport) -> bool
    ensures { result ≡ mergeable one other }
{
    one.kind == other.kind
        && (one.pairs as u32) + (other.pairs as u32) <= 1024
        && some_value_gives(one)
        && some_value_gives(other)
}

// Whether this is the report of some value (rule Q6).
#[tactic(auto, unfolding(crate::specs::Reports::some_value_gives_lem))]
fn some_value_gives(r: LinkReport) -> bool
    ensures { result ≡ some_value_gives_lem r }
{
    let most = (r.pairs as u64) * 4294967295;
    r.pairs <= 1024
        && r.errors <= most
        && r.packets <= most
        && signals_fit(r.kind, r.pairs, r.low, r.sum)
}

// The part of the test that is about signal strengths.
fn signals_fit(kind: LinkKind, n: u16, lowest: Option<i8>, sum: i32) -> bool
    requires { n ≤ 1024 }
    ensures { result ≡ signals_fit_lem kind n lowest sum }
{
    match (kind, lowest) {
        (LinkKind::Tx, None) => sum == 0,
        (LinkKind::Tx, Some(_)) => false,
        (LinkKind::Rx, None) => n == 0 && sum == 0,
        (LinkKind::Rx, Some(l)) => n != 0 && sum_between(n, l, sum),
    }
}

// Whether n signal strengths of which l is the lowest can have this sum. All of them are at least l, and one is l.
fn sum_between(n: u16, l: i8, sum: i32) -> bool
    requires { (0 < n) × (n ≤ 1024) }
    ensures { result ≡ signals_fit_lem Rx n (Some l) sum }
{
    let lowest = l as i32;
    (n as i32) * lowest <= sum && sum <= lowest + ((n - 1) as i32) * 127
}
