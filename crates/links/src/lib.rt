// Link quality in exact figures (rules Q1 to Q7): the pairs of a link metric by their fields, a report over all of
// them, and one report made from two.
#![tactic(auto)]

mod numbered;
mod pairs;
mod totals;
mod writing;

ghost use Rattle.std.specs.Prelude.{◌≡◌};
ghost use Rattle.numbers.specs.Numbers.{answered};
ghost use Rattle.links.specs.Pairs.{link_code, tx_pair_of, rx_pair_of, tx_pair_at_lem, rx_pair_at_lem};
ghost use Rattle.links.specs.Reports.{report_of, merged};

use layouts::read_value;
use numbers::Refusal;
use records::MacAddr;
pub use writing::{put_rx_pair, put_tx_pair};

// The two link metrics (rule Q1): what was sent (LinkMetricTx, 9) and what was received (LinkMetricRx, 10).
#[derive(Clone, Copy, PartialEq, Eq)]
pub enum LinkKind {
    Tx,
    Rx,
}

// The code of this kind (rule K2).
impl From<LinkKind> for u8 {
    ghost from_gives = { λ kind code. code ≡ link_code kind };

    fn from(kind: LinkKind) -> u8 {
        match kind {
            LinkKind::Tx => 9,
            LinkKind::Rx => 10,
        }
    }
}

// What is said over the pairs of a value (rule Q4). There may be no lowest signal strength.
#[derive(Clone, Copy)]
pub struct LinkReport {
    pub kind: LinkKind,
    pub pairs: u16,
    pub errors: u64,
    pub packets: u64,
    pub low: Option<i8>,
    pub sum: i32,
}

// A pair of LinkMetricTx (rule Q1): two addresses, of the interface itself and of the neighbour's, and so on in the
// order of its bytes.
#[derive(Clone, Copy)]
pub struct TxPair {
    pub own: MacAddr,
    pub neighbour: MacAddr,
    pub media: u16,
    pub bridge: u8,
    pub errors: u32,
    pub packets: u32,
    pub throughput: u16,
    pub availability: u16,
    pub rate: u16,
}

// A pair of LinkMetricRx (rule Q1).
#[derive(Clone, Copy)]
pub struct RxPair {
    pub own: MacAddr,
    pub neighbour: MacAddr,
    pub media: u16,
    pub errors: u32,
    pub packets: u32,
    pub signal: i8,
}

// A pair as it crosses to C (rule C1).
#[repr(C)]
#[derive(Clone, Copy)]
pub struct AshlarTxPair {
    pub errors: u32,
    pub packets: u32,
    pub media: u16,
    pub throughput: u16,
    pub availability: u16,
    pub rate: u16,
    pub own: MacAddr,
    pub neighbour: MacAddr,
    pub bridge: u8,
    pub refusal: u8,
}

#[repr(C)]
#[derive(Clone, Copy)]
pub struct AshlarRxPair {
    pub errors: u32,
    pub packets: u32,
    pub media: u16,
    pub own: MacAddr,
    pub neighbour: MacAddr,
    pub signal: i8,
    pub refusal: u8,
}

// The report over the pairs of a value of this kind (rule Q4).
pub fn report(kind: LinkKind, value: &[u8]) -> Result<LinkReport, Refusal>
    ensures { answered result ≡ report_of kind value.now }
{
    let entries = read_value(u8::from(kind), value)?.entries;
    if 1024 < entries {
        return Err(Refusal::NoReport);
    }
    Ok(totals::over_pairs(kind, value, entries))
}

// Two reports made into one (rule Q7).
#[tactic(auto, using(crate::proofs::Merging::merged_gives, crate::proofs::Merging::merged_refuses))]
pub fn merge(one: LinkReport, other: LinkReport) -> Result<LinkReport, Refusal>
    ensures { answered result ≡ merged one other }
{
    if !totals::can_merge(one, other) {
        return Err(Refusal::NoReport);
    }
    Ok(totals::add(one, other))
}

// Pair `number` of a value of LinkMetricTx, from 0 (rule Q3). The two kinds keep a call each, as they have in C: each has
// its own definition in specs/, and all the work is done once, in `pairs`.
pub fn tx_pair(value: &[u8], number: usize) -> Result<TxPair, Refusal>
    ensures { answered result ≡ tx_pair_of value.now number }
{
    pairs::by_number(value, number)
}

// Pair `number` of a value of LinkMetricRx, from 0 (rule Q3).
pub fn rx_pair(value: &[u8], number: usize) -> Result<RxPair, Refusal>
    ensures { answered result ≡ rx_pair_of value.now number }
{
    pairs::by_number(value, number)
}

// The pair of LinkMetricTx that starts at `at` in the bytes s (rule E11): 3 where they end before it does.
#[tactic(auto, unfolding(crate::specs::Pairs::tx_pair_at_lem, fields::specs::Fields::fields_at))]
pub fn tx_pair_at(s: &[u8], at: usize) -> AshlarTxPair
    ensures { result ≡ tx_pair_at_lem s.now at }
{
    pairs::at_offset::<TxPair>(s, at).into()
}

// The pair of LinkMetricRx that starts at `at` in the bytes s (rule E11): 3 where they end before it does.
#[tactic(auto, unfolding(crate::specs::Pairs::rx_pair_at_lem, fields::specs::Fields::fields_at))]
pub fn rx_pair_at(s: &[u8], at: usize) -> AshlarRxPair
    ensures { result ≡ rx_pair_at_lem s.now at }
{
    pairs::at_offset::<RxPair>(s, at).into()
}
