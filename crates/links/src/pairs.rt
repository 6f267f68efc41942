// A pair of a link metric: where its fields stand (rule Q1).
ghost use Rattle.std.specs.Prelude.{◌≡◌, ℕ, List, ◌+◌, ◌≤◌, length, take, drop};
ghost use Rattle.numbers.specs.Bytes.{number_at};
ghost use Rattle.numbers.specs.Numbers.{answered, mapped};
ghost use Rattle.layouts.specs.Reading.{reaching};
ghost use Rattle.links.specs.declared.LinkKind.{LinkKind};
ghost use Rattle.links.specs.declared.LinkKind.TheVariants.{Tx, Rx};
ghost use Rattle.links.specs.Pairs.{errors_of, packets_of, signed, signal_of, tx_fields_lem, rx_fields_lem, pair_at};
ghost use Rattle.links.specs.PrivatePairs.{pair_bytes};

use crate::{LinkKind, RxPair, TxPair};
use fields::{address_at, there};
use layouts::{Path, locate};
use numbers::Refusal;

// A pair, of what was sent or of what was received: its kind, and its fields as its bytes say them.
pub(crate) trait LinkPair: Sized {
    ghost kind: { LinkKind };

    ghost fields: { List ℕ → Self };

    fn kind() -> LinkKind
        ensures { result ≡ kind };

    fn read(pair: &[u8]) -> Self
        requires { pair_bytes kind ≤ length pair.now }
        ensures { result ≡ fields pair.now };
}

impl LinkPair for TxPair {
    ghost kind = { Tx };

    ghost fields = { tx_fields_lem };

    fn kind() -> LinkKind {
        LinkKind::Tx
    }

    fn read(pair: &[u8]) -> TxPair {
        TxPair {
            own: address_at(pair, 0),
            neighbour: address_at(pair, 6),
            media: be16_at(pair, 12),
            bridge: pair[14],
            errors: errors(LinkKind::Tx, pair),
            packets: packets(LinkKind::Tx, pair),
            throughput: be16_at(pair, 23),
            availability: be16_at(pair, 25),
            rate: be16_at(pair, 27),
        }
    }
}

impl LinkPair for RxPair {
    ghost kind = { Rx };

    ghost fields = { rx_fields_lem };

    fn kind() -> LinkKind {
        LinkKind::Rx
    }

    fn read(pair: &[u8]) -> RxPair {
        RxPair {
            own: address_at(pair, 0),
            neighbour: address_at(pair, 6),
            media: be16_at(pair, 12),
            errors: errors(LinkKind::Rx, pair),
            packets: packets(LinkKind::Rx, pair),
            signal: signal(pair),
        }
    }
}

// Pair `number` of a value (rule Q3). It is found by one number, since a link metric has one list (rule E1).
pub(crate) fn by_number<P: LinkPair>(value: &[u8], number: usize) -> Result<P, Refusal>
    ensures { answered result ≡ mapped P.fields (pair_at P.kind value.now number) }
{
    let path = Path {
        depth: 1,
        i0: number,
        i1: 0,
        i2: 0,
    };
    let span = locate(u8::from(P::kind()), path, value)?;
    Ok(P::read(&value[span.start..span.end]))
}

// The pair that starts at `at` in the bytes s (rule E11): 3 where they end before it does.
pub(crate) fn at_offset<P: LinkPair>(s: &[u8], at: usize) -> Result<P, Refusal>
    ensures { answered result ≡ mapped P.fields (reaching (at + pair_bytes P.kind) s.now (take (pair_bytes P.kind) (drop at s.now))) }
{
    let size = size_of(P::kind());
    if !there(size, s, at) {
        return Err(Refusal::CutShort);
    }
    Ok(P::read(&s[at..at + size]))
}

// How many bytes a pair has.
pub(crate) fn size_of(kind: LinkKind) -> usize
    ensures { result ≡ pair_bytes kind }
{
    match kind {
        LinkKind::Tx => 29,
        LinkKind::Rx => 23,
    }
}

// A report asks for the errors and the packets alone: reading whole pairs for it would take longer. They are two
// calls, since where each stands is the kind's own.
pub(crate) fn errors(kind: LinkKind, pair: &[u8]) -> u32
    requires { pair_bytes kind ≤ length pair.now }
    ensures { result ≡ errors_of kind pair.now }
{
    match kind {
        LinkKind::Tx => be32_at(pair, 15),
        LinkKind::Rx => be32_at(pair, 14),
    }
}

pub(crate) fn packets(kind: LinkKind, pair: &[u8]) -> u32
    requires { pair_bytes kind ≤ length pair.now }
    ensures { result ≡ packets_of kind pair.now }
{
    match kind {
        LinkKind::Tx => be32_at(pair, 19),
        LinkKind::Rx => be32_at(pair, 18),
    }
}

// The signal strength of a received pair: a byte as a number from -128 to 127 (rule Q2).
pub(crate) fn signal(pair: &[u8]) -> i8
    requires { pair_bytes Rx ≤ length pair.now }
    ensures { result ≡ signal_of pair.now }
{
    pair[22].cast_signed()
}

// The numbers in two bytes and in four (rule B1).
fn be16_at(pair: &[u8], at: usize) -> u16
    requires { at + 2 ≤ length pair.now }
    ensures { result ≡ number_at 2 at pair.now }
{
    u16::from_be_bytes([pair[at], pair[at + 1]])
}

fn be32_at(pair: &[u8], at: usize) -> u32
    requires { at + 4 ≤ length pair.now }
    ensures { result ≡ number_at 4 at pair.now }
{
    u32::from_be_bytes([pair[at], pair[at + 1], pair[at + 2], pair[at + 3]])
}
