// A pair as it crosses to C (rule C1).
ghost use Rattle.std.specs.Prelude.{◌≡◌, []};
ghost use Rattle.numbers.specs.Numbers.{answered};
ghost use Rattle.fields.specs.Answers.{crossing};
ghost use Rattle.links.specs.Pairs.{tx_fields_lem, rx_fields_lem, tx_numbers_lem, rx_numbers_lem};

use crate::{AshlarRxPair, AshlarTxPair, RxPair, TxPair};
use numbers::{Refusal, number_of};
use records::MacAddr;

const NO_ADDRESS: MacAddr = MacAddr {
    b0: 0,
    b1: 0,
    b2: 0,
    b3: 0,
    b4: 0,
    b5: 0,
};

// A pair whose every field is 0, for a refusal.
const NO_TX_PAIR: TxPair = TxPair {
    own: NO_ADDRESS,
    neighbour: NO_ADDRESS,
    media: 0,
    bridge: 0,
    errors: 0,
    packets: 0,
    throughput: 0,
    availability: 0,
    rate: 0,
};

const NO_RX_PAIR: RxPair = RxPair {
    own: NO_ADDRESS,
    neighbour: NO_ADDRESS,
    media: 0,
    errors: 0,
    packets: 0,
    signal: 0,
};

impl From<Result<TxPair, Refusal>> for AshlarTxPair {
    ghost from_gives = { λ read numbers. numbers ≡ crossing tx_numbers_lem (tx_fields_lem []) (answered read) };

    fn from(read: Result<TxPair, Refusal>) -> AshlarTxPair {
        let (refusal, pair) = match read {
            Ok(pair) => (0, pair),
            Err(refusal) => (number_of(refusal), NO_TX_PAIR),
        };
        AshlarTxPair {
            errors: pair.errors,
            packets: pair.packets,
            media: pair.media,
            throughput: pair.throughput,
            availability: pair.availability,
            rate: pair.rate,
            own: pair.own,
            neighbour: pair.neighbour,
            bridge: pair.bridge,
            refusal,
        }
    }
}

impl From<Result<RxPair, Refusal>> for AshlarRxPair {
    ghost from_gives = { λ read numbers. numbers ≡ crossing rx_numbers_lem (rx_fields_lem []) (answered read) };

    fn from(read: Result<RxPair, Refusal>) -> AshlarRxPair {
        let (refusal, pair) = match read {
            Ok(pair) => (0, pair),
            Err(refusal) => (number_of(refusal), NO_RX_PAIR),
        };
        AshlarRxPair {
            errors: pair.errors,
            packets: pair.packets,
            media: pair.media,
            own: pair.own,
            neighbour: pair.neighbour,
            signal: pair.signal,
            refusal,
        }
    }
}
