// A pair of a link metric, written at the start of lent room (rule O5). Its refusal is not looked at. Too little room: 7.
ghost use Rattle.std.specs.Prelude.{◌≡◌, length};
ghost use Rattle.numbers.specs.Numbers.{answered};
ghost use Rattle.framing.specs.Tlv.{leaves};
ghost use Rattle.fields.specs.Writing.{put_size, made_bytes};
ghost use Rattle.links.specs.Writing.{tx_made, rx_made};

use crate::{AshlarRxPair, AshlarTxPair};
use fields::put_bytes;
use numbers::Refusal;

pub fn put_tx_pair(pair: AshlarTxPair, out: &mut [u8]) -> Result<usize, Refusal>
    ensures answer { answered result ≡ put_size (tx_made pair) (length out.old) }
    ensures bytes { out.new ≡ leaves (put_size (tx_made pair) (length out.old)) (made_bytes (tx_made pair)) out.old }
{
    let a = pair.own;
    let n = pair.neighbour;
    let [m0, m1] = pair.media.to_be_bytes();
    let [e0, e1, e2, e3] = pair.errors.to_be_bytes();
    let [p0, p1, p2, p3] = pair.packets.to_be_bytes();
    let [t0, t1] = pair.throughput.to_be_bytes();
    let [v0, v1] = pair.availability.to_be_bytes();
    let [r0, r1] = pair.rate.to_be_bytes();
    let own = [
        a.b0,
        a.b1,
        a.b2,
        a.b3,
        a.b4,
        a.b5,
        n.b0,
        n.b1,
        n.b2,
        n.b3,
        n.b4,
        n.b5,
        m0,
        m1,
        pair.bridge,
        e0,
        e1,
        e2,
        e3,
        p0,
        p1,
        p2,
        p3,
        t0,
        t1,
        v0,
        v1,
        r0,
        r1,
    ];
    put_bytes(&own, out)
}

pub fn put_rx_pair(pair: AshlarRxPair, out: &mut [u8]) -> Result<usize, Refusal>
    ensures answer { answered result ≡ put_size (rx_made pair) (length out.old) }
    ensures bytes { out.new ≡ leaves (put_size (rx_made pair) (length out.old)) (made_bytes (rx_made pair)) out.old }
{
    let a = pair.own;
    let n = pair.neighbour;
    let [m0, m1] = pair.media.to_be_bytes();
    let [e0, e1, e2, e3] = pair.errors.to_be_bytes();
    let [p0, p1, p2, p3] = pair.packets.to_be_bytes();
    let own = [
        a.b0,
        a.b1,
        a.b2,
        a.b3,
        a.b4,
        a.b5,
        n.b0,
        n.b1,
        n.b2,
        n.b3,
        n.b4,
        n.b5,
        m0,
        m1,
        e0,
        e1,
        e2,
        e3,
        p0,
        p1,
        p2,
        p3,
        pair.signal.cast_unsigned(),
    ];
    put_bytes(&own, out)
}
