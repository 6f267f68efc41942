// The own fields of an entry, written at the start of lent room (rules O5 and C7).
ghost use Rattle.std.specs.Prelude.{◌≡◌, length};
ghost use Rattle.framing.specs.Tlv.{leaves};
ghost use Rattle.fields.specs.Writing.{front_made, neighbour_made, interface_made, ipv4_made, ipv6_made, byte_made, radio_made, bss_made, count_made, put_size, made_bytes};
ghost use Rattle.links.specs.Writing.{tx_made, rx_made};
ghost use Rattle.c_captures.specs.Numbers.{written_numbers_lem};

use c_captures::AshlarWritten;
use fields::{AshlarBss, AshlarInterface, AshlarIpv4, AshlarIpv6, AshlarNeighbour};
use links::{AshlarRxPair, AshlarTxPair};
use records::MacAddr;

// Writes the count of a list, in one byte.
#[unsafe(no_mangle)]
pub extern "C" fn ashlar_put_count(n: usize, out: &mut [u8]) -> AshlarWritten
    ensures answer { result ≡ written_numbers_lem (put_size (count_made n) (length out.old)) }
    ensures bytes { out.new ≡ leaves (put_size (count_made n) (length out.old)) (made_bytes (count_made n)) out.old }
{
    c_captures::written_numbers(fields::put_count(n, out))
}

// Writes what stands before the list of a value of kind 6, 7, 9 or 10.
#[unsafe(no_mangle)]
pub extern "C" fn ashlar_put_front(
    code: u8,
    local: MacAddr,
    neighbour: MacAddr,
    out: &mut [u8],
) -> AshlarWritten
    ensures answer { result ≡ written_numbers_lem (put_size (front_made code local neighbour) (length out.old)) }
    ensures bytes { out.new ≡ leaves (put_size (front_made code local neighbour) (length out.old)) (made_bytes (front_made code local neighbour)) out.old }
{
    c_captures::written_numbers(fields::put_front(code, local, neighbour, out))
}

// Writes a neighbour, of kind 6 or 7.
#[unsafe(no_mangle)]
pub extern "C" fn ashlar_put_neighbour(
    code: u8,
    neighbour: AshlarNeighbour,
    out: &mut [u8],
) -> AshlarWritten
    ensures answer { result ≡ written_numbers_lem (put_size (neighbour_made code neighbour) (length out.old)) }
    ensures bytes { out.new ≡ leaves (put_size (neighbour_made code neighbour) (length out.old)) (made_bytes (neighbour_made code neighbour)) out.old }
{
    c_captures::written_numbers(fields::put_neighbour(code, neighbour, out))
}

// Writes an interface, of kind 4, 23 or 24.
#[unsafe(no_mangle)]
pub extern "C" fn ashlar_put_interface(
    code: u8,
    interface: AshlarInterface,
    out: &mut [u8],
) -> AshlarWritten
    ensures answer { result ≡ written_numbers_lem (put_size (interface_made code interface) (length out.old)) }
    ensures bytes { out.new ≡ leaves (put_size (interface_made code interface) (length out.old)) (made_bytes (interface_made code interface)) out.old }
{
    c_captures::written_numbers(fields::put_interface(code, interface, out))
}

// Writes an IPv4 address of an interface, of kind 23.
#[unsafe(no_mangle)]
pub extern "C" fn ashlar_put_ipv4(ipv4: AshlarIpv4, out: &mut [u8]) -> AshlarWritten
    ensures answer { result ≡ written_numbers_lem (put_size (ipv4_made ipv4) (length out.old)) }
    ensures bytes { out.new ≡ leaves (put_size (ipv4_made ipv4) (length out.old)) (made_bytes (ipv4_made ipv4)) out.old }
{
    c_captures::written_numbers(fields::put_ipv4(ipv4, out))
}

// Writes an IPv6 address of an interface, of kind 24.
#[unsafe(no_mangle)]
pub extern "C" fn ashlar_put_ipv6(ipv6: AshlarIpv6, out: &mut [u8]) -> AshlarWritten
    ensures answer { result ≡ written_numbers_lem (put_size (ipv6_made ipv6) (length out.old)) }
    ensures bytes { out.new ≡ leaves (put_size (ipv6_made ipv6) (length out.old)) (made_bytes (ipv6_made ipv6)) out.old }
{
    c_captures::written_numbers(fields::put_ipv6(ipv6, out))
}

// Writes an entry of one byte, of kind 0x80, 0x83 or 0xB7.
#[unsafe(no_mangle)]
pub extern "C" fn ashlar_put_byte(code: u8, byte: u8, out: &mut [u8]) -> AshlarWritten
    ensures answer { result ≡ written_numbers_lem (put_size (byte_made code byte) (length out.old)) }
    ensures bytes { out.new ≡ leaves (put_size (byte_made code byte) (length out.old)) (made_bytes (byte_made code byte)) out.old }
{
    c_captures::written_numbers(fields::put_byte(code, byte, out))
}

// Writes a radio, of kind 0x83 or 0xB7, or of kind 0xD4 with its text.
#[unsafe(no_mangle)]
pub extern "C" fn ashlar_put_radio(
    code: u8,
    id: MacAddr,
    text: &[u8],
    out: &mut [u8],
) -> AshlarWritten
    ensures answer { result ≡ written_numbers_lem (put_size (radio_made code id text.now) (length out.old)) }
    ensures bytes { out.new ≡ leaves (put_size (radio_made code id text.now) (length out.old)) (made_bytes (radio_made code id text.now)) out.old }
{
    c_captures::written_numbers(fields::put_radio(code, id, text, out))
}

// Writes a BSS with its name, of kind 0x83 or 0xB7.
#[unsafe(no_mangle)]
pub extern "C" fn ashlar_put_bss(
    code: u8,
    bss: AshlarBss,
    name: &[u8],
    out: &mut [u8],
) -> AshlarWritten
    ensures answer { result ≡ written_numbers_lem (put_size (bss_made code bss name.now) (length out.old)) }
    ensures bytes { out.new ≡ leaves (put_size (bss_made code bss name.now) (length out.old)) (made_bytes (bss_made code bss name.now)) out.old }
{
    c_captures::written_numbers(fields::put_bss(code, bss, name, out))
}

// Writes a pair of kind 9.
#[unsafe(no_mangle)]
pub extern "C" fn ashlar_put_tx_pair(pair: AshlarTxPair, out: &mut [u8]) -> AshlarWritten
    ensures answer { result ≡ written_numbers_lem (put_size (tx_made pair) (length out.old)) }
    ensures bytes { out.new ≡ leaves (put_size (tx_made pair) (length out.old)) (made_bytes (tx_made pair)) out.old }
{
    c_captures::written_numbers(links::put_tx_pair(pair, out))
}

// Writes a pair of kind 10.
#[unsafe(no_mangle)]
pub extern "C" fn ashlar_put_rx_pair(pair: AshlarRxPair, out: &mut [u8]) -> AshlarWritten
    ensures answer { result ≡ written_numbers_lem (put_size (rx_made pair) (length out.old)) }
    ensures bytes { out.new ≡ leaves (put_size (rx_made pair) (length out.old)) (made_bytes (rx_made pair)) out.old }
{
    c_captures::written_numbers(links::put_rx_pair(pair, out))
}
