// The own fields of an entry, written at the start of lent room (rule O5). Each call takes the struct that the reading
// call returns, whose refusal and whose place of a name are not looked at. It leaves what follows the bytes as it was,
// and all of the room where it refuses: 16 where the kind has no such entries, 9 for what reading never gives, 7 where
// there is too little room.
ghost use Rattle.std.specs.Prelude.{◌≡◌, length};
ghost use Rattle.numbers.specs.Numbers.{answered};
ghost use Rattle.framing.specs.Tlv.{leaves};
ghost use Rattle.records.specs.Values.{octets};
ghost use Rattle.fields.specs.Writing.{front_made, neighbour_made, interface_made, ipv4_made, ipv6_made, byte_made, radio_made, bss_made, count_made, put_size, made_bytes};

use crate::putting::{Shape, put_bytes, put_entry, put_own};
use crate::{AshlarBss, AshlarInterface, AshlarIpv4, AshlarIpv6, AshlarNeighbour, sizes};
use numbers::Refusal;
use records::MacAddr;

// The six bytes of an address.
fn octets_of(address: MacAddr) -> [u8; 6]
    ensures { result ≡ octets address }
{
    [
        address.b0, address.b1, address.b2, address.b3, address.b4, address.b5,
    ]
}

// Writes the count of a list, in one byte.
#[tactic(auto, unfolding(crate::specs::Writing::count_made, crate::specs::Writing::put_size))]
pub fn put_count(n: usize, out: &mut [u8]) -> Result<usize, Refusal>
    ensures answer { answered result ≡ put_size (count_made n) (length out.old) }
    ensures bytes { out.new ≡ leaves (put_size (count_made n) (length out.old)) (made_bytes (count_made n)) out.old }
{
    if 255 < n {
        return Err(Refusal::NeverRead);
    }
    put_bytes(&[n as u8], out)
}

// Writes what stands before the list of a value: of kind 6 or 7 `local` alone, and `neighbour` has to be 0.
pub fn put_front(
    code: u8,
    local: MacAddr,
    neighbour: MacAddr,
    out: &mut [u8],
) -> Result<usize, Refusal>
    ensures answer { answered result ≡ put_size (front_made code local neighbour) (length out.old) }
    ensures bytes { out.new ≡ leaves (put_size (front_made code local neighbour) (length out.old)) (made_bytes (front_made code local neighbour)) out.old }
{
    let own = [
        local.b0,
        local.b1,
        local.b2,
        local.b3,
        local.b4,
        local.b5,
        neighbour.b0,
        neighbour.b1,
        neighbour.b2,
        neighbour.b3,
        neighbour.b4,
        neighbour.b5,
    ];
    put_own(sizes::front_size(code), &own, out)
}

// Writes a neighbour.
pub fn put_neighbour(code: u8, neighbour: AshlarNeighbour, out: &mut [u8]) -> Result<usize, Refusal>
    ensures answer { answered result ≡ put_size (neighbour_made code neighbour) (length out.old) }
    ensures bytes { out.new ≡ leaves (put_size (neighbour_made code neighbour) (length out.old)) (made_bytes (neighbour_made code neighbour)) out.old }
{
    let a = neighbour.address;
    let own = [a.b0, a.b1, a.b2, a.b3, a.b4, a.b5, neighbour.flags];
    put_own(sizes::neighbour_size(code), &own, out)
}

// Writes an interface.
pub fn put_interface(code: u8, interface: AshlarInterface, out: &mut [u8]) -> Result<usize, Refusal>
    ensures answer { answered result ≡ put_size (interface_made code interface) (length out.old) }
    ensures bytes { out.new ≡ leaves (put_size (interface_made code interface) (length out.old)) (made_bytes (interface_made code interface)) out.old }
{
    let mut own = [0; 22];
    own[..6].copy_from_slice(&octets_of(interface.address));
    own[6..].copy_from_slice(&interface.link_local);
    put_own(sizes::interface_size(code), &own, out)
}

// Writes an IPv4 address of an interface. This and `put_ipv6` are two calls: each is given a C struct of its own.
pub fn put_ipv4(ipv4: AshlarIpv4, out: &mut [u8]) -> Result<usize, Refusal>
    ensures answer { answered result ≡ put_size (ipv4_made ipv4) (length out.old) }
    ensures bytes { out.new ≡ leaves (put_size (ipv4_made ipv4) (length out.old)) (made_bytes (ipv4_made ipv4)) out.old }
{
    let mut own = [0; 9];
    own[0] = ipv4.type_;
    own[1..5].copy_from_slice(&ipv4.address);
    own[5..].copy_from_slice(&ipv4.dhcp_server);
    put_own(Some(9), &own, out)
}

// Writes an IPv6 address of an interface.
pub fn put_ipv6(ipv6: AshlarIpv6, out: &mut [u8]) -> Result<usize, Refusal>
    ensures answer { answered result ≡ put_size (ipv6_made ipv6) (length out.old) }
    ensures bytes { out.new ≡ leaves (put_size (ipv6_made ipv6) (length out.old)) (made_bytes (ipv6_made ipv6)) out.old }
{
    let mut own = [0; 33];
    own[0] = ipv6.type_;
    own[1..17].copy_from_slice(&ipv6.address);
    own[17..].copy_from_slice(&ipv6.origin);
    put_own(Some(33), &own, out)
}

// Writes an entry of one byte.
pub fn put_byte(code: u8, byte: u8, out: &mut [u8]) -> Result<usize, Refusal>
    ensures answer { answered result ≡ put_size (byte_made code byte) (length out.old) }
    ensures bytes { out.new ≡ leaves (put_size (byte_made code byte) (length out.old)) (made_bytes (byte_made code byte)) out.old }
{
    let own = [byte];
    put_own(sizes::single_size(code), &own, out)
}

// Writes a radio, of kind 0xD4 with its text; of another kind the text has to be empty.
pub fn put_radio(code: u8, id: MacAddr, text: &[u8], out: &mut [u8]) -> Result<usize, Refusal>
    ensures answer { answered result ≡ put_size (radio_made code id text.now) (length out.old) }
    ensures bytes { out.new ≡ leaves (put_size (radio_made code id text.now) (length out.old)) (made_bytes (radio_made code id text.now)) out.old }
{
    let shape = Shape {
        size: sizes::radio_size(code),
        has_text: code == texts::DEVICE_INVENTORY,
    };
    put_entry(shape, &octets_of(id), text, out)
}

// Writes a BSS with its name.
pub fn put_bss(code: u8, bss: AshlarBss, name: &[u8], out: &mut [u8]) -> Result<usize, Refusal>
    ensures answer { answered result ≡ put_size (bss_made code bss name.now) (length out.old) }
    ensures bytes { out.new ≡ leaves (put_size (bss_made code bss name.now) (length out.old)) (made_bytes (bss_made code bss name.now)) out.old }
{
    let a = bss.bssid;
    let own = [a.b0, a.b1, a.b2, a.b3, a.b4, a.b5, bss.flags, bss.reserved];
    let shape = Shape {
        size: sizes::bss_size(code),
        has_text: true,
    };
    put_entry(shape, &own, name, out)
}
