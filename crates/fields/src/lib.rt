// The own fields of an entry by their names (rules K8 and E11). Each call takes a value and the offset at which an
// entry starts in it, and returns a plain struct, which crosses to C as it is (rule C1). It looks at the entry's own
// fields and at the text after them, not at the rest of the value. Any code and any offset is taken: 16 where the kind
// has no such entries, 3 where the value ends before the fields do. A field that the kind lacks is 0, and so is every
// field where the call refuses.
//
// The same fields are written by the calls `put_..` (rule O5).
#![tactic(auto)]

mod parts;
mod putting;
mod sizes;
mod writing;

use parts::{NO_BYTES, NO_ENTRY, byte_at, bytes_at, crossed, entry_at, own_at};
use records::MacAddr;

// A pair of a link metric is written by the crate `links`.
ghost use Rattle.std.specs.Prelude.{◌≡◌, ◌+◌, leb, length};
ghost use Rattle.records.specs.Values.{address_at_lem};
ghost use Rattle.fields.specs.Answers.{front_of_lem, neighbour_at, interface_at, ipv4_at, ipv6_at, byte_at, radio_at, bss_at};

pub use putting::put_bytes;
pub use writing::{
    put_bss, put_byte, put_count, put_front, put_interface, put_ipv4, put_ipv6, put_neighbour,
    put_radio,
};

// What stands before the list of a value of kind 6 or 7, the address of the local interface; of kind 9 or 10, the AL
// addresses of the device that reports and of its neighbour.
#[repr(C)]
#[derive(Clone, Copy)]
pub struct AshlarFront {
    pub local: MacAddr,
    pub neighbour: MacAddr,
    pub refusal: u8,
}

// A neighbour of kind 6, or of kind 7, which has flags: bit 7 says that a bridge stands between.
#[repr(C)]
#[derive(Clone, Copy)]
pub struct AshlarNeighbour {
    pub address: MacAddr,
    pub flags: u8,
    pub refusal: u8,
}

// An interface of kind 4 or 23, or of kind 24, which has a link-local address.
#[repr(C)]
#[derive(Clone, Copy)]
pub struct AshlarInterface {
    pub address: MacAddr,
    pub link_local: [u8; 16],
    pub refusal: u8,
}

// An address of an interface of kind 23.
#[repr(C)]
#[derive(Clone, Copy)]
pub struct AshlarIpv4 {
    pub address: [u8; 4],
    pub dhcp_server: [u8; 4],
    pub type_: u8,
    pub refusal: u8,
}

// An address of an interface of kind 24.
#[repr(C)]
#[derive(Clone, Copy)]
pub struct AshlarIpv6 {
    pub address: [u8; 16],
    pub origin: [u8; 16],
    pub type_: u8,
    pub refusal: u8,
}

// A service of kind 0x80, or a byte of a name of kind 0x83 or 0xB7.
#[repr(C)]
#[derive(Clone, Copy)]
pub struct AshlarByte {
    pub byte: u8,
    pub refusal: u8,
}

// A radio of kind 0x83 or 0xB7, or of kind 0xD4, which has a text: `text_length` bytes from `text_start` on in the
// value.
#[repr(C)]
#[derive(Clone, Copy)]
pub struct AshlarRadio {
    pub text_start: usize,
    pub text_length: usize,
    pub id: MacAddr,
    pub refusal: u8,
}

// A BSS of kind 0x83, or of kind 0xB7, which has flags and a reserved byte. Its name is `name_length` bytes from
// `name_start` on in the value.
#[repr(C)]
#[derive(Clone, Copy)]
pub struct AshlarBss {
    pub name_start: usize,
    pub name_length: usize,
    pub bssid: MacAddr,
    pub flags: u8,
    pub reserved: u8,
    pub refusal: u8,
}

// Whether s has `size` bytes from `at` on.
pub fn there(size: usize, s: &[u8], at: usize) -> bool
    ensures { result ≡ leb (at + size) (length s.now) }
{
    at <= s.len() && size <= s.len() - at
}

// The address in the six bytes from `at` on. Bytes past the end are taken for 0.
pub fn address_at(s: &[u8], at: usize) -> MacAddr
    ensures { result ≡ address_at_lem s.now at }
{
    MacAddr {
        b0: byte_at(s, at, 0),
        b1: byte_at(s, at, 1),
        b2: byte_at(s, at, 2),
        b3: byte_at(s, at, 3),
        b4: byte_at(s, at, 4),
        b5: byte_at(s, at, 5),
    }
}

// What stands before the list of a value of the kind with this code.
pub fn front(code: u8, s: &[u8]) -> AshlarFront
    ensures { result ≡ front_of_lem code s.now }
{
    let (refusal, own) = crossed(own_at(sizes::front_size(code), s, 0), NO_BYTES);
    AshlarFront {
        local: address_at(own, 0),
        neighbour: address_at(own, 6),
        refusal,
    }
}

// The neighbour at `at`.
pub fn neighbour(code: u8, s: &[u8], at: usize) -> AshlarNeighbour
    ensures { result ≡ neighbour_at code s.now at }
{
    let (refusal, own) = crossed(own_at(sizes::neighbour_size(code), s, at), NO_BYTES);
    AshlarNeighbour {
        address: address_at(own, 0),
        flags: byte_at(own, 6, 0),
        refusal,
    }
}

// The interface at `at`.
pub fn interface(code: u8, s: &[u8], at: usize) -> AshlarInterface
    ensures { result ≡ interface_at code s.now at }
{
    let (refusal, own) = crossed(own_at(sizes::interface_size(code), s, at), NO_BYTES);
    AshlarInterface {
        address: address_at(own, 0),
        link_local: bytes_at(own, 6),
        refusal,
    }
}

// The IPv4 address of an interface at `at`. This and `ipv6` are two calls, since each fills a C struct of its own.
pub fn ipv4(s: &[u8], at: usize) -> AshlarIpv4
    ensures { result ≡ ipv4_at s.now at }
{
    let (refusal, own) = crossed(own_at(Some(9), s, at), NO_BYTES);
    AshlarIpv4 {
        address: bytes_at::<4>(own, 1),
        dhcp_server: bytes_at::<4>(own, 5),
        type_: byte_at(own, 0, 0),
        refusal,
    }
}

// The IPv6 address of an interface at `at`.
pub fn ipv6(s: &[u8], at: usize) -> AshlarIpv6
    ensures { result ≡ ipv6_at s.now at }
{
    let (refusal, own) = crossed(own_at(Some(33), s, at), NO_BYTES);
    AshlarIpv6 {
        address: bytes_at::<16>(own, 1),
        origin: bytes_at::<16>(own, 17),
        type_: byte_at(own, 0, 0),
        refusal,
    }
}

// The entry of one byte at `at`.
pub fn byte(code: u8, s: &[u8], at: usize) -> AshlarByte
    ensures { result ≡ byte_at code s.now at }
{
    let (refusal, own) = crossed(own_at(sizes::single_size(code), s, at), NO_BYTES);
    AshlarByte {
        byte: byte_at(own, 0, 0),
        refusal,
    }
}

// The radio at `at`.
pub fn radio(code: u8, s: &[u8], at: usize) -> AshlarRadio
    ensures { result ≡ radio_at code s.now at }
{
    let has_text = code == texts::DEVICE_INVENTORY;
    let found = entry_at(has_text, sizes::radio_size(code), s, at);
    let (refusal, entry) = crossed(found, NO_ENTRY);
    AshlarRadio {
        text_start: entry.text.start,
        text_length: entry.text.length,
        id: address_at(entry.own, 0),
        refusal,
    }
}

// The BSS at `at`.
pub fn bss(code: u8, s: &[u8], at: usize) -> AshlarBss
    ensures { result ≡ bss_at code s.now at }
{
    let found = entry_at(true, sizes::bss_size(code), s, at);
    let (refusal, entry) = crossed(found, NO_ENTRY);
    AshlarBss {
        name_start: entry.text.start,
        name_length: entry.text.length,
        bssid: address_at(entry.own, 0),
        flags: byte_at(entry.own, 6, 0),
        reserved: byte_at(entry.own, 7, 0),
        refusal,
    }
}
