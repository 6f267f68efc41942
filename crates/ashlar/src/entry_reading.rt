// The entries of a value for C (rules E1, E3, E9 and E11): in order, by number, and each by its fields.
ghost use Rattle.std.specs.Prelude.{◌≡◌};
ghost use Rattle.kinds.specs.Kinds.{locate_kind, count_kind};
ghost use Rattle.entries.specs.Entries.{beginning, gone_on_lem};
ghost use Rattle.fields.specs.Answers.{front_of_lem, neighbour_at, interface_at, ipv4_at, ipv6_at, byte_at, radio_at, bss_at};
ghost use Rattle.layouts.specs.Access.{numbers_of};
ghost use Rattle.links.specs.Pairs.{tx_pair_at_lem, rx_pair_at_lem};
ghost use Rattle.c_answers.specs.Numbers.{part_numbers_lem};
ghost use Rattle.c_entries.specs.Numbers.{begun_numbers_lem, entry_numbers_lem, cursor_after_lem, count_numbers_lem};

use c_answers::AshlarPart;
use c_entries::{AshlarBegun, AshlarCount, AshlarEntry};
use entries::Cursor;
use fields::{
    AshlarBss, AshlarByte, AshlarFront, AshlarInterface, AshlarIpv4, AshlarIpv6, AshlarNeighbour,
    AshlarRadio,
};
use layouts::Path;
use links::{AshlarRxPair, AshlarTxPair};

// What stands before the list of a value of kind 6, 7, 9 or 10 (rule E11).
#[unsafe(no_mangle)]
pub extern "C" fn ashlar_front(code: u8, value: &[u8]) -> AshlarFront
    ensures { result ≡ front_of_lem code value.now }
{
    fields::front(code, value)
}

// The neighbour at an offset of a value of kind 6 or 7 (rule E11).
#[unsafe(no_mangle)]
pub extern "C" fn ashlar_entry_neighbour(code: u8, value: &[u8], at: usize) -> AshlarNeighbour
    ensures { result ≡ neighbour_at code value.now at }
{
    fields::neighbour(code, value, at)
}

// The interface at an offset of a value of kind 4, 23 or 24 (rule E11).
#[unsafe(no_mangle)]
pub extern "C" fn ashlar_entry_interface(code: u8, value: &[u8], at: usize) -> AshlarInterface
    ensures { result ≡ interface_at code value.now at }
{
    fields::interface(code, value, at)
}

// The address of an interface at an offset of a value of kind 23 (rule E11).
#[unsafe(no_mangle)]
pub extern "C" fn ashlar_entry_ipv4(value: &[u8], at: usize) -> AshlarIpv4
    ensures { result ≡ ipv4_at value.now at }
{
    fields::ipv4(value, at)
}

// The address of an interface at an offset of a value of kind 24 (rule E11).
#[unsafe(no_mangle)]
pub extern "C" fn ashlar_entry_ipv6(value: &[u8], at: usize) -> AshlarIpv6
    ensures { result ≡ ipv6_at value.now at }
{
    fields::ipv6(value, at)
}

// The entry of one byte at an offset of a value (rule E11): a service of kind 0x80, or a byte of a name of kind 0x83
// or 0xB7.
#[unsafe(no_mangle)]
pub extern "C" fn ashlar_entry_byte(code: u8, value: &[u8], at: usize) -> AshlarByte
    ensures { result ≡ byte_at code value.now at }
{
    fields::byte(code, value, at)
}

// The radio at an offset of a value of kind 0x83, 0xB7 or 0xD4 (rule E11).
#[unsafe(no_mangle)]
pub extern "C" fn ashlar_entry_radio(code: u8, value: &[u8], at: usize) -> AshlarRadio
    ensures { result ≡ radio_at code value.now at }
{
    fields::radio(code, value, at)
}

// The BSS at an offset of a value of kind 0x83 or 0xB7, and where its name lies in the value (rule E11).
#[unsafe(no_mangle)]
pub extern "C" fn ashlar_entry_bss(code: u8, value: &[u8], at: usize) -> AshlarBss
    ensures { result ≡ bss_at code value.now at }
{
    fields::bss(code, value, at)
}

// The pair at an offset of a value of kind 9 (rules Q1 and E11).
#[unsafe(no_mangle)]
pub extern "C" fn ashlar_entry_tx_pair(value: &[u8], at: usize) -> AshlarTxPair
    ensures { result ≡ tx_pair_at_lem value.now at }
{
    links::tx_pair_at(value, at)
}

// The pair at an offset of a value of kind 10 (rules Q1 and E11).
#[unsafe(no_mangle)]
pub extern "C" fn ashlar_entry_rx_pair(value: &[u8], at: usize) -> AshlarRxPair
    ensures { result ≡ rx_pair_at_lem value.now at }
{
    links::rx_pair_at(value, at)
}

// Begins the entries of a value of the kind with this code, down to `depth` levels (rule E9). The value is read whole.
#[unsafe(no_mangle)]
pub extern "C" fn ashlar_entries(code: u8, depth: u8, value: &[u8]) -> AshlarBegun
    ensures { result ≡ begun_numbers_lem (beginning code depth value.now) }
{
    c_entries::begun_numbers(entries::begin(code, depth, value))
}

// The next entry of a value (rule E9). The cursor is altered only where an entry is given.
#[unsafe(no_mangle)]
pub extern "C" fn ashlar_entry_next(cursor: &mut Cursor, value: &[u8]) -> AshlarEntry
    ensures { (result ≡ entry_numbers_lem (gone_on_lem cursor.old value.now))
        × (cursor.new ≡ cursor_after_lem cursor.old (gone_on_lem cursor.old value.now)) }
{
    let next = c_entries::next(*cursor, value);
    *cursor = next.cursor;
    next.entry
}

// Where the entry with these numbers lies in a value of the kind with this code (rules E1 and E2). The whole value has
// to read.
#[unsafe(no_mangle)]
pub extern "C" fn ashlar_entry_at(code: u8, path: Path, value: &[u8]) -> AshlarPart
    ensures { result ≡ part_numbers_lem (locate_kind code (numbers_of path) value.now) }
{
    c_answers::part_numbers(kinds::locate(code, path, value))
}

// How many entries the list of the entry with these numbers has; without numbers, the outermost list (rule E3).
#[unsafe(no_mangle)]
pub extern "C" fn ashlar_entry_count(code: u8, path: Path, value: &[u8]) -> AshlarCount
    ensures { result ≡ count_numbers_lem (count_kind code (numbers_of path) value.now) }
{
    c_entries::count_numbers(kinds::count(code, path, value))
}
