// The table of the list kinds (rule K2).
ghost use Rattle.std.specs.Prelude.{◌≡◌, true, false, ◌<◌};
ghost use Rattle.numbers.specs.Numbers.{answered, mapped};
ghost use Rattle.layouts.specs.Layouts.{layout_of};
ghost use Rattle.layouts.specs.Rows.{row_below_lem, row_layout};

use crate::LayoutRow;
use numbers::Refusal;

// The row of the entries in its list. Their own lists have counts.
pub(crate) fn row_below(row: LayoutRow) -> LayoutRow
    requires { 0 < row.levels }
    ensures { result ≡ row_below_lem row }
{
    LayoutRow {
        levels: row.levels - 1,
        has_count: true,
        h0: row.h1,
        h1: row.h2,
        h2: row.h3,
        h3: 0,
    }
}

// A list with a count, of so many levels: the bytes of its entries before their own lists, from the outside to the
// inside.
fn counted(levels: u8, h1: u8, h2: u8, h3: u8) -> LayoutRow
    ensures { result ≡ record { levels = levels; has_count = true; h0 = 0; h1 = h1; h2 = h2; h3 = h3 } }
{
    LayoutRow {
        levels,
        has_count: true,
        h0: 0,
        h1,
        h2,
        h3,
    }
}

// Some bytes, and then a list to the end.
fn to_end(h0: u8, h1: u8) -> LayoutRow
    ensures { result ≡ record { levels = 1; has_count = false; h0 = h0; h1 = h1; h2 = 0; h3 = 0 } }
{
    LayoutRow {
        levels: 1,
        has_count: false,
        h0,
        h1,
        h2: 0,
        h3: 0,
    }
}

// The row of the list kind with this code (rule K2).
#[tactic(auto, unfolding(crate::specs::Layouts::layout_of, crate::specs::Rows::layout_in))]
pub(crate) fn row_of(code: u8) -> Result<LayoutRow, Refusal>
    ensures { mapped row_layout (answered result) ≡ layout_of code }
{
    match code {
        // SupportedService
        0x80 => Ok(counted(1, 1, 0, 0)),
        // NonIeee1905NeighborDevices
        6 => Ok(to_end(6, 6)),
        // Ieee1905NeighborDevice
        7 => Ok(to_end(6, 7)),
        // LinkMetricTx
        9 => Ok(to_end(12, 29)),
        // LinkMetricRx
        10 => Ok(to_end(12, 23)),
        // Ipv4
        23 => Ok(counted(2, 6, 9, 0)),
        // Ipv6
        24 => Ok(counted(2, 22, 33, 0)),
        // DeviceBridgingCapability
        4 => Ok(counted(2, 0, 6, 0)),
        // ApOperationalBss
        0x83 => Ok(counted(3, 6, 6, 1)),
        // BssConfigurationReport
        0xB7 => Ok(counted(3, 6, 8, 1)),
        _ => Err(Refusal::UnknownKind),
    }
}
