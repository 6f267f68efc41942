// How many bytes the fields of an entry have, by the code of its kind (rule K8). None for a kind without such entries.
// Each is a table of its own: one function that is lent a table would say the same rows in another place.
ghost use Rattle.std.specs.Prelude.{◌≡◌};
ghost use Rattle.fields.specs.Fields.{front_rows, neighbour_rows, interface_rows, byte_rows, radio_rows, bss_rows, row_for};
ghost use Rattle.fields.specs.PrivateSteps.{size_in_lem};

pub(crate) fn front_size(code: u8) -> Option<usize>
    ensures { result ≡ size_in_lem (row_for front_rows code) }
{
    match code {
        6 | 7 => Some(6),
        9 | 10 => Some(12),
        _ => None,
    }
}

pub(crate) fn neighbour_size(code: u8) -> Option<usize>
    ensures { result ≡ size_in_lem (row_for neighbour_rows code) }
{
    match code {
        6 => Some(6),
        7 => Some(7),
        _ => None,
    }
}

pub(crate) fn interface_size(code: u8) -> Option<usize>
    ensures { result ≡ size_in_lem (row_for interface_rows code) }
{
    match code {
        4 | 23 => Some(6),
        24 => Some(22),
        _ => None,
    }
}

pub(crate) fn single_size(code: u8) -> Option<usize>
    ensures { result ≡ size_in_lem (row_for byte_rows code) }
{
    match code {
        0x80 | 0x83 | 0xB7 => Some(1),
        _ => None,
    }
}

pub(crate) fn radio_size(code: u8) -> Option<usize>
    ensures { result ≡ size_in_lem (row_for radio_rows code) }
{
    match code {
        0x83 | 0xB7 | 0xD4 => Some(6),
        _ => None,
    }
}

pub(crate) fn bss_size(code: u8) -> Option<usize>
    ensures { result ≡ size_in_lem (row_for bss_rows code) }
{
    match code {
        0x83 => Some(6),
        0xB7 => Some(8),
        _ => None,
    }
}
