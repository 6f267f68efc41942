// The table of the kinds that hold text (rule K2).
ghost use Rattle.std.specs.Prelude.{◌≡◌};
ghost use Rattle.numbers.specs.Numbers.{answered, mapped};
ghost use Rattle.layouts.specs.Layouts.{c1_of};
ghost use Rattle.layouts.specs.Rows.{row_layout};
ghost use Rattle.texts.specs.Texts.{text_kind, radio};
ghost use Rattle.texts.specs.PrivateSteps.{row_kind};

use crate::{CONTROL_URL, DEVICE_IDENTIFICATION_TYPE, DEVICE_INVENTORY};
use layouts::LayoutRow;
use numbers::Refusal;

// A row of the table: the number of pieces, their layout, and whether radios follow.
#[derive(Clone, Copy)]
pub(crate) struct TextRow {
    pub many: usize,
    pub piece: LayoutRow,
    pub radios: bool,
}

// A piece of h bytes. At level 1 a list of bytes follows, after its count or to the end.
fn piece(levels: u8, has_count: bool, h: u8) -> LayoutRow
    ensures { result ≡ record { levels = levels; has_count = has_count; h0 = h; h1 = 1; h2 = 0; h3 = 0 } }
{
    LayoutRow {
        levels,
        has_count,
        h0: h,
        h1: 1,
        h2: 0,
        h3: 0,
    }
}

// A radio: an id of 6 bytes, and a text after its length (rule E8).
#[tactic(auto, unfolding(layouts::specs::Rows::layout_in))]
pub(crate) fn radio() -> LayoutRow
    ensures { row_layout result ≡ radio }
{
    piece(1, true, 6)
}

// The list of the radios.
#[tactic(auto, unfolding(layouts::specs::Rows::layout_in))]
pub(crate) fn radio_list() -> LayoutRow
    ensures { row_layout result ≡ c1_of radio }
{
    LayoutRow {
        levels: 2,
        has_count: true,
        h0: 0,
        h1: 6,
        h2: 1,
        h3: 0,
    }
}

fn text_row(many: usize, piece: LayoutRow, radios: bool) -> TextRow
    ensures { result ≡ record { many = many; piece = piece; radios = radios } }
{
    TextRow {
        many,
        piece,
        radios,
    }
}

// The row of the kind with this code.
#[tactic(auto, unfolding(crate::specs::Texts::text_kind, layouts::specs::Rows::layout_in))]
pub(crate) fn row_of(code: u8) -> Result<TextRow, Refusal>
    ensures { mapped row_kind (answered result) ≡ text_kind code }
{
    match code {
        DEVICE_IDENTIFICATION_TYPE => Ok(text_row(3, piece(0, true, 64), false)),
        CONTROL_URL => Ok(text_row(1, piece(1, false, 0), false)),
        DEVICE_INVENTORY => Ok(text_row(3, piece(1, true, 0), true)),
        _ => Err(Refusal::UnknownKind),
    }
}
