// A value that holds text, read whole: its layout first, and then its texts (rule K7).
ghost use Rattle.std.specs.Prelude.{◌≡◌};
ghost use Rattle.numbers.specs.Numbers.{answered, mapped};
ghost use Rattle.texts.specs.Reading.{radio_list_lem, radios_in_lem, laid_of, whole_of};
ghost use Rattle.texts.specs.PrivateSteps.{row_kind, outline_of};

use crate::pieces::all_valid;
use crate::rows::{TextRow, radio, radio_list};
use layouts::{ListAt, list_at, read_list};
use numbers::Refusal;

// A value that is there whole: its radios, and where it ends.
#[derive(Clone, Copy)]
pub(crate) struct Outline {
    pub list: ListAt,
    pub end: usize,
}

// The list of the radios at `at`, where there are any.
#[tactic(auto, unfolding(crate::specs::Reading::radio_list_lem))]
fn radios_at(radios: bool, s: &[u8], at: usize) -> Result<ListAt, Refusal>
    ensures { answered result ≡ radio_list_lem radios s.now at }
{
    if radios {
        return list_at(radio_list(), s, at);
    }
    Ok(ListAt { many: 0, first: at })
}

// The list of the radios, which stands after the pieces. The texts are not looked at.
#[tactic(auto, unfolding(crate::specs::Reading::radios_in_lem))]
pub(crate) fn radios_in(row: TextRow, s: &[u8]) -> Result<ListAt, Refusal>
    ensures { answered result ≡ radios_in_lem (row_kind row) s.now }
{
    let end = read_list(row.piece, row.many, s, 0)?;
    radios_at(row.radios, s, end)
}

// The layout of a value: its pieces, and then its radios.
#[tactic(auto, using(crate::proofs::Whole::outline_steps))]
fn lay(row: TextRow, s: &[u8]) -> Result<Outline, Refusal>
    ensures { answered result ≡ mapped outline_of (laid_of (row_kind row) s.now) }
{
    let list = radios_in(row, s)?;
    let end = read_list(radio(), list.many, s, list.first)?;
    Ok(Outline { list, end })
}

// The whole value: its layout, and then the texts of its pieces and of its radios.
#[tactic(auto, using(crate::proofs::Whole::whole_of_lem, crate::proofs::Whole::not_outlined, crate::proofs::Whole::whole_cut, crate::proofs::Whole::whole_good, crate::proofs::Whole::whole_bad_own, crate::proofs::Whole::whole_bad_radio))]
pub(crate) fn read_row(row: TextRow, s: &[u8]) -> Result<Outline, Refusal>
    ensures { answered result ≡ mapped outline_of (whole_of (row_kind row) s.now) }
{
    let value = lay(row, s)?;
    if !all_valid(row.piece, row.many, s, 0) {
        return Err(Refusal::NotText);
    }
    if !all_valid(radio(), value.list.many, s, value.list.first) {
        return Err(Refusal::NotText);
    }
    Ok(value)
}
