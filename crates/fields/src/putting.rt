// An entry put into lent room: its own fields, and the text after them (rule O5).
ghost use Rattle.std.specs.Prelude.{◌≡◌, true, false, ◌&&◌, [], ◌++◌, ◌+◌, ◌≤◌, leb, length, take, drop};
ghost use Rattle.numbers.specs.Numbers.{answered, gives};
ghost use Rattle.framing.specs.Tlv.{leaves};
ghost use Rattle.fields.specs.Writing.{only_zeros_lem, text_bytes, longest_text_lem, put_size, made_bytes};
ghost use Rattle.fields.specs.PrivateSteps.{made_with};

use numbers::Refusal;

// How many bytes the own fields of an entry have, none where a kind has no such entry, and whether a text follows them.
#[derive(Clone, Copy)]
pub(crate) struct Shape {
    pub size: Option<usize>,
    pub has_text: bool,
}

// Copies the bytes to the start of `out`, if it has room for them.
#[tactic(auto, unfolding(crate::specs::Writing::put_size))]
pub fn put_bytes(own: &[u8], out: &mut [u8]) -> Result<usize, Refusal>
    ensures answer { answered result ≡ put_size (gives own.now) (length out.old) }
    ensures bytes { out.new ≡ leaves (put_size (gives own.now) (length out.old)) own.now out.old }
{
    if out.len() < own.len() {
        return Err(Refusal::NoRoom);
    }
    out[..own.len()].copy_from_slice(own);
    Ok(own.len())
}

// Puts the length of a text and the text at the start of `out`, which has room for them.
fn put_text(text: &[u8], out: &mut [u8])
    requires text_len_bound { length text.now ≤ 255 }
    requires text_in_bounds { 1 + length text.now ≤ length out.old }
    ensures { out.new ≡ text_bytes true text.now ++ drop (length (text_bytes true text.now)) out.old }
{
    out[0] = text.len() as u8;
    out[1..1 + text.len()].copy_from_slice(text);
}

// Puts fields and the text after them at the start of `out`, if it has room for both.
fn put_both(own: &[u8], text: &[u8], out: &mut [u8]) -> Result<usize, Refusal>
    requires { length text.now ≤ 255 }
    ensures answer { answered result ≡ put_size (gives (own.now ++ text_bytes true text.now)) (length out.old) }
    ensures bytes { out.new ≡ leaves (put_size (gives (own.now ++ text_bytes true text.now)) (length out.old)) (own.now ++ text_bytes true text.now) out.old }
{
    if out.len() < own.len() || out.len() - own.len() < 1 + text.len() {
        return Err(Refusal::NoRoom);
    }
    out[..own.len()].copy_from_slice(own);
    put_text(text, &mut out[own.len()..]);
    Ok(own.len() + (1 + text.len()))
}

// Whether all bytes from `from` on are 0.
fn only_zeros(own: &[u8], from: usize) -> bool
    ensures { result ≡ only_zeros_lem (drop from own.now) }
{
    own.iter().skip(from).all(|byte| *byte == 0)
}

// The longest text that can follow the fields.
fn longest_text(has_text: bool) -> usize
    ensures { result ≡ longest_text_lem has_text }
{
    if has_text { 255 } else { 0 }
}

// Whether reading can give these fields and this text: fields that the kind lacks are 0, and the text is not too long.
fn can_be_read(size: usize, has_text: bool, own: &[u8], text: &[u8]) -> bool
    ensures { result ≡ (only_zeros_lem (drop size own.now) && leb (length text.now) (longest_text_lem has_text)) }
{
    only_zeros(own, size) && text.len() <= longest_text(has_text)
}

// The first `size` bytes, or all of them if there are fewer.
fn first(size: usize, own: &[u8]) -> &[u8]
    ensures { result.now ≡ take size own.now }
{
    &own[..size.min(own.len())]
}

// Puts an entry of this shape at the start of `out`.
pub(crate) fn put_entry(
    shape: Shape,
    own: &[u8],
    text: &[u8],
    out: &mut [u8],
) -> Result<usize, Refusal>
    ensures answer { answered result ≡ put_size (made_with shape.has_text shape.size own.now text.now) (length out.old) }
    ensures bytes { out.new ≡ leaves (put_size (made_with shape.has_text shape.size own.now text.now) (length out.old)) (made_bytes (made_with shape.has_text shape.size own.now text.now)) out.old }
{
    let Some(size) = shape.size else {
        return Err(Refusal::UnknownKind);
    };
    if !can_be_read(size, shape.has_text, own, text) {
        return Err(Refusal::NeverRead);
    }
    let part = first(size, own);
    if shape.has_text {
        put_both(part, text, out)
    } else {
        put_bytes(part, out)
    }
}

// Puts an entry of `size` bytes without a text.
pub(crate) fn put_own(size: Option<usize>, own: &[u8], out: &mut [u8]) -> Result<usize, Refusal>
    ensures answer { answered result ≡ put_size (made_with false size own.now []) (length out.old) }
    ensures bytes { out.new ≡ leaves (put_size (made_with false size own.now []) (length out.old)) (made_bytes (made_with false size own.now [])) out.old }
{
    let shape = Shape {
        size,
        has_text: false,
    };
    put_entry(shape, own, &[], out)
}
