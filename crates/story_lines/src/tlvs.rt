// The TLVs of a message, one after the other (rule W1), up to where the message ends or can't be walked any further.
ghost use Rattle.std.specs.Prelude.{◌-◌, length};
ghost use Rattle.std.specs.Iterator.{at_most};

use walking::{Stepped, Tlv};

#[derive(Drop)]
pub(crate) struct Tlvs<'a> {
    message: &'a [u8],
    at: usize,
}

// A TLV, and the bytes of its value (rule B2).
#[derive(Clone, Copy)]
pub(crate) struct TlvRead<'a> {
    pub tlv: Tlv,
    pub value: &'a [u8],
}

pub(crate) fn tlvs_of(message: &[u8]) -> Tlvs<'_> {
    Tlvs { message, at: 0 }
}

// The bytes of a TLV's value, which ends at `end`; none where they don't lie inside.
fn value_of(message: &[u8], tlv: Tlv, end: usize) -> &[u8] {
    message
        .get(tlv.offset.saturating_add(3)..end)
        .unwrap_or(&[])
}

impl<'a> Iterator for Tlvs<'a> {
    type Item = TlvRead<'a>;

    ghost remaining = { λ s. at_most (length s.message.now - s.at) };

    fn next(&mut self) -> Option<TlvRead<'a>> {
        match walking::step(self.message, self.at) {
            Ok(Stepped::Tlv { tlv, next }) => {
                self.at = next;
                let value = value_of(self.message, tlv, next);
                Some(TlvRead { tlv, value })
            }
            // nothing comes after the marker
            Ok(Stepped::Last { tlv, end }) => {
                self.at = self.message.len();
                let value = value_of(self.message, tlv, end);
                Some(TlvRead { tlv, value })
            }
            Ok(Stepped::End) | Err(_) => None,
        }
    }
}
