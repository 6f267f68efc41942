// What was read of a value, by the fields of the shape that is asked for. A record of another shape is refused by 16,
// as a code that no kind has.
ghost use Rattle.std.specs.Prelude.{◌≡◌, ◌-◌};
ghost use Rattle.numbers.specs.Numbers.{answered, mapped};
ghost use Rattle.c_records.specs.Shapes.{shape_of, address_fields, byte_fields, query_fields, association_fields, capability_fields};
ghost use Rattle.c_records.specs.Reading.{read_in_shape, address_numbers_lem, byte_numbers_lem, query_numbers_lem, association_numbers_lem, capability_numbers_lem};

use crate::{
    AshlarAddressRead, AshlarAssociationRead, AshlarByteRead, AshlarCapabilityRead,
    AshlarQueryRead, Shape,
};
use numbers::Refusal;
use records::RecordRead;

// What a value holds, and how many of its bytes hold it and how many follow.
#[derive(Clone, Copy)]
pub(crate) struct Shaped {
    pub shape: Shape,
    pub consumed: usize,
    pub rest: usize,
}

// What was read of a value of this length, by its shape. No call consumes more bytes than there are.
fn by_shape(answer: Result<RecordRead, Refusal>, length: usize) -> Result<Shaped, Refusal>
    ensures { answered result ≡ mapped (λ r. record { shape = shape_of r.value; consumed = r.consumed; rest = «length» - r.consumed }) (answered answer) }
{
    let read = answer?;
    Ok(Shaped {
        shape: Shape::from(read.value),
        consumed: read.consumed,
        rest: length.saturating_sub(read.consumed),
    })
}

// An address, from what was read of a value of this length. This and the calls below are alike, and stay apart: each
// fills a C struct of its own.
pub fn address_numbers(answer: Result<RecordRead, Refusal>, length: usize) -> AshlarAddressRead
    ensures { result ≡ address_numbers_lem (read_in_shape address_fields «length» (answered answer)) }
{
    let refusal = match by_shape(answer, length) {
        Ok(
            Shaped {
                shape: Shape::Address(address),
                consumed,
                rest,
            },
        ) => {
            return AshlarAddressRead {
                consumed,
                rest,
                address,
                refusal: 0,
            };
        }
        Ok(_) => Refusal::UnknownKind,
        Err(refusal) => refusal,
    };
    AshlarAddressRead {
        refusal: numbers::number_of(refusal),
        ..AshlarAddressRead::default()
    }
}

// A byte, from what was read of a value of this length.
pub fn byte_numbers(answer: Result<RecordRead, Refusal>, length: usize) -> AshlarByteRead
    ensures { result ≡ byte_numbers_lem (read_in_shape byte_fields «length» (answered answer)) }
{
    let refusal = match by_shape(answer, length) {
        Ok(
            Shaped {
                shape: Shape::Byte { byte, reserved },
                consumed,
                rest,
            },
        ) => {
            return AshlarByteRead {
                consumed,
                rest,
                byte,
                reserved,
                refusal: 0,
            };
        }
        Ok(_) => Refusal::UnknownKind,
        Err(refusal) => refusal,
    };
    AshlarByteRead {
        refusal: numbers::number_of(refusal),
        ..AshlarByteRead::default()
    }
}

// A query, from what was read of a value of this length.
pub fn query_numbers(answer: Result<RecordRead, Refusal>, length: usize) -> AshlarQueryRead
    ensures { result ≡ query_numbers_lem (read_in_shape query_fields «length» (answered answer)) }
{
    let refusal = match by_shape(answer, length) {
        Ok(
            Shaped {
                shape: Shape::Query(query),
                consumed,
                rest,
            },
        ) => {
            return AshlarQueryRead {
                consumed,
                rest,
                query,
                refusal: 0,
            };
        }
        Ok(_) => Refusal::UnknownKind,
        Err(refusal) => refusal,
    };
    AshlarQueryRead {
        refusal: numbers::number_of(refusal),
        ..AshlarQueryRead::default()
    }
}

// An association, from what was read of a value of this length.
pub fn association_numbers(
    answer: Result<RecordRead, Refusal>,
    length: usize,
) -> AshlarAssociationRead
    ensures { result ≡ association_numbers_lem (read_in_shape association_fields «length» (answered answer)) }
{
    let refusal = match by_shape(answer, length) {
        Ok(
            Shaped {
                shape: Shape::Association { association, state },
                consumed,
                rest,
            },
        ) => {
            return AshlarAssociationRead {
                consumed,
                rest,
                association,
                state,
                refusal: 0,
            };
        }
        Ok(_) => Refusal::UnknownKind,
        Err(refusal) => refusal,
    };
    AshlarAssociationRead {
        refusal: numbers::number_of(refusal),
        ..AshlarAssociationRead::default()
    }
}

// A capability, from what was read of a value of this length.
pub fn capability_numbers(
    answer: Result<RecordRead, Refusal>,
    length: usize,
) -> AshlarCapabilityRead
    ensures { result ≡ capability_numbers_lem (read_in_shape capability_fields «length» (answered answer)) }
{
    let refusal = match by_shape(answer, length) {
        Ok(
            Shaped {
                shape: Shape::Capability { capability, flags },
                consumed,
                rest,
            },
        ) => {
            return AshlarCapabilityRead {
                consumed,
                rest,
                capability,
                flags,
                refusal: 0,
            };
        }
        Ok(_) => Refusal::UnknownKind,
        Err(refusal) => refusal,
    };
    AshlarCapabilityRead {
        refusal: numbers::number_of(refusal),
        ..AshlarCapabilityRead::default()
    }
}
