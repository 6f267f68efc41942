// An event in the value of a TLV (rule P6).
ghost use Rattle.std.specs.Prelude.{◌≡◌};
ghost use Rattle.numbers.specs.Numbers.{answered};
ghost use Rattle.stations.specs.Events.{association_read};

use numbers::Refusal;
use records::{ClientAssociation, Record};

// The event in a value, and how many bytes it took.
#[derive(Clone, Copy)]
pub struct AssociationRead {
    pub client: ClientAssociation,
    pub consumed: usize,
}

#[tactic(auto, using(crate::proofs::Associations::by_reader, crate::proofs::Associations::reads_association))]
pub(crate) fn association_in(value: &[u8]) -> Result<AssociationRead, Refusal>
    ensures { answered result ≡ association_read value.now }
{
    let read = records::read_client_association(value)?;
    // Reading this kind gives no other record.
    let Record::ClientAssociation(client) = read.value else {
        return Err(Refusal::UnknownKind);
    };
    Ok(AssociationRead {
        client,
        consumed: read.consumed,
    })
}
