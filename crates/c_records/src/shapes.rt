// A record's fields, by its shape.
ghost use Rattle.std.specs.Prelude.{◌≡◌, get_or};
ghost use Rattle.records.specs.Values.{bytes_of};
ghost use Rattle.c_records.specs.Shapes.{crossed_query, crossed_association, crossed_capability, byte_of, shape_of};

use crate::{AshlarAssociation, AshlarCapability, AshlarQuery, Shape};
use records::{AssociationState, ClientAssociation, LinkMetricQuery, Profile2ApCapability, Record};

impl From<Record> for Shape {
    ghost from_gives = { λ item r. r ≡ shape_of item };

    fn from(item: Record) -> Self {
        match item {
            Record::EndOfMessage => Self::Nothing,
            Record::AlMacAddress(address) => Self::Address(address),
            Record::MacAddress(address) => Self::Address(address),
            Record::SearchedRole(_) => byte_of(1, item),
            Record::SupportedRole(_) => byte_of(1, item),
            Record::SupportedFreqBand(_) => byte_of(3, item),
            Record::Ieee1905ProfileVersion(_) => byte_of(2, item),
            Record::LinkMetricResultCode(_) => byte_of(1, item),
            Record::LinkMetricQuery(query) => Self::Query(query.into()),
            Record::ClientAssociation(association) => Self::Association {
                association: association.into(),
                state: record_writing::byte_at(item, 12),
            },
            Record::MultiApProfile(_) => byte_of(4, item),
            Record::Profile2ApCapability(capability) => Self::Capability {
                capability: capability.into(),
                flags: record_writing::byte_at(item, 2),
            },
        }
    }
}

// A record of one byte, a code of which so many have a name, from 0 on (rule K5).
fn byte_of(names: u8, item: Record) -> Shape
    ensures { result ≡ byte_of names (get_or (bytes_of item) 0 0) }
{
    let byte = record_writing::byte_at(item, 0);
    Shape::Byte {
        byte,
        reserved: names <= byte,
    }
}

impl From<LinkMetricQuery> for AshlarQuery {
    ghost from_gives = { λ query r. r ≡ crossed_query query };

    fn from(query: LinkMetricQuery) -> Self {
        AshlarQuery {
            neighbor: query.neighbor_mac.unwrap_or(c_stations::no_address()),
            neighbor_type: query.neighbor_type,
            has_neighbor: query.neighbor_mac.is_some(),
            metrics: query.requested_metrics,
        }
    }
}

impl From<ClientAssociation> for AshlarAssociation {
    ghost from_gives = { λ association r. r ≡ crossed_association association };

    fn from(association: ClientAssociation) -> Self {
        let station = association.sta_mac;
        let point = association.ap_mac;
        AshlarAssociation {
            station,
            point,
            joined: association.association_state == AssociationState::JoinedBss,
        }
    }
}

impl From<Profile2ApCapability> for AshlarCapability {
    ghost from_gives = { λ capability r. r ≡ crossed_capability capability };

    fn from(capability: Profile2ApCapability) -> Self {
        AshlarCapability {
            max_prioritization_rules: capability.max_prioritization_rules,
            reserved: capability.reserved,
            byte_counter_units: record_writing::units_byte(capability.byte_counter_units),
            prioritization: capability.prioritization,
            dpp_onboarding: capability.dpp_onboarding,
            traffic_separation: capability.traffic_separation,
            flags_reserved: capability.flags_reserved,
            max_vids: capability.max_vids,
        }
    }
}
