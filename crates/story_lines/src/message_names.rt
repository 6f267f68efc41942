// The names of message types (IEEE 1905.1, 6.3, and Multi-AP, 17.1).
use std::fmt;

// The name of a message type, or the number of one that has no name here.
#[derive(Clone, Copy)]
pub(crate) struct MessageName(pub u16);

impl fmt::Display for MessageName {
    fn fmt<W: fmt::Write>(&self, f: &mut fmt::Formatter<W>) -> fmt::Result {
        let message_type = self.0;
        match name_of(message_type) {
            Some(name) => f.write_str(name),
            None => write!(f, "message type 0x{message_type:04x}"),
        }
    }
}

// Multi-AP, from client steering on.
fn multi_ap_later(message_type: u16) -> Option<&'static str> {
    match message_type {
        0x8014 => Some("client steering request"),
        0x8015 => Some("client steering report"),
        0x8016 => Some("association control request"),
        0x8017 => Some("steering completed"),
        0x8018 => Some("higher layer data"),
        0x8019 => Some("backhaul steering request"),
        0x801A => Some("backhaul steering response"),
        0x801B => Some("channel scan request"),
        0x801C => Some("channel scan report"),
        0x8022 => Some("client disassociation"),
        0x8025 => Some("association status"),
        _ => None,
    }
}

// Multi-AP.
fn multi_ap(message_type: u16) -> Option<&'static str> {
    match message_type {
        0x8000 => Some("acknowledgement"),
        0x8001 => Some("AP capability query"),
        0x8002 => Some("AP capability report"),
        0x8003 => Some("policy request"),
        0x8004 => Some("channel preference query"),
        0x8005 => Some("channel preference report"),
        0x8006 => Some("channel selection request"),
        0x8007 => Some("channel selection response"),
        0x8008 => Some("operating channel report"),
        0x8009 => Some("client capability query"),
        0x800A => Some("client capability report"),
        0x800B => Some("AP metrics query"),
        0x800C => Some("AP metrics response"),
        0x800D => Some("STA link metrics query"),
        0x800E => Some("STA link metrics response"),
        0x800F => Some("unassociated STA metrics query"),
        0x8010 => Some("unassociated STA metrics response"),
        0x8011 => Some("beacon metrics query"),
        0x8012 => Some("beacon metrics response"),
        0x8013 => Some("combined metrics"),
        _ => multi_ap_later(message_type),
    }
}

// IEEE 1905.1, and then Multi-AP.
fn name_of(message_type: u16) -> Option<&'static str> {
    match message_type {
        0x0000 => Some("topology discovery"),
        0x0001 => Some("topology notification"),
        0x0002 => Some("topology query"),
        0x0003 => Some("topology response"),
        0x0004 => Some("vendor specific"),
        0x0005 => Some("link metric query"),
        0x0006 => Some("link metric response"),
        0x0007 => Some("autoconfiguration search"),
        0x0008 => Some("autoconfiguration response"),
        0x0009 => Some("autoconfiguration WSC"),
        0x000A => Some("autoconfiguration renew"),
        0x000B => Some("push button event"),
        0x000C => Some("push button join"),
        0x000D => Some("higher layer query"),
        0x000E => Some("higher layer response"),
        0x000F => Some("power change request"),
        0x0010 => Some("power change response"),
        0x0011 => Some("generic PHY query"),
        0x0012 => Some("generic PHY response"),
        _ => multi_ap(message_type),
    }
}
