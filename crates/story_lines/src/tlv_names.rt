// The names of TLVs (IEEE 1905.1, 6.4, IEEE 1905.1a, and Multi-AP, 17.2).
use answer_lines::Answers;

// The name of a TLV type, or the number of one that has no name here. A message may have hundreds of TLVs: so a name
// goes straight to the text, and no format stands in between.
pub(crate) fn put_tlv_name(text: &mut Answers, tlv_type: u8) {
    match name_of(tlv_type) {
        Some(name) => text.put(name.as_bytes()),
        None => {
            text.put(b"TLV 0x");
            text.put_hex(u64::from(tlv_type), 2);
        }
    }
}

// Multi-AP.
fn multi_ap(tlv_type: u8) -> Option<&'static str> {
    match tlv_type {
        0x80 => Some("supported service"),
        0x81 => Some("searched service"),
        0x83 => Some("operational BSS"),
        0x84 => Some("associated clients"),
        0x92 => Some("client association"),
        0xB3 => Some("Multi-AP profile"),
        0xB4 => Some("AP capability (profile 2)"),
        0xB7 => Some("BSS configuration"),
        0xD4 => Some("device inventory"),
        _ => None,
    }
}

// IEEE 1905.1, and then Multi-AP.
fn name_of(tlv_type: u8) -> Option<&'static str> {
    match tlv_type {
        0x00 => Some("end of message"),
        0x01 => Some("AL MAC address"),
        0x02 => Some("MAC address"),
        0x03 => Some("device information"),
        0x04 => Some("bridging capability"),
        0x06 => Some("non-1905 neighbours"),
        0x07 => Some("1905 neighbours"),
        0x08 => Some("link metric query"),
        0x09 => Some("link metric tx"),
        0x0A => Some("link metric rx"),
        0x0B => Some("vendor specific"),
        0x0C => Some("link metric result"),
        0x0D => Some("searched role"),
        0x0E => Some("autoconfiguration band"),
        0x0F => Some("supported role"),
        0x10 => Some("supported band"),
        0x11 => Some("WSC"),
        0x15 => Some("device identification"),
        0x16 => Some("control URL"),
        0x17 => Some("IPv4"),
        0x18 => Some("IPv6"),
        0x1A => Some("profile version"),
        0x1E => Some("layer-2 neighbours"),
        _ => multi_ap(tlv_type),
    }
}
