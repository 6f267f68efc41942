// The refusals, one enum for all layers (rule N1), and numbers in bytes, highest byte first (rule B1).
#![tactic(auto)]

ghost use Rattle.std.specs.Prelude.{◌≡◌, [], ◌∷◌, ◌<◌};
ghost use Rattle.numbers.specs.Numbers.{number, carried};
ghost use Rattle.numbers.specs.Bytes.{big_endian};

// Why a call refused: a case for each line of rule N1, with what it carries. A caller passes on the refusal of a layer
// below under this name. It never makes it anew, so that a case can carry more later.
#[derive(Clone, Copy)]
pub enum Refusal {
    // 1: a TLV or a CMDU header is cut, with the shortfall (rules B3 and B6)
    TooFewBytes(usize),
    // 2: a TLV declares a longer value than is there, or a capture is cut, with the shortfall (rules B3 and G6)
    RunsPastEnd(usize),
    // 3: a value stops before its layout does (rule K1)
    CutShort,
    // 4: a value goes on after its layout, in a kind that allows no rest (rule K4)
    LeftOver,
    // 5: a value that its kind's own check refuses (rule K2)
    BadValue,
    // 6: no entry or text with these numbers (rules E2 and E7)
    NoEntry,
    // 7: too little room for what is to be written (rule B5)
    NoRoom,
    // 8: a value longer than a length in two bytes can say (rule B5)
    ValueTooLong,
    // 9: a record to be written that no reading returns (rule O1)
    NeverRead,
    // 10: no free place, or no free row for a new key (rule T6)
    TableFull,
    // 11: a store below 47,744 bytes (rule T4)
    StoreTooSmall,
    // 12: a payload above 1,492 bytes, or input of tlvlist above 47,744 (rules T4, G5 and L3)
    PayloadTooLong,
    // 13: an output shorter than the joined message, with the message's length (rule T9)
    OutputTooSmall(usize),
    // 14: a list with fewer elements than there are TLVs or frames (rules W5 and G8)
    ListTooShort,
    // 15: nothing was found, with the number of records that were looked at (rule F1)
    NotFound(usize),
    // 16: no kind has this code (rule K1)
    UnknownKind,
    // 17: no room for one more station (rule P4)
    NoStationRoom,
    // 18: a text that is not UTF-8 (rule E5)
    NotText,
    // 19: more than 1,024 pairs, or reports that can't be made into one (rules Q4 and Q7)
    NoReport,
    // 20: the sender holds its 8 places, or its 4 keys and needs a new one (rule T6)
    SenderFull,
    // 21: a message that no fragments can carry (rule M5)
    NoCutting,
    // 22: a file of another form than a capture's (rule G6)
    NotACapture,
    // 23: a frame that was captured in part, or a time that no capture can hold (rules G5 and G6)
    BadFrame,
}

// The number of a refusal (rule N1).
pub fn number_of(refusal: Refusal) -> u8
    ensures { result ≡ number refusal }
{
    match refusal {
        Refusal::TooFewBytes(_) => 1,
        Refusal::RunsPastEnd(_) => 2,
        Refusal::CutShort => 3,
        Refusal::LeftOver => 4,
        Refusal::BadValue => 5,
        Refusal::NoEntry => 6,
        Refusal::NoRoom => 7,
        Refusal::ValueTooLong => 8,
        Refusal::NeverRead => 9,
        Refusal::TableFull => 10,
        Refusal::StoreTooSmall => 11,
        Refusal::PayloadTooLong => 12,
        Refusal::OutputTooSmall(_) => 13,
        Refusal::ListTooShort => 14,
        Refusal::NotFound(_) => 15,
        Refusal::UnknownKind => 16,
        Refusal::NoStationRoom => 17,
        Refusal::NotText => 18,
        Refusal::NoReport => 19,
        Refusal::SenderFull => 20,
        Refusal::NoCutting => 21,
        Refusal::NotACapture => 22,
        Refusal::BadFrame => 23,
    }
}

// What a refusal carries besides its number (rule N1): the shortfall for 1 and 2, the length for 13, how many were
// looked at for 15. It is 0 where the refusal carries nothing.
pub fn carried_by(refusal: Refusal) -> usize
    ensures { result ≡ carried refusal }
{
    match refusal {
        Refusal::TooFewBytes(missing) => missing,
        Refusal::RunsPastEnd(missing) => missing,
        Refusal::OutputTooSmall(length) => length,
        Refusal::NotFound(looked) => looked,
        Refusal::CutShort => 0,
        Refusal::LeftOver => 0,
        Refusal::BadValue => 0,
        Refusal::NoEntry => 0,
        Refusal::NoRoom => 0,
        Refusal::ValueTooLong => 0,
        Refusal::NeverRead => 0,
        Refusal::TableFull => 0,
        Refusal::StoreTooSmall => 0,
        Refusal::PayloadTooLong => 0,
        Refusal::ListTooShort => 0,
        Refusal::UnknownKind => 0,
        Refusal::NoStationRoom => 0,
        Refusal::NotText => 0,
        Refusal::NoReport => 0,
        Refusal::SenderFull => 0,
        Refusal::NoCutting => 0,
        Refusal::NotACapture => 0,
        Refusal::BadFrame => 0,
    }
}

// A byte as a count or a length. It is no cast in place: `Firmness` has it by this name, with the bound.
pub fn wide(byte: u8) -> usize
    ensures { (result ≡ byte) × (result < 256) }
{
    byte as usize
}

// The number that two bytes say, highest byte first (rule B1). A caller's u16 takes it by a cast.
pub fn be16(high: u8, low: u8) -> usize
    ensures { (result ≡ big_endian (high ∷ low ∷ [])) × (result < 65536) }
{
    wide(high) * 256 + wide(low)
}
