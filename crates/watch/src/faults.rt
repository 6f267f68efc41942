// Why a file can't be read (rules G6 and H10), as a sentence on standard error.
use field_lines::Missing;
use std::fmt;

#[derive(Clone, Copy)]
pub(crate) enum Fault {
    Pcapng,
    HeaderCut { missing: u64 },
    NoCapture,
    RecordCut { at: u64, missing: u64 },
    Partial { at: u64, stored: u64, original: u64 },
    FrameCut { at: u64, missing: u64 },
}

// The sentence, with the number of the refusal.
impl fmt::Display for Fault {
    fn fmt<W: fmt::Write>(&self, f: &mut fmt::Formatter<W>) -> fmt::Result {
        match *self {
            Fault::Pcapng => write!(
                f,
                "this is a pcapng file; editcap -F pcap IN OUT makes a capture of it that can be read here"
            ),
            Fault::HeaderCut { missing } => {
                let missing = Missing(missing);
                write!(f, "the file header is cut, {missing} (2)")
            }
            Fault::NoCapture => write!(
                f,
                "this is no pcap file of Ethernet frames: magic number, version or link type is another (22)"
            ),
            Fault::RecordCut { at, missing } => {
                let missing = Missing(missing);
                write!(f, "the record header at {at} is cut, {missing} (2)")
            }
            Fault::Partial {
                at,
                stored,
                original,
            } => {
                write!(
                    f,
                    "the frame at {at} was captured with {stored} of its {original} bytes (23)"
                )
            }
            Fault::FrameCut { at, missing } => {
                let missing = Missing(missing);
                write!(f, "the frame at {at} is cut, {missing} (2)")
            }
        }
    }
}
