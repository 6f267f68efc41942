// The lines of the input.
use std::io::Read;

// Which input is still to be answered, from `at` to `have`, and whether the input has ended.
#[derive(Drop)]
pub(crate) struct Input {
    bytes: [u8; 65536],
    at: usize,
    have: usize,
    pub(crate) ended: bool,
}

impl Input {
    // Nothing is read yet.
    pub(crate) fn new() -> Self {
        Input {
            bytes: [0; 65536],
            at: 0,
            have: 0,
            ended: false,
        }
    }

    // The next line, where its end is there. At the input's end what is left is a line too.
    pub(crate) fn line(&mut self) -> Option<&[u8]> {
        let start = self.at;
        let end = command_lines::line_end(&self.bytes, start, self.have);
        if end < self.have || (self.ended && start < self.have) {
            self.at = end.wrapping_add(1);
            return Some(command_lines::line_in(&self.bytes, start, end));
        }
        None
    }

    // Moves what is not answered yet to the start, and reads more after it.
    pub(crate) fn fill(&mut self, reader: &mut impl Read) {
        let kept = command_lines::moved(&mut self.bytes, self.at, self.have);
        let more = incoming::read_some(reader, &mut self.bytes[kept..]);
        self.at = 0;
        self.have = kept + more;
        self.ended = more == 0;
    }
}
