// The records of a window, heard and printed, or only looked at.
ghost use Rattle.std.specs.Prelude.{◌≡◌, length};
ghost use Rattle.table.specs.Rows.{fresh_table};
ghost use Rattle.pushing.specs.Made.{Made};
ghost use Rattle.captures.specs.Reading.{reached_of, file_step};
ghost use Rattle.house.specs.House.{brought_by, after_brought};
ghost use Rattle.house.specs.Story.{after_records};
ghost use Rattle.house.specs.Windows.{records_from, stop_of};
ghost use Rattle.watch.specs.Watching.{house_in, next_in_lem};

use answer_lines::Answers;
use captures::Reached;
use numbers::Refusal;
use stations::Stations;
use story_lines::{AnsweredFrame, Counts};
use table::{STORE_SIZE, Table};

// The longest message has nine fragments of 1,492 bytes (rule T9).
const LONGEST: usize = 13428;

// The house, with the output that push joins messages in; what was counted, the lines that are not out yet, and whether
// they show fields. Clauses ask for `Made`, and no ghost field has it: a field keeps a fact of several cases only
// truncated, and `hear` asks for it whole.
#[derive(Drop)]
pub(crate) struct Watch {
    pub table: Table,
    pub store: [u8; STORE_SIZE],
    pub out: [u8; LONGEST],
    pub held: Stations,
    pub counts: Counts,
    pub text: Answers,
    pub verbose: bool,
}

// Where the records of a window stop, and why: the window's end, or a refusal.
#[derive(Clone, Copy)]
pub(crate) struct Stopped {
    pub at: usize,
    pub reached: Result<Reached, Refusal>,
}

// Where the next step starts, after one that goes over a record.
fn next_in(reached: Result<Reached, Refusal>) -> Option<usize>
    ensures { result ≡ next_in_lem (reached_of reached) }
{
    match reached {
        Ok(Reached::Ours { frame: _, next } | Reached::Other { next }) => Some(next),
        Ok(Reached::FileEnd) | Err(_) => None,
    }
}

impl Watch {
    // A house in which nothing happened yet.
    pub(crate) fn new(verbose: bool) -> Self {
        Watch {
            table: table::fresh(),
            store: [0; STORE_SIZE],
            out: [0; LONGEST],
            held: stations::fresh(),
            counts: Counts::new(),
            text: Answers::new(),
            verbose,
        }
    }

    // The record at `at` of a window, heard and printed. The lines say what its sweep drops, as the table was before it,
    // and what push answered, with the stations as they were.
    fn told_record(&mut self, rt: &impl Print, window: &[u8], at: usize) -> Result<Reached, Refusal>
        requires { Made self.old.table }
        ensures reached { reached_of result ≡ file_step window.now at }
        ensures house { house_in self.new ≡ after_brought (length self.old.out) (house_in self.old) (brought_by window.now (file_step window.now at)) }
        ensures made { Made self.new.table }
        ensures long { length self.new.out ≡ length self.old.out }
    {
        let before = self.table;
        let seats = self.held;
        let after = house::hear(
            &mut self.table,
            &mut self.store,
            &mut self.out,
            &mut self.held,
            window,
            at,
        );
        match after.reached {
            Ok(Reached::Ours { frame, next: _ }) => {
                let swept = story_lines::put_swept(rt, &mut self.text, &before, frame);
                let payload = captures::payload(window, frame);
                let outcome = AnsweredFrame {
                    frame,
                    answer: after.answer,
                    message: reassembler::show(after.answer, payload, &self.out),
                    seats,
                };
                let said = story_lines::put_answer(rt, &mut self.text, outcome, self.verbose);
                self.counts = self.counts.with_frame(swept, said);
            }
            Ok(Reached::Other { next: _ }) => {
                self.counts = self.counts.with_other();
            }
            _ => {}
        }
        after.reached
    }

    // Rule H10: the records of a window from `from` on, heard and printed, up to where they stop.
    pub(crate) fn told_window(&mut self, rt: &impl Print, window: &[u8], from: usize) -> Stopped
        requires { Made self.old.table }
        ensures house { house_in self.new ≡ after_records (length self.old.out) window.now (house_in self.old) (records_from window.now from) }
        ensures stopped { (result.at ≡ stop_of window.now from) × (reached_of result.reached ≡ file_step window.now (stop_of window.now from)) }
        ensures made { Made self.new.table }
        ensures long { length self.new.out ≡ length self.old.out }
    {
        let mut at = from;
        loop {
            let reached = self.told_record(rt, window, at);
            let Some(next) = next_in(reached) else {
                return Stopped { at, reached };
            };
            at = next;
        }
    }
}

// The same, only looked at. The two loops stay two: one over a closure would lend it the whole house, and what
// `told_window` says of the house would have to be said of that closure.
pub(crate) fn looked_at(window: &[u8], from: usize) -> Stopped
    ensures { (result.at ≡ stop_of window.now from) × (reached_of result.reached ≡ file_step window.now (stop_of window.now from)) }
{
    let mut at = from;
    loop {
        let reached = captures::step(window, at);
        let Some(next) = next_in(reached) else {
            return Stopped { at, reached };
        };
        at = next;
    }
}
