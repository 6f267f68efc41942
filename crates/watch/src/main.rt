// Prints what happened in the capture on standard input (rules H7 to H10): a line for each message, for each one that
// was lost and for each event of a station, and at the end where each station is. The word -v shows the fields too. The
// file is gone over twice, through a window: first to see whether all of it can be read, then to tell it. So a fault
// anywhere leaves standard output empty, and a sentence on standard error says what it is.
#![tactic(auto)]

mod checking;
mod faults;
mod hearing;
mod window;

ghost use Rattle.std.specs.Prelude.{◌≡◌, ◌≤◌, length, take};
ghost use Rattle.table.specs.Rows.{fresh_table};
ghost use Rattle.pushing.specs.Made.{Made};
ghost use Rattle.house.specs.House.{house_of};
ghost use Rattle.house.specs.Windows.{after_file, shortened, window_size};
ghost use Rattle.watch.specs.Turns.{Turns, ByWindows};
ghost use Rattle.watch.specs.Watching.{house_in};

use hearing::Watch;
use std::fs::File;
use std::io;
use std::io::{Read, Seek};
use std::rt::Env;
use window::{HEADER, Window};

// A frame that is longer than the window: what there is of it is heard, and the file goes on after it.
fn turn_long(
    rt: &impl Print,
    input: &mut impl Seek,
    watch: &mut Watch,
    window: &mut Window,
    next: u64,
)
    requires { Made watch.old.table × (length window.old ≡ window_size) }
    ensures house { house_in watch.new ≡ after_file (length watch.old.out) (house_in watch.old) (shortened window.old) }
    ensures made { Made watch.new.table }
    ensures long { length watch.new.out ≡ length watch.old.out }
    ensures window { window.new ≡ take 24 (shortened window.old) }
{
    window.shorten();
    watch.told_window(rt, window.seen(), HEADER);
    window.seek(input, next);
}

// The records of the window are printed, and the window goes on. The file has no fault: the first pass saw to it. Says
// whether the file has ended.
fn turn<R: Read + Seek>(
    rt: &impl Print,
    input: &mut R,
    watch: &mut Watch,
    window: &mut Window,
) -> bool
    requires { Made watch.old.table × (24 ≤ length window.old) }
    ensures turned { Turns (length watch.old.out) window.old window.new (house_in watch.old) (house_in watch.new) }
    ensures made { Made watch.new.table × (24 ≤ length window.new) }
    ensures long { length watch.new.out ≡ length watch.old.out }
{
    let stopped = watch.told_window(rt, window.seen(), HEADER);
    if 0 < window.refill(input, stopped.at) {
        return false;
    }
    if window.is_full() {
        let next = window.after_long(checking::missing_in(stopped.reached));
        turn_long(rt, input, watch, window, next);
        return false;
    }
    true
}

// The whole file is printed, from a fresh table on. A proved loop has to end, and nothing says that a file does: so its
// turns are counted. The first pass saw that there is a file header. Should there be none any more, there is nothing to
// print.
fn told_file<R: Read + Seek>(rt: &impl Print, input: &mut R, watch: &mut Watch, window: &mut Window)
    ensures { ByWindows (length watch.old.out) (house_of fresh_table watch.old.store watch.old.held) (house_in watch.new) }
{
    watch.table = table::fresh();
    window.start(input);
    if window.seen().len() < HEADER {
        return;
    }
    for _ in 0..u64::MAX {
        if turn(rt, input, watch, window) {
            return;
        }
    }
}

// What is printed at the end (rules H8 and H9).
fn put_end(rt: &impl Print, watch: &mut Watch) {
    let open = story_lines::put_open(rt, &mut watch.text, &watch.table);
    watch.counts.losses = watch.counts.losses.wrapping_add(open.losses);
    story_lines::put_counts(rt, &mut watch.text, watch.counts);
    story_lines::put_stations(rt, &mut watch.text, &watch.held);
    watch.text.flush(rt);
}

// Both passes.
fn run<R: Read + Seek>(rt: &impl Print, errors: &impl Print, input: &mut R, verbose: bool) {
    let mut window = Window::new();
    if let Err(fault) = checking::check_file(input, &mut window) {
        let _ = println!(errors; "{fault}");
        return;
    }
    let mut watch = Watch::new(verbose);
    told_file(rt, input, &mut watch, &mut window);
    put_end(rt, &mut watch);
}

// Whether the first word is -v.
fn is_verbose(rt: &impl Env) -> bool {
    let mut word = [0u8; 4];
    match rt.arg(1, &mut word) {
        Ok(2) => word[0] == b'-' && word[1] == b'v',
        _ => false,
    }
}

// Opened by its name, standard input can be gone over twice where it is a file.
fn main(rt: HostRuntime) -> io::Result<()> {
    let mut input = File::open(&rt, "/dev/stdin")?;
    run(&rt, &rt.stderr(), &mut input, is_verbose(&rt));
    Ok(())
}
