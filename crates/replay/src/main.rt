// Replays the list of the Rust's answers against the proved calls, and says how many it compared, by width and
// kind, and that none differs, or the first that does.
#![tactic(auto)]

mod calls;
mod list;
mod say;

use calls::{Found, call};
use list::{Run, Width};
use std::io;
use std::io::Read;
use values::Kind;

// The answer for the i-th value of a run is the one that the list has.
fn agrees(run: Run, i: u64, found: Found) -> bool {
    found.full.root == run.root
        && found.alone == run.root
        && found.normalised
        && found.rebuilt
        && found.full.rest == run.rest.wrapping_add(i)
        && found.full.start == run.start
        && found.full.steps == run.steps
}

// A value of a run at which what the calls answer is not what the list has.
#[derive(Clone, Copy)]
struct Difference {
    at: u64,
    found: Found,
}

// Compares every value of a run, up to the first that differs.
fn replay(run: Run, width: Width) -> Result<(), Difference> {
    for i in 0..run.count {
        let found = call(run.kind, width, run.value.wrapping_add(i));
        if !agrees(run, i, found) {
            return Err(Difference { at: i, found });
        }
    }
    Ok(())
}

// How many answers were compared, by width and kind.
type Tally = [[u64; 2]; 4];

fn count(tally: &mut Tally, run: Run, width: Width) {
    let column = match run.kind {
        Kind::Square => 0,
        Kind::Cube => 1,
    };
    let row = &mut tally[width.row()];
    row[column] = row[column].wrapping_add(run.count);
}

// The list's next run, if there is one.
fn next_run(list: &mut impl Read) -> Option<Run> {
    let mut bytes = [0u8; 32];
    let (got, _) = input::read_full(list, &mut bytes);
    (got == 32).then(|| Run::from(bytes))
}

// More runs than a list has, so that the loop ends whatever is read.
const MOST_RUNS: u64 = 1000000;

fn main(rt: HostRuntime) -> io::Result<()> {
    let mut list = rt.stdin();
    let mut tally: Tally = [[0; 2]; 4];
    for _ in 0..MOST_RUNS {
        let Some(run) = next_run(&mut list) else {
            break;
        };
        let Some(width) = run.width else {
            continue;
        };
        if let Err(difference) = replay(run, width) {
            return say::difference(&rt, run, width, difference.at, difference.found);
        }
        count(&mut tally, run, width);
    }
    say::counts(&rt, &tally)
}
