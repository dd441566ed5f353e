// Runs the scope document's worked values that are not proved one by one, and prints what comes out: the file stdout beside
// this one holds the document's answers.
#![tactic(auto)]

mod say;

use say::{answer, finished, rebuilt, refusal, roots};
use std::io;

// The batch over 0, 1, 4, 4294967295, under a budget.
fn batch_under(rt: &impl Print, budget: u64) -> io::Result<()> {
    let values = [0u32, 1, 4, 4294967295];
    let mut places = [9u16, 9, 9, 9];
    let a = batch::sqrt_batch(&values, &mut places, 0, 4, budget);
    println!(rt; "batch, budget {budget}")?;
    finished(rt, a)?;
    roots(rt, &places)
}

// A part that does not fit the values: the refusal, and the roots as they were.
fn batch_part(rt: &impl Print, first: usize, count: usize) -> io::Result<()> {
    let values = [0u32, 1, 4, 4294967295];
    let mut places = [9u16, 9, 9, 9];
    let a = batch::sqrt_batch(&values, &mut places, first, count, 100);
    refusal(rt, a)?;
    finished(rt, a)?;
    roots(rt, &places)
}

// A roots slice that is shorter than the values.
fn batch_of_other_length(rt: &impl Print) -> io::Result<()> {
    let values = [0u32, 1, 4, 4294967295, 9];
    let mut places = [9u16, 9, 9, 9];
    let a = batch::sqrt_batch(&values, &mut places, 1, 2, 100);
    refusal(rt, a)?;
    roots(rt, &places)
}

fn main(rt: HostRuntime) -> io::Result<()> {
    let s = roots::sqrt_rem(u64::MAX);
    answer(&rt, "square u64 max", s.root as u64, s.rest)?;
    let c = roots::cbrt_rem(u64::MAX);
    answer(&rt, "cube u64 max", c.root as u64, c.rest)?;
    batch_under(&rt, 0)?;
    batch_under(&rt, 3)?;
    batch_under(&rt, 4)?;
    batch_part(&rt, 5, 0)?;
    batch_part(&rt, 2, 3)?;
    batch_part(&rt, 4, 0)?;
    batch_of_other_length(&rt)?;
    rebuilt(&rt, rebuild::cube::<u32>(1625, 3951670))?;
    rebuilt(&rt, rebuild::cube::<u32>(1625, 3951671))?;
    rebuilt(&rt, rebuild::cube::<u32>(1625, 7926751))
}
