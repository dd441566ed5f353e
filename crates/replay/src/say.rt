// What replay prints.
use crate::calls::Found;
use crate::list::{Run, Width};
use std::io;
use values::Kind;

// The answers compared, by width and kind, and that none differs.
pub(crate) fn counts(rt: &impl Print, tally: &[[u64; 2]; 4]) -> io::Result<()> {
    for (width, [squares, cubes]) in Width::ALL.iter().zip(tally.iter()) {
        println!(rt; "{width} {}: {squares} compared", Kind::Square)?;
        println!(rt; "{width} {}: {cubes} compared", Kind::Cube)?;
    }
    println!(rt; "0 differ")
}

fn said(agrees: bool) -> &'static str {
    if agrees { "agrees" } else { "differs" }
}

// The first difference: the i-th value of a run, what the list has of it, and what was found.
pub(crate) fn difference(
    rt: &impl Print,
    run: Run,
    width: Width,
    i: u64,
    f: Found,
) -> io::Result<()> {
    let value = run.value.wrapping_add(i);
    let rest = run.rest.wrapping_add(i);
    println!(rt; "differs: {width} {} value={value}", run.kind)?;
    println!(rt;
        "list: root={} rest={rest} start={} steps={}",
        run.root, run.start, run.steps
    )?;
    println!(rt;
        "found: root={} rest={} start={} steps={}",
        f.full.root, f.full.rest, f.full.start, f.full.steps
    )?;
    println!(rt;
        "root alone={} normalised={} rebuilt={}",
        f.alone,
        said(f.normalised),
        said(f.rebuilt)
    )
}
