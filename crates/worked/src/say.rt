// What the worked values print.
use batch::Finished;
use refusals::Refusal;
use std::io;

pub(crate) fn answer(rt: &impl Print, name: &str, root: u64, rest: u64) -> io::Result<()> {
    println!(rt; "{name}")?;
    println!(rt; "  root {root}")?;
    println!(rt; "  rest {rest}")
}

// The number of a refusal, 0 where there is none.
fn number<T: Drop>(a: Result<T, Refusal>) -> u8 {
    a.err().map_or(0, |refusal| refusal.number())
}

pub(crate) fn refusal(rt: &impl Print, a: Result<Finished, Refusal>) -> io::Result<()> {
    println!(rt; "batch, refusal {}", number(a))
}

// What a batch did: nothing where it was refused.
pub(crate) fn finished(rt: &impl Print, a: Result<Finished, Refusal>) -> io::Result<()> {
    let Finished { done, spent } = a.unwrap_or(Finished { done: 0, spent: 0 });
    println!(rt; "  done {done}")?;
    println!(rt; "  spent {spent}")
}

pub(crate) fn roots(rt: &impl Print, places: &[u16; 4]) -> io::Result<()> {
    for (i, place) in places.iter().enumerate() {
        println!(rt; "  root {i}: {place}")?;
    }
    Ok(())
}

pub(crate) fn rebuilt(rt: &impl Print, rebuilt: Result<u32, Refusal>) -> io::Result<()> {
    println!(rt; "rebuilt: refusal {}", number(rebuilt))?;
    println!(rt; "  value {}", rebuilt.unwrap_or(0))
}
