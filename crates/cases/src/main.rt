// Feeds `reply` the inputs of a list and compares what it answers with the answers that the list has.
// The list, on standard input, has texts in pairs, an input and its whole answer, with a NUL after each. In an input the
// byte 1 stands for a NUL of its own. An input has at most 4096 bytes, and the list less than 65536.
#![tactic(auto)]

ghost use Rattle.std.specs.Prelude.{◌≤◌, ◌<◌, length, IfSome};

use std::io;

// The text up to the first NUL, and what stands behind that.
fn split_text(list: &[u8]) -> Option<(&[u8], &[u8])>
    ensures { IfSome result (λ parts. length parts.1.now < length list.now) }
{
    let nul = list.iter().position(|byte| *byte == 0)?;
    Some((&list[..nul], &list[nul + 1..]))
}

fn plain(byte: u8) -> u8 {
    if byte == 1 { 0 } else { byte }
}

// Copies an input, with a NUL for each byte 1, and answers its length.
fn with_nuls(input: &[u8], to: &mut [u8]) -> usize
    ensures { result ≤ length to.new }
{
    for (place, byte) in to.iter_mut().zip(input) {
        *place = plain(*byte);
    }
    input.len().min(to.len())
}

fn say_difference(rt: &impl Print, input: &[u8], expected: &[u8], found: &[u8]) -> io::Result<()> {
    rt.write_all(b"differs at the input:\n")?;
    rt.write_all(input)?;
    rt.write_all(b"\nexpected:\n")?;
    rt.write_all(expected)?;
    rt.write_all(b"\nfound:\n")?;
    rt.write_all(found)
}

// Whether the reply to an input is the expected one; says the difference where it is not.
fn agrees(rt: &impl Print, input: &[u8], expected: &[u8]) -> io::Result<bool> {
    let mut asked = [0; 4096];
    let size = with_nuls(input, &mut asked);
    let mut out = [0; 128];
    let end = reply::reply(&asked[..size], &mut out).unwrap();
    let found = &out[..end];
    if found == expected {
        return Ok(true);
    }
    say_difference(rt, input, expected, found)?;
    Ok(false)
}

fn compare(rt: &impl Print, list: &[u8]) -> io::Result<()> {
    let mut count: u64 = 0;
    let mut rest = list;
    while let Some((input, behind)) = split_text(rest) {
        let Some((expected, next)) = split_text(behind) else {
            break;
        };
        if !agrees(rt, input, expected)? {
            return Ok(());
        }
        count += 1;
        rest = next;
    }
    if !rest.is_empty() {
        return println!(rt; "the list breaks off in a pair");
    }
    println!(rt; "{count} inputs, 0 differ")
}

fn main(rt: HostRuntime) -> io::Result<()> {
    let mut list = [0; 65536];
    let (size, _) = input::read_full(&mut rt.stdin(), &mut list);
    if size == 65536 {
        return println!(rt; "the list is too long");
    }
    compare(&rt, &list[..size])
}
