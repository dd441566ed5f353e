// Reading into a slice: what the library's readers do not promise, that one call goes on until the slice is full.
#![tactic(auto)]

ghost use Rattle.std.specs.Prelude.{◌≤◌, ◌<◌, length, take, OnOk};
ghost use Rattle.std.specs.Io.KnownBytes.{Consumes, IsAtEnd};

use std::io;
use std::io::Read;

// Reads until `buf` is full, the input ends or a read fails, and answers how many bytes it put at the front of `buf`.
pub fn read_full<R: Read>(from: &mut R, buf: &mut [u8]) -> (usize, io::Result<()>)
    ensures within { result.0 ≤ length buf.new }
    ensures bytes { Consumes (R.remaining from.old) (R.remaining from.new) (take result.0 buf.new) }
    ensures stops { OnOk result.1 (result.0 < length buf.new → IsAtEnd (R.remaining from.new)) }
{
    let mut done = 0;
    // A read says itself how far it came, so no iterator has the next place.
    while done < buf.len() {
        match from.read(&mut buf[done..]) {
            Ok(0) => return (done, Ok(())),
            Ok(more) => done += more,
            Err(e) => return (done, Err(e)),
        }
    }
    (done, Ok(()))
}
