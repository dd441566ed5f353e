// The whole output of the program `root`, for any input.
#![tactic(auto)]

mod lines;

ghost use Rattle.text.specs.Writing.{Wrote};
ghost use Rattle.reply.specs.Putting.{Puts};
ghost use Rattle.reply.specs.Reply.{answer_to, reply_of, Replied};

use crate::lines::put_answer;
use text::{Request, write_bytes};

fn put_reply(out: &mut [u8], request: Option<Request>) -> Option<usize>
    ensures { Puts out.old 0 (answer_to request) out.new result }
{
    match request {
        Some(asked) => put_answer(out, asked),
        None => write_bytes(out, 0, b"bad input\n"),
    }
}

// Writes the reply to the front of `out` and answers its length; `None` where it does not fit, and `out` is as it was.
// It is at most 128 bytes long, and put together apart, so that an `out` too short for it stays as it was.
pub fn reply(input: &[u8], out: &mut [u8]) -> Option<usize>
    ensures { Wrote out.old 0 (reply_of input.now) out.new result }
{
    let mut lines = [0; 128];
    let end = put_reply(&mut lines, text::request_of(input)).unwrap();
    write_bytes(out, 0, &lines[..end])
}

// The reply to an input of which `read` bytes were read into a window; a `read` above its length counts as its length.
// The window is longer than any good input, so what was not read does not matter.
#[tactic(auto, using(crate::proofs::Cut::replied_at))]
pub fn reply_to_window(window: &[u8; 32], read: usize, out: &mut [u8]) -> Option<usize>
    ensures { Replied window.now read out.old out.new result }
{
    let end = read.min(window.len());
    reply(&window[..end], out)
}
