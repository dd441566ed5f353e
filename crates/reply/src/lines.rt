// The lines of an answer, one after the other, into a slice that has room for them. Each answers the place behind its text,
// and takes the slice and the place as `write_bytes` does: one value of both would hide what a promise says of each.
#![tactic(auto, using(crate::proofs::Putting::puts, crate::proofs::Putting::puts_on, crate::proofs::Putting::puts_stop), unfolding(crate::specs::Lines::line, crate::specs::Lines::asked_lines, crate::specs::Lines::found_lines))]

ghost use Rattle.defs.specs.Kinds.{u32};
ghost use Rattle.defs.specs.Answers.{Full};
ghost use Rattle.values.specs.Kinds.{kind_of};
ghost use Rattle.reply.specs.Lines.{line, number_line, kind_name, kind_text, asked_lines, found_lines};
ghost use Rattle.reply.specs.Putting.{Puts};
ghost use Rattle.reply.specs.Reply.{answer_of};

use roots::{RootRem, cbrt_rem, sqrt_rem};
use text::{Request, write_bytes, write_decimal};
use values::Kind;

fn put_text(out: &mut [u8], at: usize, name: &[u8], text: &[u8]) -> Option<usize>
    ensures { Puts out.old at (line name.now text.now) out.new result }
{
    let named = write_bytes(out, at, name)?;
    let said = write_bytes(out, named, text)?;
    write_bytes(out, said, b"\n")
}

fn put_number(out: &mut [u8], at: usize, name: &[u8], n: u64) -> Option<usize>
    ensures { Puts out.old at (number_line name.now n) out.new result }
{
    let named = write_bytes(out, at, name)?;
    let said = write_decimal(out, named, n)?;
    write_bytes(out, said, b"\n")
}

fn put_kind(out: &mut [u8], at: usize, kind: Kind) -> Option<usize>
    ensures { Puts out.old at (line kind_name (kind_text (kind_of kind))) out.new result }
{
    match kind {
        Kind::Square => put_text(out, at, b"kind=", b"square"),
        Kind::Cube => put_text(out, at, b"kind=", b"cube"),
    }
}

fn put_asked(out: &mut [u8], at: usize, asked: Request) -> Option<usize>
    ensures { Puts out.old at (asked_lines (kind_of asked.kind) u32 asked.value) out.new result }
{
    let width = put_number(out, at, b"width=", 32)?;
    let kind = put_kind(out, width, asked.kind)?;
    put_number(out, kind, b"value=", asked.value as u64)
}

fn put_found(out: &mut [u8], at: usize, found: RootRem<u32, u16>) -> Option<usize>
    ensures { Puts out.old at (found_lines found.root found.rest found.start found.steps) out.new result }
{
    let root = put_number(out, at, b"root=", found.root as u64)?;
    let rest = put_number(out, root, b"rest=", found.rest as u64)?;
    let start = put_number(out, rest, b"start=", found.start as u64)?;
    put_number(out, start, b"steps=", found.steps as u64)
}

fn found_of(asked: Request) -> RootRem<u32, u16>
    ensures { Full (kind_of asked.kind) u32 asked.value result.root result.rest result.start result.steps }
{
    match asked.kind {
        Kind::Square => sqrt_rem(asked.value),
        Kind::Cube => cbrt_rem(asked.value),
    }
}

// The seven lines of the root that is asked for, from the front.
pub(crate) fn put_answer(out: &mut [u8], asked: Request) -> Option<usize>
    ensures { Puts out.old 0 (answer_of (kind_of asked.kind) u32 asked.value) out.new result }
{
    let lines = put_asked(out, 0, asked)?;
    put_found(out, lines, found_of(asked))
}
