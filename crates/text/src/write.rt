// Bytes and decimal numbers into a lent slice.
ghost use Rattle.std.specs.Prelude.{◌≡◌, ◌+◌, ◌≤◌, ◌<◌, length, drop};
ghost use Rattle.text.specs.Decimal.{text_of};
ghost use Rattle.text.specs.Writing.{Wrote};

// `out` and `at` stay two parameters, as the promises name them and callers hand them on.
// Puts the bytes into `out` from `at` on and answers the place behind them; `None` where they don't fit, and `out` is as it was.
#[tactic(auto, using(crate::proofs::Writing::wrote_none, crate::proofs::Writing::wrote_part))]
pub fn write_bytes(out: &mut [u8], at: usize, bytes: &[u8]) -> Option<usize>
    ensures { Wrote out.old at bytes.now out.new result }
{
    let end = at.checked_add(bytes.len())?;
    // tested here: behind a `get_mut(at..end)?` a proof knows the length of `out` and not what it holds
    if end > out.len() {
        return None;
    }
    out[at..end].copy_from_slice(bytes);
    Some(end)
}

fn digit(n: u64) -> u8
    requires { n < 10 }
    ensures { result ≡ 48 + n }
{
    b'0' + n as u8
}

// Puts the digits of n at the end of `text`, which holds any u64, last digit first, and answers where they begin.
// By hand and not by `Display`: the edit spelled_by_hundreds is of this loop, and without a heap no contract says what `write!` wrote.
fn spell(n: u64, text: &mut [u8; 20]) -> usize
    ensures { (result ≤ 20) × (drop result text.new ≡ text_of n) }
{
    let mut from = text.len();
    let mut rest = n;
    loop {
        from -= 1;
        text[from] = digit(rest % 10);
        rest /= 10;
        if rest == 0 {
            return from;
        }
    }
}

// Puts the digits of n into `out` from `at` on, as `write_bytes` puts bytes.
pub fn write_decimal(out: &mut [u8], at: usize, n: u64) -> Option<usize>
    ensures { Wrote out.old at (text_of n) out.new result }
{
    let mut text = [0; 20];
    let from = spell(n, &mut text);
    write_bytes(out, at, &text[from..])
}
