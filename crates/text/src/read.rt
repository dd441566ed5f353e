// A decimal number out of a text.
ghost use Rattle.std.specs.Prelude.{◌≡◌};
ghost use Rattle.text.specs.Reading.{read_of, next_of};

// The value with one more digit behind it, if that is a digit and the sum is at most `most`.
#[tactic(auto, using(crate::proofs::Reading::no_digit, crate::proofs::Reading::digit_past, crate::proofs::Reading::digit_taken))]
fn next_value(value: u64, byte: u8, most: u64) -> Option<u64>
    ensures { result ≡ next_of value byte most }
{
    if !byte.is_ascii_digit() {
        return None;
    }
    let next = value.checked_mul(10)?.checked_add((byte - b'0') as u64)?;
    (next <= most).then_some(next)
}

// The number that `s` writes, if it is 1 to `most_digits` digits whose value is at most `most`.
pub fn read_decimal(s: &[u8], most_digits: usize, most: u64) -> Option<u64>
    ensures { result ≡ read_of s.now most_digits most }
{
    if s.is_empty() || s.len() > most_digits {
        return None;
    }
    let mut value = 0;
    for byte in s {
        value = next_value(value, *byte, most)?;
    }
    Some(value)
}
