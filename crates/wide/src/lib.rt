// Products of two words by their high half, and the doubling that stops at the top.
#![tactic(auto)]

ghost use Rattle.std.specs.Prelude.{◌≡◌, ◌*◌, min};
ghost use Rattle.defs.specs.Starts.Letters.{hi};

use values::Word;

// A word whose products are worked out whole, so that their high half is at hand.
pub trait WideMul: Word {
    // The high half of the product of two words.
    fn wmul_hi(self, other: Self) -> Self
        ensures { Self.number result ≡ hi Self.bits (Self.number self) (Self.number other) };
}

impl WideMul for u16 {
    fn wmul_hi(self, other: u16) -> u16 {
        (((self as u32) * (other as u32)) >> 16) as u16
    }
}

impl WideMul for u32 {
    fn wmul_hi(self, other: u32) -> u32 {
        (((self as u64) * (other as u64)) >> 32) as u32
    }
}

// Twice x, or the largest u16 where that does not fit.
pub fn saturating_double16(x: u16) -> u16
    ensures { result ≡ min (2 * x) 65535 }
{
    x.saturating_mul(2)
}
