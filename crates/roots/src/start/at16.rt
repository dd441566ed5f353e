// The starts at 16 bits: a table's guess of the reciprocal root, times the value. The contracts name the letters of defs.
ghost use Rattle.std.specs.Prelude.{◌≡◌, ◌*◌, ◌/◌, ◌^◌, ◌≤◌, ◌<◌};
ghost use Rattle.defs.specs.Starts.Cube16.{q, d};

use crate::start::Start;
use tables::guess;
use values::{Cube, Square};

// The bounds are the six numbers of the table of cells, each tried with a wrong one beside it.
impl Start<Square> for u16 {
    fn bound() -> u16 {
        0x4000
    }

    fn start(self) -> u8 {
        let r = guess::<Square>((self >> 9) as usize - 32);
        let s = (r * self as u32) >> 16;
        // one less, so that it is never above the root
        (s - 1) as u8
    }
}

impl Start<Cube> for u16 {
    fn bound() -> u16 {
        0x2000
    }

    fn start(self) -> u8 {
        let r = guess::<Cube>(place(self) as usize - 8);
        let c = (scaled_square(self, r) * self as u32) >> 24;
        // one less, so that it is never above the root
        (c - 1) as u8
    }
}

// q: where the table is entered, three bits further up where the top bit is set.
// By itself at each width: over the width it would take a bound and two shifts, and name the letter no more plainly.
fn place(n: u16) -> u16
    ensures { result ≡ q n }
{
    if n >= 0x8000 { n >> 12 } else { n >> 9 }
}

// r²/d: two bits less where the top bit is set, for the place in the table.
fn scaled_square(n: u16, r: u32) -> u32
    requires { r < 512 }
    ensures { result ≡ r * r / d n }
{
    if n >= 0x8000 {
        (r * r) >> 4
    } else {
        (r * r) >> 2
    }
}
