// The starts at 32 bits: a table's guess of the reciprocal root, one Newton step on it, and for squares one on the root.
// The contracts name the letters of defs. Each letter asks anew that n has its top bits: it has one caller, and a type for such a value
// would be longer than the line.
ghost use Rattle.std.specs.Prelude.{◌≡◌, ◌*◌, ◌/◌, ◌^◌, ◌≤◌, ◌<◌};
ghost use Rattle.defs.specs.Starts.Square32 as sq32;
ghost use Rattle.defs.specs.Starts.Cube32 as cb32;

use crate::start::Start;
use tables::guess;
use values::{Cube, Power, Square};
use wide::{WideMul, saturating_double16};

// The bounds are the six numbers of the table of cells, each tried with a wrong one beside it.
impl Start<Square> for u32 {
    fn bound() -> u32 {
        0x4000_0000
    }

    fn start(self) -> u16 {
        let r = rsqrt(self);
        let a = near_sqrt(self, r);
        let e = self - Square::raised::<u32>(a);
        a + ((e >> 16) as u16).wmul_hi(r)
    }
}

impl Start<Cube> for u32 {
    fn bound() -> u32 {
        0x2000_0000
    }

    fn start(self) -> u16 {
        let r = lowered_cbrt(self, rcbrt(self));
        r.wmul_hi(r.wmul_hi((self >> 16) as u16)) / 4
    }
}

// r, near 2^31 / √n.
fn rsqrt(n: u32) -> u16
    requires { 2 ^ 30 ≤ n }
    ensures { result ≡ sq32.r n }
{
    let h = n >> 16;
    let p = guess::<Square>((h >> 9) as usize - 32);
    let step = (n.wmul_hi(p * p * p) >> 11) as u16;
    2 * (96 * p as u16 - step)
}

// a: the product of r and the value, doubled up to the top, and lowered so that it is never above the root.
fn near_sqrt(n: u32, r: u16) -> u16
    requires { (2 ^ 30 ≤ n) × (r ≡ sq32.r n) }
    ensures { result ≡ sq32.a n }
{
    saturating_double16(r.wmul_hi((n >> 16) as u16)) - 4
}

// g: the value's top bits, three bits less of them from 2^30 on.
// By itself at each width: over the width it would take a bound and two shifts, and name the letter no more plainly.
fn place_cbrt(n: u32) -> u16
    ensures { result ≡ cb32.g n }
{
    if n >= 0x4000_0000 {
        (n >> 19) as u16
    } else {
        (n >> 16) as u16
    }
}

// y, near 2^25 / ∛n as g has it.
fn rcbrt(n: u32) -> u16
    requires { 2 ^ 29 ≤ n }
    ensures { result ≡ cb32.y n }
{
    let g = place_cbrt(n);
    let p = guess::<Cube>((g >> 8) as usize - 8);
    let ppp = (p * p * p) >> 11;
    let t = 8192 - g.wmul_hi(ppp as u16);
    (p * t as u32 / 3 / 16) as u16
}

// r: y, halved for an eighth of the value, and ten less so that the start is never above the root.
// By itself at each width: over the width it would take a bound and a constant, and name the letter no more plainly.
fn lowered_cbrt(n: u32, y: u16) -> u16
    requires { (2 ^ 29 ≤ n) × (y ≡ cb32.y n) }
    ensures { result ≡ cb32.r n }
{
    if n >= 0x4000_0000 { y / 2 - 10 } else { y - 10 }
}
