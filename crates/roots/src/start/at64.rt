// The starts at 64 bits: a table's guess of the reciprocal root, two Newton steps on it, and for squares one on the root.
// The contracts name the letters of defs. Each letter asks anew that n has its top bits: it has one caller, and a type for such a value
// would be longer than the line.
ghost use Rattle.std.specs.Prelude.{◌≡◌, ◌*◌, ◌/◌, ◌^◌, ◌≤◌, ◌<◌};
ghost use Rattle.defs.specs.Starts.Square64 as sq64;
ghost use Rattle.defs.specs.Starts.Cube64 as cb64;

use crate::start::Start;
use tables::guess;
use values::{Cube, Power, Square};
use wide::WideMul;

// The bounds are the six numbers of the table of cells, each tried with a wrong one beside it.
impl Start<Square> for u64 {
    fn bound() -> u64 {
        0x4000_0000_0000_0000
    }

    fn start(self) -> u32 {
        let r = rsqrt(self, first_rsqrt(self));
        let a = near_sqrt(self, r);
        let e = self - Square::raised::<u64>(a);
        a + ((e >> 32) as u32).wmul_hi(r)
    }
}

impl Start<Cube> for u64 {
    fn bound() -> u64 {
        0x2000_0000_0000_0000
    }

    fn start(self) -> u32 {
        let r = lowered_cbrt(self, rcbrt(self));
        r.wmul_hi(r.wmul_hi((self >> 32) as u32))
    }
}

// x: the guess after the first Newton step.
fn first_rsqrt(n: u64) -> u32
    requires { 2 ^ 62 ≤ n }
    ensures { result ≡ sq64.x n }
{
    let h = (n >> 32) as u32;
    let p = guess::<Square>((h >> 25) as usize - 32);
    3 * p * 0x20_0000 - h.wmul_hi(32 * (p * p * p))
}

// r, near 2^63 / √n: x after the second.
fn rsqrt(n: u64, x: u32) -> u32
    requires { (2 ^ 62 ≤ n) × (x ≡ sq64.x n) }
    ensures { result ≡ sq64.r n }
{
    let t = 0x3000_0000 - x.wmul_hi(x.wmul_hi((n >> 32) as u32));
    16 * x.wmul_hi(t)
}

// a: the product of r and the value, lowered so that it is never above the root.
fn near_sqrt(n: u64, r: u32) -> u32
    requires { (2 ^ 62 ≤ n) × (r ≡ sq64.r n) }
    ensures { result ≡ sq64.a n }
{
    2 * r.wmul_hi((n >> 32) as u32) - 10
}

// g: the value's top bits, three bits less of them from 2^63 on.
// By itself at each width: over the width it would take a bound and two shifts, and name the letter no more plainly.
fn place_cbrt(n: u64) -> u32
    ensures { result ≡ cb64.g n }
{
    if n >= 0x8000_0000_0000_0000 {
        (n >> 35) as u32
    } else {
        (n >> 32) as u32
    }
}

// x: the guess after the first Newton step.
fn first_rcbrt(n: u64, g: u32) -> u32
    requires { (2 ^ 61 ≤ n) × (g ≡ cb64.g n) }
    ensures { result ≡ cb64.x n }
{
    let p = guess::<Cube>((g >> 25) as usize - 8);
    p * ((0x200_0000 - g.wmul_hi(p * p * p)) / 3)
}

// y, near 2^48 / ∛n as g has it: x after the second.
fn rcbrt(n: u64) -> u32
    requires { 2 ^ 61 ≤ n }
    ensures { result ≡ cb64.y n }
{
    let g = place_cbrt(n);
    let x = first_rcbrt(n, g);
    let t = 0x4000_0000 - x.wmul_hi(x.wmul_hi(x.wmul_hi(g)));
    x.wmul_hi(t) / 3
}

// r: y, halved for an eighth of the value, and one less so that the start is never above the root.
// By itself at each width: over the width it would take a bound and a constant, and name the letter no more plainly.
fn lowered_cbrt(n: u64, y: u32) -> u32
    requires { (2 ^ 61 ≤ n) × (y ≡ cb64.y n) }
    ensures { result ≡ cb64.r n }
{
    if n >= 0x8000_0000_0000_0000 {
        y / 2 - 1
    } else {
        y - 1
    }
}
