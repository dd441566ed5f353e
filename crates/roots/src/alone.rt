// Roots alone, by a start and a fix-up on the value brought to its top bits.
ghost use Rattle.std.specs.Prelude.{◌≡◌, ◌≤◌, ◌<◌};
ghost use Rattle.defs.specs.Kinds.{square, cube};
ghost use Rattle.defs.specs.Cells.{bound};
ghost use Rattle.defs.specs.Roots.{IsRoot};

use crate::fix::fix_error;
use crate::shift::back_of;
use crate::start::Start;
use values::{Cube, Power, Square, Value, Word};

pub fn sqrt<N: Start<Square>>(n: N) -> N::Root
    ensures { IsRoot square (N.number n) (N.Root.number result) }
{
    // Where each value has its top bits, which is known when the call is compiled.
    if N::bound() == N::of(0) {
        return own_root::<Square, N>(n);
    }
    if n == N::of(0) {
        return N::Root::of(0);
    }
    shifted_root::<Square, N>(n)
}

// Not one function with `sqrt` over the power: top bits first, as in the full call. For squares the test costs more time than it saves, for cubes less.
pub fn cbrt<N: Start<Cube>>(n: N) -> N::Root
    ensures { IsRoot cube (N.number n) (N.Root.number result) }
{
    if n >= N::bound() {
        return own_root::<Cube, N>(n);
    }
    if n == N::of(0) {
        return N::Root::of(0);
    }
    shifted_root::<Cube, N>(n)
}

fn own_root<K: Power, N: Start<K>>(n: N) -> N::Root
    requires { bound K.kind N.width ≤ N.number n }
    ensures { IsRoot K.kind (N.number n) (N.Root.number result) }
{
    fix_error::<K, N>(n, n.start()).root
}

// It asks what `back_of` asks.
fn shifted_root<K: Power, N: Start<K>>(n: N) -> N::Root
    requires some { 0 < N.number n }
    requires more_than_a_byte { 0 < bound K.kind N.width }
    ensures { IsRoot K.kind (N.number n) (N.Root.number result) }
{
    let back = back_of::<K, N>(n);
    let top = n.fitted() << (K::DEGREE * back);
    fix_error::<K, N>(top, top.start()).root >> back
}
