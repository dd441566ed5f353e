// Full calls: a value with its top bits is answered from its own start, any other is brought there and its root shifted back.
ghost use Rattle.std.specs.Prelude.{◌≡◌, ◌<◌};
ghost use Rattle.defs.specs.Kinds.{square, cube};
ghost use Rattle.defs.specs.Cells.{bound};
ghost use Rattle.roots.specs.Answers.{FullAnswer};

use crate::answer::RootRem;
use crate::fix::fix_error;
use crate::shift::back_of;
use crate::start::Start;
use values::{Cube, Power, Square, Value, Word};

// The top bits are tested first, and the other values have a function with one caller, so that the compiler inlines it.
fn root_rem<K: Power, N: Start<K>>(n: N) -> RootRem<N, N::Root>
    ensures { FullAnswer K.kind N.width N.number N.Root.number n result }
{
    let n = n.fitted();
    if n >= N::bound() {
        return fix_error::<K, N>(n, n.start());
    }
    if n == N::of(0) {
        let zero = N::Root::of(0);
        return RootRem {
            root: zero,
            rest: n,
            start: zero,
            steps: zero,
        };
    }
    shifted_root_rem::<K, N>(n)
}

// The normalised root is shifted back, and the rest worked out anew: shifted back, it would be another number. It asks what `back_of` asks.
fn shifted_root_rem<K: Power, N: Start<K>>(n: N) -> RootRem<N, N::Root>
    requires some { 0 < N.number n }
    requires more_than_a_byte { 0 < bound K.kind N.width }
    ensures { FullAnswer K.kind N.width N.number N.Root.number n result }
{
    let back = back_of::<K, N>(n);
    let top = n.fitted() << (K::DEGREE * back);
    let fixed = fix_error::<K, N>(top, top.start());
    let root = fixed.root >> back;
    RootRem {
        root,
        rest: n - K::raised(root),
        ..fixed
    }
}

pub fn sqrt_rem<N: Start<Square>>(n: N) -> RootRem<N, N::Root>
    ensures { FullAnswer square N.width N.number N.Root.number n result }
{
    root_rem::<Square, N>(n)
}

pub fn cbrt_rem<N: Start<Cube>>(n: N) -> RootRem<N, N::Root>
    ensures { FullAnswer cube N.width N.number N.Root.number n result }
{
    root_rem::<Cube, N>(n)
}
