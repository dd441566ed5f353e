// The fix-up: from a start at or below the root to the root by ones, with the remainder and the gap to the next power carried along.
ghost use Rattle.std.specs.Prelude.{◌≡◌, ◌≤◌};
ghost use Rattle.defs.specs.Kinds.{pow};
ghost use Rattle.defs.specs.Parts.{Fixed};

use crate::answer::RootRem;
use values::{Power, Value, Word};

pub(crate) fn fix_error<K: Power, N: Value>(n: N, start: N::Root) -> RootRem<N, N::Root>
    requires { pow K.kind (N.Root.number start) ≤ N.number n }
    ensures start { result.start ≡ start }
    ensures fixed { Fixed K.kind (N.number n) (N.Root.number start) (N.Root.number result.root) (N.number result.rest) (N.Root.number result.steps) }
{
    let mut root = start;
    let mut rest = n.fitted() - K::raised(start);
    let mut gap: N = K::gap(start);
    // It ends by the remainder and counts no index, so an iterator would be no plainer.
    while rest >= gap {
        root += N::Root::of(1);
        rest -= gap;
        gap = K::widened(gap, root);
    }
    RootRem {
        root,
        rest,
        start,
        steps: root - start,
    }
}
