// The power that a root undoes, and how far it is from one power to the next.
ghost use Rattle.std.specs.Prelude.{◌≡◌, ◌^◌, ◌<◌, ℕ, refl};
ghost use Rattle.defs.specs.Kinds.{Kind, square, cube, pow, degree};
ghost use Rattle.defs.specs.Parts.{gap, widened};

use crate::value::Value;
use crate::word::Word;

// A power, as a type that a call is generic over. Each asks that its answer fits the value's type.
pub trait Power {
    ghost kind: { Kind };

    ghost DEGREE: { ℕ };

    // How many factors it has.
    const DEGREE: u32;

    // The power of a root, in the type of its value: the Rust's `pow`.
    fn raised<N: Value>(root: N::Root) -> N
        requires { pow kind (N.Root.number root) < 2 ^ N.bits }
        ensures { N.number result ≡ pow kind (N.Root.number root) };

    // From the power of a root to that of the next.
    fn gap<N: Value>(root: N::Root) -> N
        requires { gap kind (N.Root.number root) < 2 ^ N.bits }
        ensures { N.number result ≡ gap kind (N.Root.number root) };

    // The gap that led to a root, widened to the gap from there on.
    fn widened<N: Value>(gap: N, root: N::Root) -> N
        requires { widened kind (N.number gap) (N.Root.number root) < 2 ^ N.bits }
        ensures { N.number result ≡ widened kind (N.number gap) (N.Root.number root) };

    ghost degree_law: { DEGREE ≡ degree kind };
}

pub struct Square;

pub struct Cube;

impl Power for Square {
    ghost kind = { square };

    ghost DEGREE = { 2 };

    const DEGREE: u32 = 2;

    fn raised<N: Value>(root: N::Root) -> N {
        N::of_root(root) * N::of_root(root)
    }

    fn gap<N: Value>(root: N::Root) -> N {
        N::of(2) * N::of_root(root) + N::of(1)
    }

    fn widened<N: Value>(gap: N, _root: N::Root) -> N {
        gap + N::of(2)
    }

    ghost degree_law = { refl };
}

impl Power for Cube {
    ghost kind = { cube };

    ghost DEGREE = { 3 };

    const DEGREE: u32 = 3;

    fn raised<N: Value>(root: N::Root) -> N {
        Square::raised::<N>(root) * N::of_root(root)
    }

    fn gap<N: Value>(root: N::Root) -> N {
        N::of(3) * (Square::raised::<N>(root) + N::of_root(root)) + N::of(1)
    }

    fn widened<N: Value>(gap: N, root: N::Root) -> N {
        gap + N::of(6) * N::of_root(root)
    }

    ghost degree_law = { refl };
}
