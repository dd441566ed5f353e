// The calls that the list is held against, over the value's type.
use crate::list::Width;
use refusals::Refusal;
use roots::{RootRem, Start};
use values::{Cube, Kind, Square, Word};

// What the calls on a value answer: the full call, the root alone, whether the normalised call answers or refuses as it
// should, and whether the value is rebuilt from its root and rest.
#[derive(Clone, Copy)]
pub(crate) struct Found {
    pub(crate) full: RootRem<u64, u64>,
    pub(crate) alone: u64,
    pub(crate) normalised: bool,
    pub(crate) rebuilt: bool,
}

pub(crate) fn call(kind: Kind, width: Width, value: u64) -> Found {
    match width {
        Width::U8 => all_calls::<u8>(kind, value),
        Width::U16 => all_calls::<u16>(kind, value),
        Width::U32 => all_calls::<u32>(kind, value),
        Width::U64 => all_calls::<u64>(kind, value),
    }
}

// The calls of the two kinds have names of their own: a function over the kind would have to be given each.
fn all_calls<N: Start<Square> + Start<Cube>>(kind: Kind, value: u64) -> Found {
    let n = N::narrowed(value & N::top());
    match kind {
        Kind::Square => {
            let full = roots::sqrt_rem(n);
            Found {
                full: wide::<N>(full),
                alone: roots::sqrt(n).wide(),
                normalised: agrees::<N>(kind, n, full, roots::normalized_sqrt_rem(n)),
                rebuilt: rebuild::square::<N>(full.root, full.rest) == Ok(n),
            }
        }
        Kind::Cube => {
            let full = roots::cbrt_rem(n);
            Found {
                full: wide::<N>(full),
                alone: roots::cbrt(n).wide(),
                normalised: agrees::<N>(kind, n, full, roots::normalized_cbrt_rem(n)),
                rebuilt: rebuild::cube::<N>(full.root, full.rest) == Ok(n),
            }
        }
    }
}

// Each word at 64 bits.
fn wide<N: Start<Square>>(a: RootRem<N, N::Root>) -> RootRem<u64, u64> {
    RootRem {
        root: a.root.wide(),
        rest: a.rest.wide(),
        start: a.start.wide(),
        steps: a.steps.wide(),
    }
}

// The normalised call refuses a value without its top bits, and any other answers as the full call does. Each u8 counts as
// one that has them.
fn agrees<N: Start<Square>>(
    kind: Kind,
    n: N,
    full: RootRem<N, N::Root>,
    normalised: Result<RootRem<N, N::Root>, Refusal>,
) -> bool {
    let topped = N::top() == 255 || n.wide() > N::top() >> kind.degree();
    match normalised {
        Ok(answer) => topped && answer == full,
        Err(refusal) => !topped && refusal == Refusal::NotNormalised,
    }
}
