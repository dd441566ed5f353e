// Normalised calls: a value without its top bits is refused, any other is answered from its start.
ghost use Rattle.defs.specs.Kinds.{square, cube};
ghost use Rattle.roots.specs.Answers.{NormalisedResult};

use crate::answer::RootRem;
use crate::fix::fix_error;
use crate::start::Start;
use refusals::Refusal;
use values::{Cube, Power, Square, Value, Word};

fn normalized_root_rem<K: Power, N: Start<K>>(n: N) -> Result<RootRem<N, N::Root>, Refusal>
    ensures { NormalisedResult K.kind N.width N.number N.Root.number n result }
{
    let n = n.fitted();
    if n < N::bound() {
        return Err(Refusal::NotNormalised);
    }
    Ok(fix_error::<K, N>(n, n.start()))
}

pub fn normalized_sqrt_rem<N: Start<Square>>(n: N) -> Result<RootRem<N, N::Root>, Refusal>
    ensures { NormalisedResult square N.width N.number N.Root.number n result }
{
    normalized_root_rem::<Square, N>(n)
}

pub fn normalized_cbrt_rem<N: Start<Cube>>(n: N) -> Result<RootRem<N, N::Root>, Refusal>
    ensures { NormalisedResult cube N.width N.number N.Root.number n result }
{
    normalized_root_rem::<Cube, N>(n)
}
