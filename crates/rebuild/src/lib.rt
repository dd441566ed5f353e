// The value that a root and its remainder come from, at each width and of each kind. A pair that is no root's answer is
// refused: first where the remainder is above what the root can leave, then where the value is above the width's maximum.
// Everything is worked out at 64 bits, whatever the root's own width.
#![tactic(auto)]

ghost use Rattle.std.specs.Prelude.{◌≡◌, ◌<◌, ◌≤◌, ◌^◌};
ghost use Rattle.defs.specs.Kinds.{square, cube, pow};
ghost use Rattle.defs.specs.Rebuild.{rest_limit, Rebuilt};
ghost use Rattle.refusals.specs.Refusal.{number_in, part_in};
ghost use Rattle.rebuild.specs.Within.{Within};

use refusals::Refusal;
use values::{Value, Word};

fn within(power: u64, limit: u64, rest: u64, top: u64) -> Result<u64, Refusal>
    ensures { Within power limit rest top (number_in result) (part_in (λ value. value) result) }
{
    if rest > limit {
        return Err(Refusal::RestBeyond);
    }
    match power.checked_add(rest) {
        Some(value) if value <= top => Ok(value),
        _ => Err(Refusal::ValueBeyond),
    }
}

fn square_within(root: u64, rest: u64, top: u64) -> Result<u64, Refusal>
    requires { root < 2 ^ 32 }
    ensures { Within (pow square root) (rest_limit square root) rest top (number_in result) (part_in (λ value. value) result) }
{
    within(root * root, 2 * root, rest, top)
}

fn cube_within(root: u64, rest: u64, top: u64) -> Result<u64, Refusal>
    requires { root < 2 ^ 32 }
    ensures { Within (pow cube root) (rest_limit cube root) rest top (number_in result) (part_in (λ value. value) result) }
{
    let next = root * root + root;
    // A root whose cube is above every u64. Its limit may pass 64 bits too, and then no remainder is above it.
    if root > 2642245 {
        return Err(if rest > next.saturating_mul(3) {
            Refusal::RestBeyond
        } else {
            Refusal::ValueBeyond
        });
    }
    within(root * root * root, 3 * next, rest, top)
}

pub fn square<N: Value>(root: N::Root, rest: N) -> Result<N, Refusal>
    ensures { Rebuilt square N.width (N.Root.number root) (N.number rest) (number_in result) (part_in N.number result) }
{
    let value = square_within(root.wide(), rest.wide(), N::top())?;
    Ok(N::narrowed(value))
}

pub fn cube<N: Value>(root: N::Root, rest: N) -> Result<N, Refusal>
    ensures { Rebuilt cube N.width (N.Root.number root) (N.number rest) (number_in result) (part_in N.number result) }
{
    let value = cube_within(root.wide(), rest.wide(), N::top())?;
    Ok(N::narrowed(value))
}
