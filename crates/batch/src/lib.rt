// Square roots of a part of a slice of u32 values, under a budget of fix-up steps.
#![tactic(auto)]

mod run;

ghost use Rattle.refusals.specs.Refusal.{number_in};
ghost use Rattle.batch.specs.Batch.{Batched};
ghost use Rattle.batch.specs.Outcome.{finished_in};

pub use crate::run::Finished;
use crate::run::run_part;
use refusals::Refusal;

// The roots of `count` values from `first` on, written to the same places of `roots`, as far as the budget goes.
pub fn sqrt_batch(
    values: &[u32],
    roots: &mut [u16],
    first: usize,
    count: usize,
    budget: u64,
) -> Result<Finished, Refusal>
    ensures { let ran = finished_in result in
        Batched values.now roots.old first count budget (number_in result) ran.done ran.spent roots.new }
{
    // The first of the three refusals that applies is given.
    let rest = values.get(first..).ok_or(Refusal::FirstBeyond)?;
    let part = rest.get(..count).ok_or(Refusal::CountBeyond)?;
    if values.len() != roots.len() {
        return Err(Refusal::LengthsDiffer);
    }
    // The run is lent the two parts alone, so no other place can change.
    Ok(run_part(part, &mut roots[first..first + count], budget))
}
