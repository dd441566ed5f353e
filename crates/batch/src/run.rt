// The inner run: the roots of a whole slice of values, up to the first that the budget does not pay for.
ghost use Rattle.std.specs.Prelude.{◌≡◌, length};
ghost use Rattle.batch.specs.Batch.{Ran};

use roots::sqrt_rem;

// How many values were done, and the steps that they cost.
#[derive(Clone, Copy, Debug, PartialEq, Eq)]
pub struct Finished {
    pub done: usize,
    pub spent: u64,
}

pub(crate) fn run_part(values: &[u32], roots: &mut [u16], budget: u64) -> Finished
    requires { length values.now ≡ length roots.old }
    ensures { Ran values.now roots.old 0 budget result.done result.spent roots.new }
{
    let mut spent: u64 = 0;
    for (done, value) in values.iter().enumerate() {
        let answer = sqrt_rem(*value);
        let cost = answer.steps as u64;
        let left = budget - spent;
        // The value that does not fit is neither charged nor written.
        if left < cost {
            return Finished { done, spent };
        }
        // By place: of a slice that is lent to `iter_mut`, a proof keeps the length alone.
        roots[done] = answer.root;
        spent += cost;
    }
    Finished {
        done: values.len(),
        spent,
    }
}
