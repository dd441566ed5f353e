// The batch, on a pointer and a length for each slice: refusals 2, 3 and 4.
ghost use Rattle.batch.specs.Batch.{Batched};
ghost use Rattle.batch.specs.Outcome.{InNumbers};

use batch::Finished;
use refusals::Refusal;

// What C is given: it has no `Result`. `refusal` is 0, or a refusal's number with zeros beside it.
#[repr(C)]
#[derive(Clone, Copy)]
pub struct BatchAnswer {
    pub refusal: u8,
    pub done: usize,
    pub spent: u64,
}

impl From<Result<Finished, Refusal>> for BatchAnswer {
    ghost from_gives = { λ outcome answer. InNumbers outcome answer.refusal answer.done answer.spent };

    fn from(outcome: Result<Finished, Refusal>) -> BatchAnswer {
        match outcome {
            Ok(Finished { done, spent }) => BatchAnswer {
                refusal: 0,
                done,
                spent,
            },
            Err(refusal) => BatchAnswer {
                refusal: refusal.number(),
                done: 0,
                spent: 0,
            },
        }
    }
}

#[unsafe(no_mangle)]
pub extern "C" fn fregnaul_sqrt_batch_u32(
    values: &[u32],
    roots: &mut [u16],
    first: usize,
    count: usize,
    budget: u64,
) -> BatchAnswer
    ensures { Batched values.now roots.old first count budget result.refusal result.done result.spent roots.new }
{
    batch::sqrt_batch(values, roots, first, count, budget).into()
}
