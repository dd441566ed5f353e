// Roots of a u8, u16, u32 or u64: every call over the value's type and, inside, over the power that the root undoes.
#![tactic(auto)]

mod alone;
mod answer;
mod fix;
mod full;
mod normalized;
mod shift;
mod start;

pub use alone::{cbrt, sqrt};
pub use answer::RootRem;
pub use full::{cbrt_rem, sqrt_rem};
pub use normalized::{normalized_cbrt_rem, normalized_sqrt_rem};
pub use start::Start;
