// Why a call refuses, for every call that can.
#![tactic(auto)]

ghost use Rattle.std.specs.Prelude.{◌≡◌};
ghost use Rattle.refusals.specs.Refusal.{number_of};

// Each with the number that the C interface gives it, where 0 is no refusal.
#[derive(Clone, Copy, Debug, PartialEq, Eq)]
pub enum Refusal {
    NotNormalised = 1,
    FirstBeyond = 2,
    CountBeyond = 3,
    LengthsDiffer = 4,
    RestBeyond = 5,
    ValueBeyond = 6,
}

impl Refusal {
    // The number of a refusal, from 1 to 6.
    pub fn number(self) -> u8
        ensures { result ≡ number_of self }
    {
        self as u8
    }
}
