// The start at 8 bits, for every power: the search begins at 0, whatever the value is.
use crate::start::Start;
use values::Power;

impl<K: Power> Start<K> for u8 {
    fn bound() -> u8 {
        0
    }

    #[tactic(auto, using(laws::proofs::Bills::starts_8))]
    fn start(self) -> u8 {
        0
    }
}
