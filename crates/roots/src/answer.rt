// What a call answers.

// Root and rest of a value, and where its fix-up started and how many steps it took.
#[derive(Clone, Copy, Debug, PartialEq, Eq)]
pub struct RootRem<N, R> {
    pub root: R,
    pub rest: N,
    pub start: R,
    pub steps: R,
}
