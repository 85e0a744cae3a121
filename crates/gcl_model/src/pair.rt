/// What is known, without a look-up, about where a word next occurs right after another: nowhere before `at`, and at `at` if `found`.
#[derive(Clone, Copy, Debug, PartialEq, Eq)]
pub struct Pair {
    pub at: u64,
    pub found: bool,
}
