//! What a comparison of abstract words may give.

/// Which truth values a flag may have. One that may have neither stands for no run at all.
#[derive(Clone, Copy, Debug, PartialEq, Eq, Hash)]
pub struct Tri {
    pub may_true: bool,
    pub may_false: bool,
}
