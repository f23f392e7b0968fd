//! Why a new patch is skipped.

/// What stops a new patch that is skipped.
#[derive(Clone, Copy, PartialEq, Eq, Debug)]
pub enum Stopper {
    /// The held patch of this place in the repository can't be merged with it.
    Held(usize),
    /// The skipped new patch of this place in the bundle, which it can't pass.
    Skipped(usize),
}

/// A new patch that is skipped, and why.
#[derive(Clone, Copy, PartialEq, Eq, Debug)]
pub struct Skip {
    /// The place of the patch among the bundle's new patches.
    pub place: usize,
    /// What stops it.
    pub by: Stopper,
}
