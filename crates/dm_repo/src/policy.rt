//! What is done with patches that conflict.

/// What is done where a patch to merge conflicts with one that is held.
#[derive(Clone, Copy, PartialEq, Eq, Debug)]
pub enum Policy {
    /// The bundle is refused (`darcs apply --no-allow-conflicts`).
    Refuse,
    /// The patch is skipped, and so is each that doesn't commute with what was skipped (`darcs apply --skip-conflicts`).
    Skip,
}
