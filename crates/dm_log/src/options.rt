//! Which entries of a log are shown, and how.

/// Which entries of a log are shown, in which order, and how much of each.
#[derive(Clone, Copy, Debug, PartialEq, Eq)]
pub struct LogOptions {
    /// The newest so many; without a number all of them.
    pub last: Option<usize>,
    /// The newest first.
    pub reverse: bool,
    /// The text of each patch too, line by line, each behind four spaces.
    pub verbose: bool,
    /// The place of each patch before its entry, counted from 1, the oldest.
    pub places: bool,
}
