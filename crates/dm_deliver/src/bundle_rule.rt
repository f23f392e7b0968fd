//! What is asked of a bundle beside that it fits.
use crate::date_rule::DateRule;
use crate::hash_rule::HashRule;

/// What is asked of a bundle before it is taken.
#[derive(Clone, Copy, Debug, PartialEq, Eq)]
pub struct BundleRule {
    /// Of the hash with which it may end.
    pub hash: HashRule,
    /// Of the dates of its new patches.
    pub date: DateRule,
}
