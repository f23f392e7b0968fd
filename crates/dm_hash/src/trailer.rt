//! What the trailer of a bundle says.

/// What stands behind the context of a bundle says of its new patches.
#[derive(Clone, Copy, Debug, PartialEq, Eq)]
pub enum Trailer {
    /// No hash stands there.
    NoHash,
    /// The hash of the new patches stands there, as darcs-1 or as darcs-2 keeps them.
    Right,
    /// Another hash stands there, or none where one is announced.
    Wrong,
}
