//! How long a path may be.

/// The most names of a path.
pub const MOST_NAMES: usize = 32;

/// The most bytes of a name, as on Linux.
pub const MOST_NAME_BYTES: usize = 255;
