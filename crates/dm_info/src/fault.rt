//! Why parts or a text are not those of a patch info.

ghost use Rattle.std.specs.Prelude.{◌≡◌};
ghost use Rattle.dm_info.specs.declared.fault.InfoFault.TheVariants as parts;
ghost use Rattle.dm_info.specs.declared.fault.InfoReadFault.TheVariants.{NoMemory};

use std::alloc::{AllocError, AllocFailed};
use thiserror::Error;

/// Why parts are those of no patch info, in the order in which they are reported. The first four take no memory.
#[derive(Clone, Copy, Debug, PartialEq, Eq, Error)]
pub enum InfoFault {
    /// The name holds a newline.
    #[error("the name holds a newline")]
    BadName,
    /// The author holds a star or a newline.
    #[error("the author holds a star or a newline")]
    BadAuthor,
    /// The date holds a closing bracket or a newline.
    #[error("the date holds a closing bracket or a newline")]
    BadDate,
    /// A line of the log holds a newline.
    #[error("a line of the log holds a newline")]
    BadLog,
    /// An allocation failed.
    #[error("no memory")]
    NoMemory,
}

impl From<AllocError> for InfoFault {
    ghost from_gives = { λ _ e. e ≡ parts.NoMemory };

    fn from(_error: AllocError) -> InfoFault {
        InfoFault::NoMemory
    }
}

/// Why no patch info could be read at a place.
#[derive(Clone, Copy, Debug, PartialEq, Eq, Error)]
pub enum InfoReadFault {
    /// No patch info stands there, and no inverted one.
    #[error("no patch info stands there")]
    BadInfo,
    /// The patch info of an inverted patch stands there: `*-` in place of `**`.
    #[error("the patch info of an inverted patch stands there")]
    Inverted,
    /// An allocation failed.
    #[error("no memory")]
    NoMemory,
}

impl From<AllocError> for InfoReadFault {
    ghost from_gives = { λ _ e. e ≡ NoMemory };

    fn from(_error: AllocError) -> InfoReadFault {
        InfoReadFault::NoMemory
    }
}

impl<T: Drop> From<AllocFailed<T>> for InfoReadFault {
    ghost from_gives = { λ _ e. e ≡ NoMemory };

    fn from(_error: AllocFailed<T>) -> InfoReadFault {
        InfoReadFault::NoMemory
    }
}
