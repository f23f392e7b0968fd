//! Why a path, a line or a change of a tree is refused.
ghost use Rattle.std.specs.Prelude.{◌≡◌};
ghost use Rattle.dm_tree.specs.declared.fault.TreeFault.TheVariants.{NoMemory};
ghost use Rattle.dm_tree.specs.declared.fault.PathFault.TheVariants as path;
ghost use Rattle.dm_tree.specs.declared.fault.LineFault.TheVariants as line;

use std::alloc::AllocError;
use thiserror::Error;

/// Why a change of a tree is refused. Each call says which of these it returns, and in which
/// order.
#[derive(Clone, Copy, Debug, PartialEq, Eq, Error)]
pub enum TreeFault {
    /// The parent of the new path is not a directory that is there.
    #[error("the parent is not a directory that is there")]
    NoParent,
    /// Something stands at the new path.
    #[error("something stands at the path")]
    Occupied,
    /// Nothing stands at the path.
    #[error("nothing stands at the path")]
    Missing,
    /// A directory stands at the path.
    #[error("a directory stands at the path")]
    NotFile,
    /// A file stands at the path.
    #[error("a file stands at the path")]
    NotDir,
    /// The directory holds something, or the file is not one empty line.
    #[error("the directory holds something, or the file is not empty")]
    NotEmpty,
    /// The new path is the old one, or inside it.
    #[error("the new path is the old one, or inside it")]
    IntoItself,
    /// The line is 0, or the old lines would reach past the end of the file.
    #[error("the lines reach past the end of the file, or begin at line 0")]
    LineRange,
    /// The lines that stand there are not the old lines.
    #[error("the lines that stand there are not the old lines")]
    OldDiffers,
    /// No line would be left in the file.
    #[error("no line would be left in the file")]
    NoLines,
    /// The new token of a replace stands in the file already, and is not the old one.
    #[error("the new token stands in the file already")]
    TokenThere,
    /// A file in which tokens are replaced has more than 1,048,576 bytes, or would have.
    #[error("the file has more than 1048576 bytes, or would have")]
    TooLarge,
    /// A path of more than 32 names would arise.
    #[error("a path would have more than 32 names")]
    TooDeep,
    /// The allocator refused to give memory.
    #[error("no memory")]
    NoMemory,
}

impl From<AllocError> for TreeFault {
    ghost from_gives = { λ _ e. e ≡ NoMemory };

    fn from(_e: AllocError) -> TreeFault {
        TreeFault::NoMemory
    }
}

/// Why names make no path.
#[derive(Clone, Copy, Debug, PartialEq, Eq, Error)]
pub enum PathFault {
    /// There is no name.
    #[error("the path has no name")]
    Empty,
    /// A name is empty, `.`, `..` or `_darcs`, or holds `/` or a zero byte.
    #[error("a name is empty, `.`, `..` or `_darcs`, or holds `/` or a zero byte")]
    BadName,
    /// There are more than 32 names.
    #[error("the path has more than 32 names")]
    TooDeep,
    /// A name has more than 255 bytes.
    #[error("a name has more than 255 bytes")]
    TooLong,
    /// The allocator refused to give memory.
    #[error("no memory")]
    NoMemory,
}

impl From<AllocError> for PathFault {
    ghost from_gives = { λ _ e. e ≡ path.NoMemory };

    fn from(_e: AllocError) -> PathFault {
        PathFault::NoMemory
    }
}

/// Why a line is refused.
#[derive(Clone, Copy, Debug, PartialEq, Eq, Error)]
pub enum LineFault {
    /// The line holds a newline byte.
    #[error("the line holds a newline")]
    Newline,
    /// The allocator refused to give memory.
    #[error("no memory")]
    NoMemory,
}

impl From<AllocError> for LineFault {
    ghost from_gives = { λ _ e. e ≡ line.NoMemory };

    fn from(_e: AllocError) -> LineFault {
        LineFault::NoMemory
    }
}
