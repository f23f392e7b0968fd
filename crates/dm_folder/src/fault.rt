//! Why a folder isn't read as a tree.
ghost use Rattle.std.specs.Prelude.{◌≡◌};
ghost use Rattle.dm_folder.specs.declared.fault.FolderFault.TheVariants.{NoMemory};

use dm_checkout::Place;
use dm_tree::PathFault;
use std::alloc::AllocError;
use std::fmt::{self, Display, Formatter, Write};
use std::io;

/// Why no tree may have what stands at a place.
#[derive(Clone, Copy, Debug, PartialEq, Eq)]
pub enum Why {
    /// No path may have its names.
    Path(PathFault),
    /// It is neither a directory nor a file.
    NotRegular,
    /// Its name isn't UTF-8, so that it can't be asked for.
    NotUtf8,
}

impl Display for Why {
    fn fmt<W: Write>(&self, f: &mut Formatter<W>) -> fmt::Result {
        match self {
            Why::Path(fault) => write!(f, "{fault}"),
            Why::NotRegular => f.write_str("neither a directory nor a file"),
            Why::NotUtf8 => f.write_str("a name isn't UTF-8"),
        }
    }
}

/// What no tree may have.
#[derive(Drop)]
pub struct Refused {
    pub place: Place,
    pub why: Why,
}

impl Display for Refused {
    fn fmt<W: Write>(&self, f: &mut Formatter<W>) -> fmt::Result {
        write!(f, "{}: {}", self.place, self.why)
    }
}

/// Why something can't be read.
#[derive(Drop)]
pub enum Trouble {
    /// The system can't read it.
    Unread(io::Error),
    /// It changed while it was read.
    Changed,
}

impl From<io::Error> for Trouble {
    fn from(error: io::Error) -> Trouble {
        Trouble::Unread(error)
    }
}

impl From<AllocError> for Trouble {
    fn from(error: AllocError) -> Trouble {
        Trouble::Unread(io::Error::from(error))
    }
}

impl Display for Trouble {
    fn fmt<W: Write>(&self, f: &mut Formatter<W>) -> fmt::Result {
        match self {
            Trouble::Unread(error) => write!(f, "{error}"),
            Trouble::Changed => f.write_str("it changed while it was read"),
        }
    }
}

/// Why a folder isn't read as a tree.
#[derive(Drop)]
pub enum FolderFault {
    /// No tree may have these: all of the folder. No file was read.
    Refused(Vec<Refused>),
    /// What stands at this place can't be read.
    Unread(Place, Trouble),
    /// The folder told of this place twice, or of no directory that has it.
    Misplaced(Place),
    /// Memory ran out.
    NoMemory,
}

impl From<AllocError> for FolderFault {
    ghost from_gives = { λ _ fault. fault ≡ NoMemory };

    fn from(_error: AllocError) -> FolderFault {
        FolderFault::NoMemory
    }
}

impl Display for FolderFault {
    fn fmt<W: Write>(&self, f: &mut Formatter<W>) -> fmt::Result {
        match self {
            FolderFault::Refused(_) => f.write_str("it has what no tree may have"),
            FolderFault::Unread(place, trouble) => write!(f, "cannot read {place}: {trouble}"),
            FolderFault::Misplaced(place) => write!(f, "cannot read {place}: it is listed twice"),
            FolderFault::NoMemory => f.write_str("out of memory"),
        }
    }
}
