//! Why a tree was not written.
ghost use Rattle.std.specs.Prelude.{◌≡◌};
ghost use Rattle.dm_checkout.specs.declared.fault.CheckoutFault.TheVariants.{NoMemory};

use dm_quoted::Quoted;
use std::alloc::AllocError;
use std::fmt::{self, Display, Formatter, Write};
use std::io;

/// A path as it is shown: in quotes, with what doesn't print escaped, and what is no UTF-8 too.
#[derive(Drop)]
pub struct Place {
    /// The bytes of the path.
    pub bytes: Vec<u8>,
}

impl Display for Place {
    fn fmt<W: Write>(&self, f: &mut Formatter<W>) -> fmt::Result {
        write!(f, "{}", Quoted { text: &self.bytes })
    }
}

/// Why a path isn't written by default.
#[derive(Clone, Copy, Debug, PartialEq, Eq)]
pub enum Why {
    /// One of its names is one that another program obeys.
    Obeyed,
    /// It is the `HEAD` of what git takes for a repository.
    Repository,
}

/// What isn't written by default.
#[derive(Drop)]
pub struct Refused {
    pub place: Place,
    pub why: Why,
}

impl Display for Refused {
    fn fmt<W: Write>(&self, f: &mut Formatter<W>) -> fmt::Result {
        match self.why {
            Why::Obeyed => write!(f, "{}", self.place),
            Why::Repository => {
                write!(f, "{}: git takes its folder for a repository", self.place)
            }
        }
    }
}

/// Why a folder can't be taken for a checkout.
#[derive(Drop)]
pub enum FolderFault {
    /// Its path has something else than a folder, as a file or a symbolic link.
    NotFolder,
    /// It has something in it.
    NotEmpty,
    /// It can't be read or made.
    Unusable(io::Error),
}

impl Display for FolderFault {
    fn fmt<W: Write>(&self, f: &mut Formatter<W>) -> fmt::Result {
        match self {
            FolderFault::NotFolder => f.write_str("not a folder"),
            FolderFault::NotEmpty => f.write_str("the folder isn't empty"),
            FolderFault::Unusable(error) => write!(f, "cannot make the folder: {error}"),
        }
    }
}

/// Why a tree was not written, or not all of it.
#[derive(Drop)]
pub enum CheckoutFault {
    /// Other programs obey what stands at these paths. Nothing was written.
    UnsafeNames(Vec<Refused>),
    /// The path of this entry is no UTF-8. Nothing was written.
    NotUtf8(Place),
    /// The folder can't be taken. Nothing was written.
    Folder(FolderFault),
    /// This place can't be written. What was written before it stays, and a part of the file may.
    Unwritten(Place, io::Error),
    /// Memory ran out. What was written before stays.
    NoMemory,
}

impl From<AllocError> for CheckoutFault {
    ghost from_gives = { λ _ fault. fault ≡ NoMemory };

    fn from(_error: AllocError) -> Self {
        CheckoutFault::NoMemory
    }
}

impl Display for CheckoutFault {
    fn fmt<W: Write>(&self, f: &mut Formatter<W>) -> fmt::Result {
        match self {
            CheckoutFault::UnsafeNames(_) => f.write_str("it has names that other programs obey"),
            CheckoutFault::NotUtf8(place) => write!(f, "the path {place} isn't UTF-8"),
            CheckoutFault::Folder(fault) => write!(f, "{fault}"),
            CheckoutFault::Unwritten(place, error) => {
                write!(
                    f,
                    "cannot write {place}: {error}; what was written before it stays"
                )
            }
            CheckoutFault::NoMemory => f.write_str("out of memory; what was written stays"),
        }
    }
}
