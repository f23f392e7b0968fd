//! Why a file was not opened.
use std::alloc::{AllocError, AllocFailed};
use std::io;
use thiserror::Error;

/// Why a file was not opened.
#[derive(Clone, Copy, Debug, Error)]
pub enum OpenFault {
    /// Nothing stands at the path.
    #[error("the file is missing")]
    Missing,
    /// A file was to be made, and the folder that it was to stand in is missing.
    #[error("its folder is missing")]
    NoFolder,
    /// A folder, a device or a pipe stands at the path.
    #[error("it is not a regular file")]
    NotAFile,
    /// A symbolic link stands at the path. A checkpoint would take the place of the link, and the file that it leads to would
    /// stay behind. Name that file instead.
    #[error("it is a symbolic link: name the file that it leads to")]
    Link,
    /// The file has another name, by a hard link. A checkpoint would take the place of one, and the other would stay behind.
    /// Only reading is open to it.
    #[error("it has a second name, by a hard link")]
    TwoNames,
    /// The name ends as that of the new file of a checkpoint, which takes away what stands there. Only reading is open to it.
    #[error("its name ends in .new, as a new file beside another does")]
    NewName,
    /// The name is too long for a new file beside it, whose name has up to 28 bytes more.
    #[error("its name is too long")]
    LongName,
    /// Somebody else has the file open, and there was to be no wait.
    #[error("it is in use")]
    Busy,
    /// The system gave another number of bytes than it says that the file has. An empty read isn't an empty file.
    #[error("the system gives other bytes than it says that there are")]
    OtherSize,
    /// An allocation failed.
    #[error("out of memory")]
    NoMemory,
    /// The file or its folder could not be synced. What is read then may not be on the disk.
    #[error("{0}")]
    Sync(io::Error),
    /// A call of the system failed.
    #[error("{0}")]
    Io(io::Error),
}

impl From<AllocError> for OpenFault {
    fn from(_: AllocError) -> Self {
        OpenFault::NoMemory
    }
}

impl<T: Drop> From<AllocFailed<T>> for OpenFault {
    fn from(_: AllocFailed<T>) -> Self {
        OpenFault::NoMemory
    }
}

impl From<io::Error> for OpenFault {
    fn from(error: io::Error) -> Self {
        if error.kind() == io::ErrorKind::OutOfMemory {
            return OpenFault::NoMemory;
        }
        OpenFault::Io(error)
    }
}
