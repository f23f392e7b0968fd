//! Why patches aren't taken out of a mirror, or not undone.
use dm_info::InfoFault;
use thiserror::Error;

/// Why patches aren't taken out of a mirror, or not undone.
#[derive(Clone, Copy, Debug, Error)]
pub enum TakeBackFault<'a> {
    /// No patch of the mirror has this name, this place, or a hash that begins so.
    #[error("the mirror holds no patch {0}: a name, the first seven digits of a hash or a place is wanted, as dm log --places prints them")]
    UnknownPatch(&'a str),
    /// The file of this name was to be made, and has bytes.
    #[error("{0} is there already")]
    OutputIsThere(&'a str),
    /// What goes is past the limits of one bundle.
    #[error("the bundle of these patches, with the names of all that stay, is past the limits of one; roll back instead")]
    TooManyToTakeOut,
    /// What would stay in the mirror of this name is past the limits of a repository of one's own.
    #[error("what stays is too large for {0}")]
    TooLargeToStay(&'a str),
    /// A date isn't fourteen digits, or Darcs can't read it.
    #[error("bad date {0}: fourteen digits are wanted, as 20261127093000, in UTC")]
    BadDate(&'a str),
    /// The system's clock can't be read.
    #[error("cannot read the clock; give --date")]
    NoClock,
    /// No patch can have this name, author, date and log.
    #[error("{0}")]
    BadInfo(InfoFault),
    /// The mirror holds a patch of this name, author, date and log.
    #[error("the mirror holds a patch of this name, author, date and log already")]
    NameIsHeld,
    /// The chosen patches change nothing.
    #[error("these patches change nothing that could be undone")]
    NothingToUndo,
}
