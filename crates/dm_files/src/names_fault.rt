//! Why names in a file tell nothing, or why no mirror begins with them.
use crate::input::said;
use dm_begin::BeginFault;
use dm_named::ReadFault;
use thiserror::Error;

/// Why names in a file tell nothing, or why no mirror begins with them and the tree of a folder.
#[derive(Clone, Copy, Debug, Error)]
pub enum NamesFault<'a> {
    /// The text of what somebody holds, of this name, tells no names.
    #[error("{}: malformed {} {}", said(.0), .1.kind.word(), .1.at)]
    BadNames(&'a str, ReadFault),
    /// The file of this name has new patches, where the names behind a tag were due.
    #[error("{}: a context is wanted, as darcs log --context prints it", said(.0))]
    NoContext(&'a str),
    /// The first name in the file of this name isn't that of a tag.
    #[error("{}: the first name isn't that of a tag", said(.0))]
    NoTag(&'a str),
    /// So many names into the file of this name is one that stands there before.
    #[error("{}: name {} stands there twice", said(.0), .1)]
    NameTwice(&'a str, usize),
    /// No mirror begins with the names in the file of this name.
    #[error("{}: {}", said(.0), .1)]
    NoBeginning(&'a str, BeginFault),
    /// The folder of this name was to be the tree at a tag, and has nothing in it.
    #[error("nothing is in {0}")]
    EmptyFolder(&'a str),
}
