//! What a directory has.
/// What stands under a name.
#[derive(Clone, Copy, Debug, PartialEq, Eq)]
pub enum Kind {
    /// A directory.
    Dir,
    /// A file.
    File,
    /// Something else, as a symbolic link, a device or a socket.
    Other,
    /// What can't be asked for, as its name isn't UTF-8.
    Unknown,
}

/// A name in a directory.
#[derive(Drop)]
pub struct Found {
    pub name: Vec<u8>,
    pub kind: Kind,
}
