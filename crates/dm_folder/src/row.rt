//! What a folder has at a path.
use dm_tree::Path;
use std::alloc::Global;

/// A directory of a folder.
#[derive(Drop)]
pub(crate) enum Dir {
    /// The folder itself.
    Top,
    /// The directory at this path.
    In(Path<Global>),
}

/// A directory or a file of a folder.
#[derive(Drop)]
pub(crate) struct Row {
    pub(crate) path: Path<Global>,
    pub(crate) is_dir: bool,
}
