//! Whether a file stayed as it was while it was read.
ghost use Rattle.std.specs.Prelude.{◌≡◌, ◌↔◌, length, IfOk, IfErr};
ghost use Rattle.std.specs.Fs.{IsDir, IsFile, file_type, metadata_mode};
ghost use Rattle.dm_folder.specs.Listed.{kind_of_mode};
ghost use Rattle.dm_folder.specs.declared.fault.Trouble.TheVariants.{Changed};

use crate::fault::Trouble;
use crate::found::Kind;
use std::fs::Metadata;
use std::os::unix::fs::MetadataExt;

/// Which file or directory it is, how long, and when it was last changed.
#[derive(Clone, Copy, Debug, PartialEq, Eq)]
pub(crate) struct Stamp {
    device: u64,
    node: u64,
    mode: u32,
    pub(crate) size: u64,
    written: i64,
    written_nanos: i64,
    changed: i64,
    changed_nanos: i64,
}

impl Stamp {
    pub(crate) fn of(metadata: &Metadata) -> Stamp {
        Stamp {
            device: metadata.dev(),
            node: metadata.ino(),
            mode: metadata.mode(),
            size: metadata.size(),
            written: metadata.mtime(),
            written_nanos: metadata.mtime_nsec(),
            changed: metadata.ctime(),
            changed_nanos: metadata.ctime_nsec(),
        }
    }
}

/// The bytes that were read, if the file stayed as it was and they are all of it.
pub(crate) fn whole(before: Stamp, after: Stamp, bytes: Vec<u8>) -> Result<Vec<u8>, Trouble>
    ensures bytes { IfOk result (λ whole. whole ≡ bytes) }
    ensures same { IfOk result (λ _. before ≡ after) }
    ensures size { IfOk result (λ _. before.size ≡ length bytes.items) }
    ensures err { IfErr result (λ trouble. trouble ≡ Changed) }
    ensures only { before ≡ after → before.size ≡ length bytes.items → result ≡ Ok bytes }
{
    if before != after {
        return Err(Trouble::Changed);
    }
    if before.size != bytes.len() as u64 {
        return Err(Trouble::Changed);
    }
    Ok(bytes)
}

/// What it is. A symbolic link is neither a directory nor a file, wherever it leads.
pub(crate) fn kind_of(metadata: &Metadata) -> Kind
    ensures dir { (result ≡ Kind.Dir) ↔ IsDir (file_type metadata.now) }
    ensures file { (result ≡ Kind.File) ↔ IsFile (file_type metadata.now) }
    ensures mode { result ≡ kind_of_mode (metadata_mode metadata.now) }
{
    if metadata.is_dir() {
        return Kind::Dir;
    }
    if metadata.is_file() {
        return Kind::File;
    }
    Kind::Other
}
