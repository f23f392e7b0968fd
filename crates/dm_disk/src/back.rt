//! The old file, which gets its name back.
//!
//! An access control list stands behind a file's mode, and no call of the toolchain reads it or gives it. So a new file that
//! takes the name has fewer rights than the old one, where a list may be there. The old file keeps a second name meanwhile, in
//! which the number of the new file's inode is. Once the new file has the name on the disk, the old one gets its bytes, and then
//! the name.
use crate::limit::write_within;
use crate::opening::{leads_to, stands_at};
use std::fs::{self, File};
use std::os::unix::fs::{FileExt, MetadataExt};
use std::{io, vec};

// A file that had the name, and its second name.
#[derive(Drop)]
pub(crate) struct OldFile {
    pub(crate) file: File,
    pub(crate) path: String,
}

// How many bytes are copied at once.
const PIECE: usize = 1 << 16;

// The second name of a file, while a new one whose inode has this number has its name.
pub(crate) fn old_path(rt: &HostRuntime, path: &str, inode: u64) -> io::Result<String> {
    Ok(format!(in rt.alloc(); "{path}.{inode}.old")?)
}

// Gives the old file its second name. `None` where that can't be.
pub(crate) fn second_name(
    rt: &HostRuntime,
    path: &str,
    old: &File,
    new_file: &File,
) -> Option<String> {
    let inode = new_file.metadata().ok()?.ino();
    let name = old_path(rt, path, inode).ok()?;
    fs::hard_link(rt, path, name.as_str()).ok()?;
    if leads_to(rt, name.as_str(), old) {
        return Some(name);
    }
    let _ = fs::remove_file(rt, name.as_str());
    None
}

// Takes this name away from the file, if it has it.
pub(crate) fn remove_name(rt: &HostRuntime, path: &str, file: &File) {
    if leads_to(rt, path, file) {
        let _ = fs::remove_file(rt, path);
    }
}

// Gives the old file the bytes of the new one, and syncs it.
fn copy_into(rt: &HostRuntime, limit: u64, new_file: &File, old: &File) -> io::Result<()> {
    let size = new_file.metadata()?.len();
    let mut piece = vec![in rt.alloc(); 0u8; PIECE]?;
    old.set_len(0)?;
    let mut at = 0u64;
    for _ in 0..u64::MAX {
        let count = new_file.read_at(&mut piece, at)?;
        if count == 0 {
            break;
        }
        write_within(limit, old, &piece[..count], at)?;
        at = at.saturating_add(count as u64);
    }
    if at != size || old.metadata()?.len() != size {
        return Err(io::Error::from(io::ErrorKind::UnexpectedEof));
    }
    old.sync_all()
}

// Gives the old file the bytes of the new one, and then the name. Whether it has that. `None` where it didn't come so far. It keeps
// its second name nowhere, unless that can't be removed.
pub(crate) fn give_back(
    rt: &HostRuntime,
    path: &str,
    limit: u64,
    new_file: &File,
    old: &OldFile,
) -> Option<bool> {
    if copy_into(rt, limit, new_file, &old.file).is_err() {
        remove_name(rt, old.path.as_str(), &old.file);
        return None;
    }
    if take_back(rt, path, new_file, old).is_ok() {
        return Some(true);
    }
    remove_name(rt, old.path.as_str(), &old.file);
    Some(false)
}

// Gives the name of the new file to the old one, where both stand at their paths.
fn take_back(rt: &HostRuntime, path: &str, new_file: &File, old: &OldFile) -> io::Result<()> {
    stands_at(rt, path, new_file)?;
    stands_at(rt, old.path.as_str(), &old.file)?;
    fs::rename(rt, old.path.as_str(), path)
}

// The old file and its second name, if it has one.
pub(crate) fn old_file(file: File, second: Option<String>) -> Option<OldFile> {
    let path = second?;
    Some(OldFile { file, path })
}

// Puts the old file in the place of the new one, if it has the name.
pub(crate) fn hold(held: &mut File, old: OldFile, is_back: bool) {
    if is_back {
        *held = old.file;
    }
}
