//! A file that is found, or made, and locked. No contract tells any of this.
//!
//! The lock is on the file itself, so that no other file has to be kept beside it. A checkpoint gives the name to a new file,
//! which is locked before it has it: whoever waited for the old file finds, once the lock is there, that the name leads
//! elsewhere, and begins anew. A file that is missing is first made with no bytes. Of two that make one at the same path, both
//! find the same file, one gets the lock, and the other finds what the first has made of it. No sync is acknowledged, and no
//! name is given, once somebody has removed the file or put another in its place.
ghost use Rattle.std.specs.Prelude.{◌≡◌, length, IfOk};

use crate::back::{old_path, remove_name};
use crate::beside::{longest_path, new_paths};
use crate::fault::OpenFault;
use std::fs::{self, File, Metadata, OpenOptions, TryLockError};
use std::io::{self, Read};
use std::os::fd::AsRawFd;
use std::os::unix::fs::{MetadataExt, OpenOptionsExt};
use std::path::Path;
use std::thread;
use std::time::Duration;

/// What a file is opened for.
#[derive(Clone, Copy, Debug, PartialEq, Eq)]
pub enum Access {
    /// To be read. Others may read it meanwhile, and nobody writes to it. Every call that writes fails.
    Read,
    /// To be read and written. Nobody else has it open meanwhile.
    Write,
    /// As [`Access::Write`]; where nothing stands at the path, a file of no bytes is made.
    Create,
}

/// What to do where somebody else has the file open.
#[derive(Clone, Copy, Debug, PartialEq, Eq)]
pub enum Lock {
    /// Wait, without an end if this thread has it open itself.
    Wait,
    /// Answer [`OpenFault::Busy`].
    Try,
}

// The mode of a file that is made where none stands, which the system narrows by the umask.
const MODE: u32 = 0o666;

// How often the name may lead to another file once the lock is there.
const TRIES: usize = 1000;

// How long to wait between two of them, where the file is about to get its rights.
const PAUSE_MILLIS: u64 = 10;

// The file at the path, locked.
pub(crate) fn open_locked(
    rt: &HostRuntime,
    path: &str,
    access: Access,
    lock: Lock,
) -> Result<File, OpenFault> {
    let mut fault = OpenFault::Busy;
    for _ in 0..TRIES {
        let found = match find_or_make(rt, path, access) {
            Err(OpenFault::Io(error)) if gets_rights(rt, path, error) => {
                if lock == Lock::Try {
                    return Err(OpenFault::Busy);
                }
                fault = OpenFault::Io(error);
                thread::sleep(rt, Duration::from_millis(PAUSE_MILLIS));
                None
            }
            found => found?,
        };
        if let Some(file) = found
            && is_locked(rt, path, &file, access, lock)?
        {
            return Ok(file);
        }
    }
    Err(fault)
}

// Whether the file, once it is locked, stands at the path. What a checkpoint that was cut short has left of a second name is
// removed.
fn is_locked(
    rt: &HostRuntime,
    path: &str,
    file: &File,
    access: Access,
    lock: Lock,
) -> Result<bool, OpenFault> {
    take_lock(file, access, lock)?;
    if !leads_to(rt, path, file) {
        return Ok(false);
    }
    if access != Access::Read && file.metadata()?.nlink() > 1 {
        remove_second(rt, path, file)?;
    }
    refuse_unfit(&file.metadata()?, access)?;
    Ok(true)
}

// Removes the second name that this file got for a checkpoint, whose new file has not taken its name.
fn remove_second(rt: &HostRuntime, path: &str, file: &File) -> Result<(), OpenFault> {
    for new_path in &new_paths(rt, path, file)? {
        if let Ok(new_file) = fs::symlink_metadata(rt, new_path.as_str()) {
            remove_name(rt, old_path(rt, path, new_file.ino())?.as_str(), file);
        }
    }
    Ok(())
}

// Whether a file was refused by its rights, and the file of the name before is about to get that back.
fn gets_rights(rt: &HostRuntime, path: &str, error: io::Error) -> bool {
    if error.kind() != io::ErrorKind::PermissionDenied {
        return false;
    }
    let Ok(found) = fs::symlink_metadata(rt, path) else {
        return false;
    };
    let Ok(name) = old_path(rt, path, found.ino()) else {
        return false;
    };
    match fs::symlink_metadata(rt, name.as_str()) {
        Ok(old) => old.is_file(),
        Err(_) => false,
    }
}

// The file at the path. `None` if somebody has removed or made it meanwhile.
fn find_or_make(rt: &HostRuntime, path: &str, access: Access) -> Result<Option<File>, OpenFault> {
    match fs::symlink_metadata(rt, path) {
        Ok(found) => {
            refuse_kind(&found)?;
            let mut how = OpenOptions::new();
            how.read(true).write(access != Access::Read);
            unless(io::ErrorKind::NotFound, how.open(rt, path))
        }
        Err(error) if error.kind() == io::ErrorKind::NotFound => {
            if access != Access::Create {
                return Err(OpenFault::Missing);
            }
            match unless(io::ErrorKind::AlreadyExists, make(rt, path, MODE)) {
                Err(OpenFault::Io(error)) if error.kind() == io::ErrorKind::NotFound => {
                    Err(OpenFault::NoFolder)
                }
                made => made,
            }
        }
        Err(error) => Err(OpenFault::from(error)),
    }
}

// `None` for an error of this kind.
fn unless(kind: io::ErrorKind, opened: io::Result<File>) -> Result<Option<File>, OpenFault> {
    match opened {
        Ok(file) => Ok(Some(above_standard(file)?)),
        Err(error) if error.kind() == kind => Ok(None),
        Err(error) => Err(OpenFault::from(error)),
    }
}

// A new file of this mode at the path, where nothing stands. It follows no link.
fn make(rt: &HostRuntime, path: &str, mode: u32) -> io::Result<File> {
    OpenOptions::new()
        .read(true)
        .write(true)
        .create_new(true)
        .mode(mode)
        .open(rt, path)
}

// A new file of this mode at the path, where nothing stands, locked.
pub(crate) fn make_locked(rt: &HostRuntime, path: &str, mode: u32) -> io::Result<File> {
    let file = above_standard(make(rt, path, mode)?)?;
    match file.try_lock() {
        Ok(()) => Ok(file),
        Err(error) => {
            let _ = fs::remove_file(rt, path);
            Err(io::Error::from(error))
        }
    }
}

// What the program prints must not land in a file that took the number of a standard stream that was closed.
fn above_standard(file: File) -> io::Result<File> {
    if file.as_raw_fd() > 2 {
        return Ok(file);
    }
    file.try_clone()
}

// Where the file is to be written, a new one beside it must be able to have its name.
pub(crate) fn refuse_name(rt: &HostRuntime, path: &str, access: Access) -> Result<(), OpenFault> {
    if access == Access::Read {
        return Ok(());
    }
    if path.ends_with(".new") {
        return Err(OpenFault::NewName);
    }
    match fs::symlink_metadata(rt, longest_path(rt, path)?.as_str()) {
        Err(error) if error.kind() == io::ErrorKind::InvalidFilename => Err(OpenFault::LongName),
        _ => Ok(()),
    }
}

fn refuse_kind(found: &Metadata) -> Result<(), OpenFault> {
    if found.is_symlink() {
        return Err(OpenFault::Link);
    }
    if !found.is_file() {
        return Err(OpenFault::NotAFile);
    }
    Ok(())
}

fn refuse_unfit(found: &Metadata, access: Access) -> Result<(), OpenFault> {
    refuse_kind(found)?;
    if access != Access::Read && found.nlink() > 1 {
        return Err(OpenFault::TwoNames);
    }
    Ok(())
}

// The lock ends where the last handle of the file is dropped.
fn take_lock(file: &File, access: Access, lock: Lock) -> Result<(), OpenFault> {
    let tried = match (access, lock) {
        (Access::Read, Lock::Wait) => return Ok(file.lock_shared()?),
        (_, Lock::Wait) => return Ok(file.lock()?),
        (Access::Read, Lock::Try) => file.try_lock_shared(),
        (_, Lock::Try) => file.try_lock(),
    };
    match tried {
        Ok(()) => Ok(()),
        Err(TryLockError::WouldBlock) => Err(OpenFault::Busy),
        Err(TryLockError::Error(error)) => Err(OpenFault::from(error)),
    }
}

// Whether this file stands at the path.
pub(crate) fn leads_to(rt: &HostRuntime, path: &str, file: &File) -> bool {
    match (fs::symlink_metadata(rt, path), file.metadata()) {
        (Ok(named), Ok(held)) => named.dev() == held.dev() && named.ino() == held.ino(),
        _ => false,
    }
}

// An error where another file stands at the path, or none.
pub(crate) fn stands_at(rt: &HostRuntime, path: &str, file: &File) -> io::Result<()> {
    if leads_to(rt, path, file) {
        return Ok(());
    }
    let message = "somebody has removed the file, or put another in its place";
    Err(io::Error::new(io::ErrorKind::NotFound, message))
}

pub(crate) fn folder_of(path: &str) -> &str {
    match Path::new(path).parent() {
        Some(folder) if !folder.as_str().is_empty() => folder.as_str(),
        _ => ".",
    }
}

// Syncs the file and its folder.
pub(crate) fn make_durable(file: &File, folder: &File) -> Result<(), OpenFault> {
    match sync_both(file, folder) {
        Ok(()) => Ok(()),
        Err(error) => Err(OpenFault::Sync(error)),
    }
}

fn sync_both(file: &File, folder: &File) -> io::Result<()> {
    file.sync_all()?;
    folder.sync_all()
}

// All the bytes of a file, and how many the system says that it has. Where these differ, as an empty read of a file that isn't
// empty, that is an error.
pub(crate) fn read_whole(rt: &HostRuntime, file: &mut File) -> Result<(u64, Vec<u8>), OpenFault>
    ensures { IfOk result (λ read. read.0 ≡ length read.1.items) }
{
    let mut bytes = Vec::new(rt.alloc());
    file.read_to_end(&mut bytes)?;
    let size = file.metadata()?.len();
    if size != bytes.len() as u64 {
        return Err(OpenFault::OtherSize);
    }
    Ok((size, bytes))
}
