//! The new file that is written beside another, and takes its name.
//!
//! It stands under a name that nobody else picks: that of the file, the number of its inode, and `.new`. So what stands there
//! already is what a checkpoint of this file has left that was cut short, and is removed. What is no regular file, has a second
//! name, is locked, or may not be opened or removed, stays, and the next name is taken.
ghost use Rattle.std.specs.Prelude.{◌≡◌, IfOk};
ghost use Rattle.dm_disk.specs.Events.{rights};
ghost use Rattle.dm_disk.specs.States.{lesser_mode, TakesRights};

use crate::back::{remove_name, second_name};
use crate::limit::write_within;
use crate::opening::{leads_to, make_locked, stands_at};
use std::fs::{self, File, Metadata, OpenOptions};
use std::io;
use std::os::unix::fs::{MetadataExt, PermissionsExt, fchown};

// The mode of a new file until it is written: nobody reads it who may not read the old one.
pub(crate) const NEW_MODE: u32 = 0o600;

// How many names others may hold. The longest is the last one of the longest number.
const NAMES: u32 = 16;

// A file of the name that it stands at.
#[derive(Drop)]
pub(crate) struct NewFile {
    pub(crate) file: File,
    pub(crate) path: String,
    // The mode that it was made with.
    made: u32,
}

// How a new file took the name: the rights of both, and the old file's second name, where it has one.
#[derive(Drop)]
pub(crate) struct Taking {
    pub(crate) taken: Taken,
    pub(crate) second: Option<String>,
}

impl Taking {
    // Whether the new file has fewer rights. They are lost unless the old one gets the name back.
    pub(crate) fn loses_rights(&self) -> bool {
        self.taken.old != self.taken.new
    }
}

// The rights of the old file and of the new one, and the mode that the new one was made with.
#[derive(Clone, Copy)]
pub(crate) struct Taken {
    pub(crate) old: Rights,
    pub(crate) new: Rights,
    pub(crate) made: u32,
}

// Who may read and write a file: its owner, its group and its mode.
#[derive(Clone, Copy, PartialEq, Eq)]
pub(crate) struct Rights {
    pub(crate) owner: u32,
    pub(crate) group: u32,
    pub(crate) mode: u32,
}

// Those of no file.
const NO_RIGHTS: Rights = Rights {
    owner: 0,
    group: 0,
    mode: 0,
};

// That no file took a name.
pub(crate) const NOT_TAKEN: Taken = Taken {
    old: NO_RIGHTS,
    new: NO_RIGHTS,
    made: 0,
};

fn rights_of(found: &Metadata) -> Rights {
    Rights {
        owner: found.uid(),
        group: found.gid(),
        mode: found.mode() & 0o7777,
    }
}

// The name of a new file beside the one of this path and this number of its inode.
pub(crate) fn new_path(rt: &HostRuntime, path: &str, inode: u64, which: u32) -> io::Result<String> {
    if which == 0 {
        return Ok(format!(in rt.alloc(); "{path}.{inode}.new")?);
    }
    Ok(format!(in rt.alloc(); "{path}.{inode}-{which}.new")?)
}

// The names of new files beside this one.
pub(crate) fn new_paths(rt: &HostRuntime, path: &str, file: &File) -> io::Result<Vec<String>> {
    let inode = file.metadata()?.ino();
    let mut paths = Vec::new(rt.alloc());
    for which in 0..NAMES {
        paths.push(new_path(rt, path, inode, which)?)?;
    }
    Ok(paths)
}

// The longest name of a new file beside the one of this path.
pub(crate) fn longest_path(rt: &HostRuntime, path: &str) -> io::Result<String> {
    new_path(rt, path, u64::MAX, NAMES - 1)
}

// A new file of these bytes, locked, with the rights of one that takes the name. What was begun is removed where it fails.
pub(crate) fn write_new(
    rt: &HostRuntime,
    path: &str,
    old: &File,
    limit: u64,
    bytes: &[u8],
) -> io::Result<NewFile> {
    let inode = old.metadata()?.ino();
    for which in 0..NAMES {
        let path = new_path(rt, path, inode, which)?;
        if let Some(file) = make_alone(rt, path.as_str())? {
            return match fill(old, &file, limit, bytes) {
                Ok(made) => Ok(NewFile { file, path, made }),
                Err(error) => {
                    let _ = fs::remove_file(rt, path.as_str());
                    Err(error)
                }
            };
        }
    }
    let message = "others hold the names of its new file";
    Err(io::Error::new(io::ErrorKind::AlreadyExists, message))
}

// A new file at the path, locked. `None` where something stands there that is not removed.
fn make_alone(rt: &HostRuntime, path: &str) -> io::Result<Option<File>> {
    match make_locked(rt, path, NEW_MODE) {
        Err(error) if error.kind() == io::ErrorKind::AlreadyExists => {
            if !is_removed(rt, path)? {
                return Ok(None);
            }
        }
        made => return Ok(Some(made?)),
    }
    match make_locked(rt, path, NEW_MODE) {
        Err(error) if error.kind() == io::ErrorKind::AlreadyExists => Ok(None),
        made => Ok(Some(made?)),
    }
}

// Removes what stands at the path, if it is a file of one name that nobody has locked. Whether nothing stands there now.
fn is_removed(rt: &HostRuntime, path: &str) -> io::Result<bool> {
    let found = fs::symlink_metadata(rt, path)?;
    if !found.is_file() || found.nlink() > 1 {
        return Ok(false);
    }
    let mut how = OpenOptions::new();
    let file = match how.read(true).write(true).open(rt, path) {
        Err(error) if error.kind() == io::ErrorKind::PermissionDenied => return Ok(false),
        opened => opened?,
    };
    if file.try_lock().is_err() || !leads_to(rt, path, &file) {
        return Ok(false);
    }
    match fs::remove_file(rt, path) {
        Err(error) if error.kind() == io::ErrorKind::PermissionDenied => Ok(false),
        removed => {
            removed?;
            Ok(true)
        }
    }
}

// The access rights come last, and before the name. The mode that the new file was made with.
fn fill(old: &File, new_file: &File, limit: u64, bytes: &[u8]) -> io::Result<u32> {
    let made = rights_of(&new_file.metadata()?).mode;
    write_within(limit, new_file, bytes, 0)?;
    give_rights(old, new_file)?;
    fit_rights(old, new_file, made)?;
    Ok(made)
}

// The mode of a new file that takes the name of one with this mode. Where the group and others have the same bits, it is the same.
// Else an access control list may stand behind the group's bits, and may deny what they and those of others say.
fn lesser_mode(mode: u32) -> u32
    ensures { result ≡ lesser_mode mode }
{
    if mode / 8 % 8 == mode % 8 {
        return mode;
    }
    mode - mode % 64
}

// Gives the new file the group, the owner and the mode that it may have. Only what differs is set: where a file system has one
// owner and one mode for all, it refuses to set them.
fn give_rights(old: &File, new_file: &File) -> io::Result<()> {
    let rights = rights_of(&old.metadata()?);
    let found = rights_of(&new_file.metadata()?);
    if found == rights {
        return Ok(());
    }
    if found.group != rights.group {
        unless_denied(fchown(new_file, None, Some(rights.group)))?;
    }
    if found.owner != rights.owner {
        unless_denied(fchown(new_file, Some(rights.owner), None))?;
    }
    // The change of an owner may take bits of the mode away.
    let mode = lesser_mode(rights.mode);
    if rights_of(&new_file.metadata()?).mode != mode {
        new_file.set_permissions(fs::Permissions::from_mode(mode))?;
    }
    Ok(())
}

fn unless_denied(outcome: io::Result<()>) -> io::Result<()> {
    match outcome {
        Err(error) if error.kind() == io::ErrorKind::PermissionDenied => Ok(()),
        other => other,
    }
}

// The rights of both files. An error where the new one doesn't have those that it may have.
fn fit_rights(old: &File, new_file: &File, made: u32) -> io::Result<Taken>
    ensures { IfOk result (λ taken. TakesRights taken.made (rights taken.old) (rights taken.new)) }
{
    let old = rights_of(&old.metadata()?);
    let new = rights_of(&new_file.metadata()?);
    if new.owner == old.owner
        && new.group == old.group
        && (new.mode == lesser_mode(old.mode) || (new.mode == old.mode && old.mode == made))
    {
        return Ok(Taken { old, new, made });
    }
    let message = "a new file cannot have its owner, group and mode";
    Err(io::Error::new(io::ErrorKind::PermissionDenied, message))
}

// Gives the name of the old file to the new one, where both stand at their paths, and the new one has the rights for it. Where
// these aren't those of the old file, that gets a second name before.
pub(crate) fn take_name(
    rt: &HostRuntime,
    path: &str,
    old: &File,
    new_file: &NewFile,
) -> io::Result<Taking>
    ensures { IfOk result (λ taking. TakesRights taking.taken.made (rights taking.taken.old) (rights taking.taken.new)) }
{
    let taken = fit_rights(old, &new_file.file, new_file.made)?;
    stands_at(rt, path, old)?;
    stands_at(rt, new_file.path.as_str(), &new_file.file)?;
    let second = if taken.old == taken.new {
        None
    } else {
        second_name(rt, path, old, &new_file.file)
    };
    match fs::rename(rt, new_file.path.as_str(), path) {
        Ok(()) => Ok(Taking { taken, second }),
        Err(error) => {
            if let Some(second) = &second {
                remove_name(rt, second.as_str(), old);
            }
            Err(error)
        }
    }
}
