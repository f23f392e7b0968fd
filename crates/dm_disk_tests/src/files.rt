//! Journals in files, and files that are refused.
use crate::asking::texts_in;
use dm_disk::{Access, DiskFile, Lock, OpenFault};
use dm_journal::{Format, Journal};
use std::fs;
use std::os::unix::fs::{MetadataExt, PermissionsExt, symlink};
use std::test::Fail;

const FOLDER: &str = "dm_disk_test";

const PATH: &str = "dm_disk_test/mirror";

/// Whether a journal in a new file takes a text.
fn makes(rt: &HostRuntime) -> bool {
    let Ok(file) = DiskFile::open(rt, PATH, Access::Create, Lock::Try) else {
        return false;
    };
    if !file.is_empty() {
        return false;
    }
    let Ok(mut journal) = Journal::create(rt.alloc(), file, Format::Second, &[]) else {
        return false;
    };
    journal.append(rt.alloc(), b"one").is_ok()
}

/// Whether the journal has this one text, is put in place of itself, and takes one more.
fn replaces(rt: &HostRuntime) -> bool {
    let Ok(file) = DiskFile::open(rt, PATH, Access::Write, Lock::Wait) else {
        return false;
    };
    if file.is_empty() {
        return false;
    }
    let Ok((mut journal, texts)) = Journal::open(rt.alloc(), file) else {
        return false;
    };
    let Ok(()) = journal.replace(rt.alloc(), &[b"two"]) else {
        return false;
    };
    let Ok(()) = journal.append(rt.alloc(), b"three") else {
        return false;
    };
    texts.len() == 1 && texts.text(0) == b"one".as_slice() && journal.device.error().is_none()
}

/// Whether the journal has the two texts, and takes none where it is only read.
fn reads(rt: &HostRuntime) -> bool {
    let Ok(file) = DiskFile::open(rt, PATH, Access::Read, Lock::Wait) else {
        return false;
    };
    let Ok((mut journal, texts)) = Journal::open(rt.alloc(), file) else {
        return false;
    };
    let Err(_) = journal.append(rt.alloc(), b"four") else {
        return false;
    };
    texts.len() == 2 && texts.text(0) == b"two".as_slice() && texts.text(1) == b"three".as_slice()
}

/// How many texts the journal has. `None` also if the file can't be opened.
fn count(rt: &HostRuntime) -> Option<usize> {
    match DiskFile::open(rt, PATH, Access::Read, Lock::Try) {
        Ok(file) => texts_in(rt.alloc(), file),
        Err(_) => None,
    }
}

#[test]
fn a_journal_in_a_file_lasts(rt: HostRuntime) -> Result<(), Fail> {
    let _ = fs::remove_dir_all(&rt, FOLDER);
    fs::create_dir(&rt, FOLDER)?;
    assert!(rt; makes(&rt), "a journal is made, and takes a text");
    // A link where the new file is made stays, and isn't followed; what an earlier checkpoint left is removed.
    let inode = fs::metadata(&rt, PATH)?.ino();
    let link = format!(in rt.alloc(); "{PATH}.{inode}.new")?;
    let left = format!(in rt.alloc(); "{PATH}.{inode}-1.new")?;
    fs::write(&rt, "dm_disk_test/other", b"kept".as_slice())?;
    symlink(&rt, "other", link.as_str())?;
    fs::write(&rt, left.as_str(), b"left".as_slice())?;
    fs::set_permissions(&rt, PATH, fs::Permissions::from_mode(0o640))?;
    assert!(rt;
        replaces(&rt),
        "it is opened again, and another put in its place"
    );
    assert_eq!(rt; fs::metadata(&rt, PATH)?.mode() & 0o777, 0o640);
    assert_eq!(rt; fs::metadata(&rt, PATH)?.ino(), inode);
    assert_eq!(rt;
        fs::read(&rt, "dm_disk_test/other")?.as_slice(),
        b"kept".as_slice()
    );
    assert!(rt;
        fs::symlink_metadata(&rt, link.as_str()).is_ok(),
        "the link stays"
    );
    assert!(rt;
        fs::symlink_metadata(&rt, left.as_str()).is_err(),
        "what was left is removed"
    );
    assert!(rt; reads(&rt), "it is read");
    assert!(rt; count(&rt) == Some(2), "it has two texts");
    fs::remove_dir_all(&rt, FOLDER)?;
    Ok(())
}

const LOCKED: &str = "dm_disk_locked";

const REFUSALS: &str = "dm_disk_refusals";

const HELD: &str = "dm_disk_refusals/held";

/// Whether the path is refused, for writing, with this message.
fn refuses(rt: &HostRuntime, path: &str, access: Access, message: &str) -> bool {
    match DiskFile::open(rt, path, access, Lock::Try) {
        Ok(_) => false,
        Err(fault) => match format!(in rt.alloc(); "{fault}") {
            Ok(text) => text.as_str() == message,
            Err(_) => false,
        },
    }
}

#[test]
fn what_is_no_file_of_ones_own_is_refused(rt: HostRuntime) -> Result<(), Fail> {
    let _ = fs::remove_dir_all(&rt, REFUSALS);
    fs::create_dir(&rt, REFUSALS)?;
    let missing = "dm_disk_refusals/missing";
    assert!(rt; refuses(&rt, missing, Access::Write, "the file is missing"));
    assert!(rt; refuses(&rt, REFUSALS, Access::Create, "it is not a regular file"));
    symlink(&rt, "missing", "dm_disk_refusals/link")?;
    let message = "it is a symbolic link: name the file that it leads to";
    assert!(rt; refuses(&rt, "dm_disk_refusals/link", Access::Create, message));
    fs::write(&rt, HELD, b"held".as_slice())?;
    fs::hard_link(&rt, HELD, "dm_disk_refusals/again")?;
    let message = "it has a second name, by a hard link";
    assert!(rt; refuses(&rt, HELD, Access::Write, message));
    fs::remove_file(&rt, "dm_disk_refusals/again")?;
    fs::remove_dir_all(&rt, REFUSALS)?;
    Ok(())
}

/// Whether nobody else opens the file while it is held for writing, and only to be read while others read it.
fn is_locked(rt: &HostRuntime) -> bool {
    let Ok(writer) = DiskFile::open(rt, LOCKED, Access::Create, Lock::Try) else {
        return false;
    };
    let excludes = refuses(rt, LOCKED, Access::Create, "it is in use")
        && refuses(rt, LOCKED, Access::Read, "it is in use");
    drop(writer);
    let Ok(_reader) = DiskFile::open(rt, LOCKED, Access::Read, Lock::Try) else {
        return false;
    };
    excludes
        && DiskFile::open(rt, LOCKED, Access::Read, Lock::Try).is_ok()
        && refuses(rt, LOCKED, Access::Write, "it is in use")
}

/// Whether a text is refused, and it is told why, once somebody has removed the file.
fn misses_its_name(rt: &HostRuntime) -> bool {
    let Ok(file) = DiskFile::open(rt, LOCKED, Access::Write, Lock::Try) else {
        return false;
    };
    let Ok(mut journal) = Journal::create(rt.alloc(), file, Format::Second, &[]) else {
        return false;
    };
    if fs::remove_file(rt, LOCKED).is_err() {
        return false;
    }
    let Err(_) = journal.append(rt.alloc(), b"lost") else {
        return false;
    };
    journal.device.error().is_some()
}

#[test]
fn a_file_is_locked_and_keeps_its_name(rt: HostRuntime) {
    assert!(rt; is_locked(&rt), "nobody else writes");
    assert!(rt;
        misses_its_name(&rt),
        "a file that was removed takes no text"
    );
}
