//! The disk of the system. Each method makes the call that it notes, once that is done.
ghost use Rattle.std.specs.Prelude.{◌≡◌, []};
ghost use Rattle.dm_checkout.specs.Events.{made};

use crate::disk::Disk;
use crate::fault::FolderFault;
use crate::reach::Reached;
use crate::record::Record;
use std::fs;
use std::io::{self, ErrorKind, Write};
use std::marker::Model;

/// The disk of the system. In contracts it is what it made.
#[derive(Drop)]
pub struct SystemDisk {
    rt: HostRuntime,
    log: Record,
}

impl Model for SystemDisk {
    ghost use Rattle.std.specs.Prelude.{List};
    ghost use Rattle.dm_checkout.specs.Events.{Event};

    ghost Value = { List Event };

    ghost view = { λ disk. disk.log.events };
}

impl SystemDisk {
    /// The disk, on which nothing was made yet.
    pub fn new(rt: HostRuntime) -> SystemDisk
        ensures { made result ≡ [] }
    {
        SystemDisk {
            rt,
            log: Record::new(),
        }
    }
}

impl Disk for SystemDisk {
    ghost made = { λ events. made events };

    fn take(&mut self, folder: &str) -> Result<(), FolderFault> {
        take_folder(&self.rt, bare(folder))?;
        self.log.took(folder);
        Ok(())
    }

    fn make_dir(&mut self, place: &str) -> io::Result<()> {
        let reached = Reached::at(&self.rt, place)?;
        reached.make_dir(&self.rt)?;
        self.log.made_dir(place);
        Ok(())
    }

    fn make_file(&mut self, place: &str, bytes: &[u8]) -> io::Result<()> {
        let reached = Reached::at(&self.rt, place)?;
        let mut file = reached.make_file(&self.rt)?;
        self.log.made_file(place);
        file.write_all(bytes)?;
        self.log.wrote(bytes);
        Ok(())
    }
}

/// The path without slashes at its end, nor dots behind a slash: what stands there itself, and not what a link leads to.
fn bare(folder: &str) -> &str {
    let mut bare = folder;
    for _ in 0..folder.len() {
        if let Some(shorter) = bare.strip_suffix("/") {
            bare = shorter;
        } else if let Some(shorter) = bare.strip_suffix("/.") {
            bare = shorter;
        }
    }
    // A path of nothing but these is the root.
    if bare.is_empty() && !folder.is_empty() {
        return "/";
    }
    bare
}

/// Makes the folder, or sees that it is there and empty.
fn take_folder(rt: &HostRuntime, folder: &str) -> Result<(), FolderFault> {
    match fs::symlink_metadata(rt, folder) {
        Ok(metadata) if metadata.is_dir() => require_empty(rt, folder),
        Ok(_) => Err(FolderFault::NotFolder),
        Err(error) if error.kind() == ErrorKind::NotFound => match fs::create_dir(rt, folder) {
            Ok(()) => Ok(()),
            Err(error) => Err(FolderFault::Unusable(error)),
        },
        Err(error) => Err(FolderFault::Unusable(error)),
    }
}

fn require_empty(rt: &HostRuntime, folder: &str) -> Result<(), FolderFault> {
    match fs::read_dir(rt, folder) {
        Ok(mut entries) => match entries.next() {
            None => Ok(()),
            Some(_) => Err(FolderFault::NotEmpty),
        },
        Err(error) => Err(FolderFault::Unusable(error)),
    }
}
