//! A file that was let go.
use crate::record::Record;
use std::marker::Model;

/// A file that was let go: its lock is, and no call is made on it any more. It is in contracts what was done to the file, from when it
/// was opened on, as a [`crate::DiskFile`] is. Only [`crate::DiskFile::close`] and [`crate::DiskFile::rehearse`] make one.
pub struct ClosedFile {
    pub(crate) log: Record,
}

// By hand, so that this is called where one goes. What is derived stands there in full.
impl Drop for ClosedFile {
    fn drop(self) {
        let ClosedFile { log: _ } = self;
    }
}

impl Model for ClosedFile {
    ghost use Rattle.std.specs.Prelude.{List};
    ghost use Rattle.dm_disk.specs.Events.{Event};

    ghost Value = { List Event };

    ghost view = { λ f. f.log.events };
}
