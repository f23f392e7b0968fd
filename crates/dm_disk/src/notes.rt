//! The events by name.
ghost use Rattle.std.specs.Prelude.{◌≡◌, ◌∷◌};
ghost use Rattle.dm_disk.specs.Events.{named, opened, wrote, synced, wrote_beside, synced_beside, renamed, synced_folder, gave_back, refused, rights};

use crate::beside::Taken;
use crate::record::Record;

const OPENED: u64 = 0;

const WROTE: u64 = 1;

const SYNCED: u64 = 2;

const WROTE_BESIDE: u64 = 3;

const SYNCED_BESIDE: u64 = 4;

const RENAMED: u64 = 5;

const SYNCED_FOLDER: u64 = 6;

const GAVE_BACK: u64 = 7;

const REFUSED: u64 = 8;

const NAMED: u64 = 9;

impl Record {
    // The file was opened by this name.
    pub(crate) fn named(&mut self, name: &str)
        ensures { self.new.events ≡ named name.now ∷ self.old.events }
    {
        self.note(&[NAMED, 0, 1], name.as_bytes());
    }

    // The file and its name are on the disk, these bytes were read, and the system told this size.
    pub(crate) fn opened(&mut self, size: u64, bytes: &[u8])
        ensures { self.new.events ≡ opened size bytes.now ∷ self.old.events }
    {
        self.note(&[OPENED, size, 1], bytes);
    }

    // These bytes were written at this place.
    pub(crate) fn wrote(&mut self, at: usize, bytes: &[u8], done: bool)
        ensures { self.new.events ≡ wrote at bytes.now done ∷ self.old.events }
    {
        self.note(&[WROTE, at as u64, u64::from(done)], bytes);
    }

    // The file was synced.
    pub(crate) fn synced(&mut self, done: bool)
        ensures { self.new.events ≡ synced done ∷ self.old.events }
    {
        self.note(&[SYNCED, 0, u64::from(done)], &[]);
    }

    // A new file was made beside this one with this mode, and these bytes were written to it.
    pub(crate) fn wrote_beside(&mut self, mode: u32, bytes: &[u8], done: bool)
        ensures { self.new.events ≡ wrote_beside mode bytes.now done ∷ self.old.events }
    {
        self.note(&[WROTE_BESIDE, u64::from(mode), u64::from(done)], bytes);
    }

    // The new file was synced.
    pub(crate) fn synced_beside(&mut self, done: bool)
        ensures { self.new.events ≡ synced_beside done ∷ self.old.events }
    {
        self.note(&[SYNCED_BESIDE, 0, u64::from(done)], &[]);
    }

    // The new file was given the name; the rights of the file, and its own, and the mode that it was made with.
    pub(crate) fn renamed(&mut self, taken: Taken, done: bool)
        ensures { self.new.events ≡ renamed taken.made (rights taken.old) (rights taken.new) done ∷ self.old.events }
    {
        self.note(
            &[
                RENAMED,
                u64::from(taken.made),
                u64::from(done),
                u64::from(taken.old.owner),
                u64::from(taken.old.group),
                u64::from(taken.old.mode),
                u64::from(taken.new.owner),
                u64::from(taken.new.group),
                u64::from(taken.new.mode),
            ],
            &[],
        );
    }

    // The folder was synced.
    pub(crate) fn synced_folder(&mut self, done: bool)
        ensures { self.new.events ≡ synced_folder done ∷ self.old.events }
    {
        self.note(&[SYNCED_FOLDER, 0, u64::from(done)], &[]);
    }

    // The file that had the name was given it again.
    pub(crate) fn gave_back(&mut self, done: bool)
        ensures { self.new.events ≡ gave_back done ∷ self.old.events }
    {
        self.note(&[GAVE_BACK, 0, u64::from(done)], &[]);
    }

    // A read was refused.
    pub(crate) fn refused(&mut self)
        ensures { self.new.events ≡ refused ∷ self.old.events }
    {
        self.note(&[REFUSED, 0, 0], &[]);
    }
}
