//! The events by name.
ghost use Rattle.std.specs.Prelude.{◌≡◌, ◌∷◌};
ghost use Rattle.dm_checkout.specs.Events.{took, made_dir, made_file, wrote};

use crate::record::Record;

const TOOK: u64 = 0;

const MADE_DIR: u64 = 1;

const MADE_FILE: u64 = 2;

const WROTE: u64 = 3;

impl Record {
    // The folder of the checkout was made, or was there and empty.
    pub(crate) fn took(&mut self, place: &str)
        ensures { self.new.events ≡ took place.now ∷ self.old.events }
    {
        self.note(&[TOOK], place.as_bytes());
    }

    // A folder was made.
    pub(crate) fn made_dir(&mut self, place: &str)
        ensures { self.new.events ≡ made_dir place.now ∷ self.old.events }
    {
        self.note(&[MADE_DIR], place.as_bytes());
    }

    // An empty file was made.
    pub(crate) fn made_file(&mut self, place: &str)
        ensures { self.new.events ≡ made_file place.now ∷ self.old.events }
    {
        self.note(&[MADE_FILE], place.as_bytes());
    }

    // These bytes were written to the file that was made last.
    pub(crate) fn wrote(&mut self, bytes: &[u8])
        ensures { self.new.events ≡ wrote bytes.now ∷ self.old.events }
    {
        self.note(&[WROTE], bytes);
    }
}
