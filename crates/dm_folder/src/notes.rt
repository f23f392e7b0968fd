//! The events by name.
ghost use Rattle.std.specs.Prelude.{◌≡◌, ◌∷◌};
ghost use Rattle.std.specs.Fs.{metadata_mode};
ghost use Rattle.dm_folder.specs.Events.{stood, began, gave, ended, opened, held};

use crate::record::Record;
use std::fs::Metadata;
use std::os::unix::fs::MetadataExt;

const STOOD: u64 = 0;

const BEGAN: u64 = 1;

const GAVE: u64 = 2;

const ENDED: u64 = 3;

const OPENED: u64 = 4;

const HELD: u64 = 5;

impl Record {
    // The system told of what stands at a place.
    pub(crate) fn stood(&mut self, place: &str, metadata: &Metadata)
        ensures { self.new.events ≡ stood place.now (metadata_mode metadata.now) ∷ self.old.events }
    {
        self.note(&[STOOD, metadata.mode() as u64], place.as_bytes());
    }

    // A directory was opened.
    pub(crate) fn began(&mut self, place: &str)
        ensures { self.new.events ≡ began place.now ∷ self.old.events }
    {
        self.note(&[BEGAN], place.as_bytes());
    }

    // The directory that was opened last gave these bytes.
    pub(crate) fn gave(&mut self, bytes: &[u8])
        ensures { self.new.events ≡ gave bytes.now ∷ self.old.events }
    {
        self.note(&[GAVE], bytes);
    }

    // It has no more.
    pub(crate) fn ended(&mut self)
        ensures { self.new.events ≡ ended ∷ self.old.events }
    {
        self.note(&[ENDED], &[]);
    }

    // A file was opened.
    pub(crate) fn opened(&mut self, place: &str)
        ensures { self.new.events ≡ opened place.now ∷ self.old.events }
    {
        self.note(&[OPENED], place.as_bytes());
    }

    // The file that was opened last was read to its end, and gave these bytes.
    pub(crate) fn held(&mut self, bytes: &[u8])
        ensures { self.new.events ≡ held bytes.now ∷ self.old.events }
    {
        self.note(&[HELD], bytes);
    }
}
