//! How much longer a journal has become since its last checkpoint.
ghost use Rattle.std.specs.Prelude.{◌≡◌, ◌+◌, ◌↔◌, ◌⊎◌, ◌<◌, ◌^◌, IsTrue};
ghost use Rattle.dm_store.specs.Growth.{IsGrowthOf, IsWhole, capped};

use crate::entries::{strip_counted, strip_whole};
use dm_journal::Texts;

// For fewer bytes than these no checkpoint is worth its while, unless they are of too many entries.
const LEAST: usize = 1 << 20;

// Behind more entries than these a file takes too long to open.
pub const MOST_ENTRIES: usize = 16;

// But for so many bytes of the whole repository there may be one, since an entry that is taken again costs what it touches, and a
// checkpoint costs the whole.
pub const BYTES_OF_EACH: usize = 1 << 20;

// A file that is open may have 16 times as many, since it isn't opened in between. Only a crash leaves it with them.
pub const MOST_WHILE_OPEN: usize = 1 << 8;

// So many bytes for one, then.
pub const BYTES_WHILE_OPEN: usize = 1 << 16;

// A trial may take so many bytes of memory.
const LEAST_FOR_TRIAL: usize = 1 << 29;

// And so many for each byte of the entries: a sound text takes far less.
const FOR_EACH_BYTE: usize = 16;

// The bytes of the entry of a whole repository that a journal begins with, or 0, and the bytes and the number of the entries
// behind it.
#[derive(Clone, Copy)]
pub struct Growth {
    pub whole: usize,
    pub since: usize,
    pub entries: usize,
}

impl Growth {
    // That of a journal with one entry, of a whole repository.
    pub fn of_whole(bytes: usize) -> Growth
        requires { bytes < 2 ^ 63 }
        ensures whole { result.whole ≡ bytes }
        ensures few { result.whole < 2 ^ 63 }
        ensures since { result.since ≡ 0 }
        ensures entries { result.entries ≡ 0 }
    {
        Growth {
            whole: bytes,
            since: 0,
            entries: 0,
        }
    }

    // One entry more.
    pub fn add(&mut self, bytes: usize)
        ensures whole { self.new.whole ≡ self.old.whole }
        ensures since { self.new.since ≡ capped (self.old.since + bytes) }
        ensures entries { self.new.entries ≡ capped (self.old.entries + 1) }
    {
        self.since = self.since.saturating_add(bytes);
        self.entries = self.entries.saturating_add(1);
    }

    // How many bytes of memory the trial of a text may take.
    pub fn most_for_trial(&self) -> usize {
        let bytes = self.whole.saturating_add(self.since);
        bytes
            .saturating_mul(FOR_EACH_BYTE)
            .saturating_add(LEAST_FOR_TRIAL)
    }

    // Whether there are more entries behind the first than these, or they have so many bytes that a checkpoint is worth its while.
    pub fn is_large(&self, most: usize) -> bool
        ensures { IsTrue result ↔ ((most < self.now.entries) ⊎ ((self.now.whole < self.now.since) × (2 ^ 20 < self.now.since))) }
    {
        if self.entries > most {
            return true;
        }
        self.since > self.whole && self.since > LEAST
    }
}

// Whether an entry is that of a whole repository.
fn is_whole(entry: &[u8]) -> bool
    ensures { IsTrue result ↔ IsWhole entry.now }
{
    strip_whole(entry).is_some() || strip_counted(entry).is_some()
}

// That of a journal with these entries.
pub fn growth_of(entries: &Texts) -> Growth
    ensures { IsGrowthOf entries.now result }
{
    let mut growth = Growth::of_whole(0);
    for i in 0..entries.len() {
        let entry = entries.text(i);
        if i == 0 && is_whole(entry) {
            growth = Growth::of_whole(entry.len());
        } else {
            growth.add(entry.len());
        }
    }
    growth
}
