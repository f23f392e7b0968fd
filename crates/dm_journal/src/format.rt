//! The formats of a journal's file, and what differs between them.
ghost use Rattle.std.specs.Prelude.{◌≡◌, ◌≤◌, ◌<◌, ◌+◌, ◌++◌, ◌^◌, length};
ghost use Rattle.sha2.specs.Sha256.{sha256};
ghost use Rattle.dm_journal.specs.Format.{line, unit, filling, filled, renewed};
ghost use Rattle.dm_journal.specs.Journal.{checksum_of, next_link, link_bytes};

use crate::lanes::lanes;
use sha2::{Digest, Sha256};

/// How the bytes of a journal's file are laid out.
#[derive(Clone, Copy, Debug, PartialEq, Eq)]
pub enum Format {
    /// Version 1: the parts stand right behind one another, and each checksum is that of its text alone.
    First,
    /// Version 2: each part begins a unit of 4,096 bytes, and each checksum follows on the one before it.
    Second,
    /// Version 4: as the second, with another line. There is no version 3, since a turned bit makes 3 of 2.
    Third,
    /// As the second, with a header of named fields, of which `kinds` and `checksum` each have one of two values.
    Fields(KindsField, ChecksumField),
}

/// What the field `kinds` says: which kinds of primitives the texts may have. A journal reads no text.
#[derive(Clone, Copy, Debug, PartialEq, Eq)]
pub enum KindsField {
    Six,
    All,
}

/// What the field `checksum` says: which checksum a block has.
#[derive(Clone, Copy, Debug, PartialEq, Eq)]
pub enum ChecksumField {
    /// SHA-256, as before the field was there.
    Sha256,
    /// Four lanes, at the speed of memory.
    Lanes,
}

/// What the next block follows on: a checksum, or nothing.
pub type Link = Option<[u8; 32]>;

impl Format {
    /// The header that a file of the format begins with, without what fills it up: one line, or several and an empty one.
    #[tactic(auto, unfolding(crate::specs::Format::line))]
    pub fn line(self) -> &'static [u8]
        ensures is { result.now ≡ line self }
        ensures few { length result.now < 2 ^ 6 }
    {
        match self {
            Format::First => b"dm journal 1\n",
            Format::Second => b"dm journal 2\n",
            Format::Third => b"dm journal 4\n",
            Format::Fields(KindsField::Six, ChecksumField::Sha256) => {
                b"dm journal fields\nkinds six\nchecksum sha256\nbase counted\n\n"
            }
            Format::Fields(KindsField::All, ChecksumField::Sha256) => {
                b"dm journal fields\nkinds all\nchecksum sha256\nbase counted\n\n"
            }
            Format::Fields(KindsField::Six, ChecksumField::Lanes) => {
                b"dm journal fields\nkinds six\nchecksum lanes\nbase counted\n\n"
            }
            Format::Fields(KindsField::All, ChecksumField::Lanes) => {
                b"dm journal fields\nkinds all\nchecksum lanes\nbase counted\n\n"
            }
        }
    }

    /// The bytes of a unit.
    #[tactic(auto, unfolding(crate::specs::Format::unit))]
    pub fn unit(self) -> usize
        ensures is { result ≡ unit self }
        ensures some { 1 ≤ result }
        ensures few { result ≤ 2 ^ 12 }
    {
        match self {
            Format::First => 1,
            Format::Second | Format::Third | Format::Fields(..) => 1 << 12,
        }
    }

    /// So many bytes, filled up to whole units.
    #[tactic(auto, unfolding(crate::specs::Format::filling))]
    pub fn filled(self, len: usize) -> usize
        requires { len ≤ 2 ^ 63 }
        ensures is { result ≡ filled self len }
        ensures few { result < len + 2 ^ 12 }
    {
        let unit = self.unit();
        len + (unit - len % unit) % unit
    }

    /// What a block follows on that stands behind one with this checksum.
    #[tactic(auto, unfolding(crate::specs::Journal::next_link))]
    pub fn next_link(self, checksum: [u8; 32]) -> Link
        ensures { link_bytes result ≡ next_link self checksum }
    {
        match self {
            Format::First => None,
            Format::Second | Format::Third | Format::Fields(..) => Some(checksum),
        }
    }

    /// The format of a file that takes the place of one of this format.
    #[tactic(auto, unfolding(crate::specs::Format::renewed))]
    pub fn renewed(self) -> Format
        ensures { result ≡ renewed self }
    {
        match self {
            Format::First | Format::Second => {
                Format::Fields(KindsField::Six, ChecksumField::Lanes)
            }
            Format::Third => Format::Fields(KindsField::All, ChecksumField::Lanes),
            Format::Fields(kinds, _) => Format::Fields(kinds, ChecksumField::Lanes),
        }
    }

    /// The checksum of a text that follows on a link.
    #[tactic(auto, unfolding(crate::specs::Journal::checksum_of))]
    pub fn checksum(self, link: Link, text: &[u8]) -> [u8; 32]
        ensures { result ≡ checksum_of self (link_bytes link) text.now }
    {
        match self {
            Format::Fields(_, ChecksumField::Lanes) => lanes(link, text),
            Format::First | Format::Second | Format::Third => sha256(link, text),
            Format::Fields(_, ChecksumField::Sha256) => sha256(link, text),
        }
    }
}

// The SHA-256 of the bytes of a link and a text.
fn sha256(link: Link, text: &[u8]) -> [u8; 32]
    ensures { result ≡ sha256 (link_bytes link ++ text.now) }
{
    let mut hasher = Sha256::new();
    if let Some(before) = link {
        hasher.update(before.as_slice());
    }
    hasher.update(text);
    hasher.finalize()
}
