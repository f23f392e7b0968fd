//! Why a text could not be read, and where.

ghost use Rattle.std.specs.Prelude.{◌≡◌};
ghost use Rattle.dm_named.specs.FaultWords.{fault_word};
ghost use Rattle.dm_named.specs.Faults.{kind_of_info};

use dm_info::InfoReadFault;
use std::alloc::AllocError;
use std::fmt::{self, Display, Formatter, Write};
use thiserror::Error;

/// What is wrong with a text. The printed word of each is its name in small letters with dashes.
#[derive(Clone, Copy, Debug, PartialEq, Eq)]
pub enum FaultKind {
    /// The text is longer than a bundle may be.
    TooLarge,
    /// No line is the heading of a bundle.
    NoNewPatches,
    /// What begins with an opening bracket is no patch info, or a named patch was to be read where there is no bracket.
    BadInfo,
    /// The patch info is that of an inverted patch.
    Inverted,
    /// Inside angle brackets, there is neither a patch info nor the closing bracket.
    BadDepends,
    /// Inside braces, there is neither a primitive nor the closing brace; or a part of a conflictor is due, and is not there.
    BadPatch,
    /// A patch of Darcs that this profile refuses, or a nested brace or parenthesis.
    Unsupported,
    /// There is no path where one must be.
    BadPath,
    /// There is no number after a hunk's path, or the number's line goes on with more than white space.
    BadNumber,
    /// A hunk has neither old nor new lines.
    EmptyHunk,
    /// The text ends inside braces, or inside a conflictor.
    Unclosed,
    /// There is neither a named patch nor the context where one must be.
    NoContext,
    /// A patch info is equal to that of an earlier new patch.
    Doubled,
    /// There are more new patches, more primitives in a patch, or more replaces, than a bundle may have.
    TooMany,
    /// An allocation failed. The place says how far the reader had come.
    NoMemory,
    /// After a binary's path, the old or the new content does not stand in hex.
    BadHex,
    /// After the path of a replace, there are no three words that are a set in brackets, without the newline, and two tokens of it.
    BadTokens,
    /// After `changepref`, there is no name alone on its line, or there are no lines for its old and its new value.
    BadPreference,
}

impl FaultKind {
    /// The word that is printed.
    pub fn word(self) -> &'static str
        ensures { result.now ≡ fault_word self }
    {
        match self {
            FaultKind::TooLarge => "too-large",
            FaultKind::NoNewPatches => "no-new-patches",
            FaultKind::BadInfo => "bad-info",
            FaultKind::Inverted => "inverted",
            FaultKind::BadDepends => "bad-depends",
            FaultKind::BadPatch => "bad-patch",
            FaultKind::Unsupported => "unsupported",
            FaultKind::BadPath => "bad-path",
            FaultKind::BadNumber => "bad-number",
            FaultKind::EmptyHunk => "empty-hunk",
            FaultKind::Unclosed => "unclosed",
            FaultKind::NoContext => "no-context",
            FaultKind::Doubled => "doubled",
            FaultKind::TooMany => "too-many",
            FaultKind::NoMemory => "no-memory",
            FaultKind::BadHex => "bad-hex",
            FaultKind::BadTokens => "bad-tokens",
            FaultKind::BadPreference => "bad-preference",
        }
    }
}

impl Display for FaultKind {
    ghost use Rattle.std.specs.Prelude.{Some};

    ghost output = { λ kind. Some (fault_word kind) };

    fn fmt<W: Write>(&self, f: &mut Formatter<W>) -> fmt::Result {
        f.write_str(self.word())
    }
}

impl From<InfoReadFault> for FaultKind {
    ghost from_gives = { λ fault kind. kind ≡ kind_of_info fault };

    fn from(fault: InfoReadFault) -> FaultKind {
        match fault {
            InfoReadFault::BadInfo => FaultKind::BadInfo,
            InfoReadFault::Inverted => FaultKind::Inverted,
            InfoReadFault::NoMemory => FaultKind::NoMemory,
        }
    }
}

/// What is wrong, and the place of the byte where it is.
#[derive(Clone, Copy, Debug, PartialEq, Eq, Error)]
#[error("{kind} at byte {at}")]
pub struct ReadFault {
    pub kind: FaultKind,
    pub at: usize,
}

impl ReadFault {
    /// The fault for an allocation that failed when the reader had come to this place.
    pub fn no_memory(_error: AllocError, at: usize) -> ReadFault
        ensures kind { result.kind ≡ FaultKind.NoMemory }
        ensures place { result.at ≡ at }
    {
        ReadFault {
            kind: FaultKind::NoMemory,
            at,
        }
    }
}
