//! Why the words of a command start nothing, or why what they started gives no answer.
ghost use Rattle.std.specs.Prelude.{◌≡◌};
ghost use Rattle.dm_commands.specs.declared.fault.ToolFault.TheVariants.{NoMemory};
ghost use Rattle.dm_files.specs.declared.word_fault.WordFault.TheVariants.{Tool};

use crate::input::said;
use crate::names_fault::NamesFault;
use crate::take_back_fault::TakeBackFault;
use dm_commands::ToolFault;
use dm_deliver::{AnswerError, DeliverError, FrameFault, FrameFaultKind};
use dm_disk::OpenFault;
use dm_journal::WriteError;
use dm_mirror::PlanFault;
use dm_scratch::Verdict;
use dm_store::StoreError;
use std::alloc::{AllocError, AllocFailed};
use std::{fmt, io};
use thiserror::Error;

/// Why a command gives no answer. The program prints it on standard error, after `dm: `.
#[derive(Clone, Copy, Debug, Error)]
pub enum WordFault<'a> {
    /// The word of a poster has no `=`, or nothing before it.
    #[error("bad poster word {0}")]
    BadPosterWord(&'a str),
    /// The file of this name can't be read.
    #[error("cannot read {0}")]
    Unreadable(&'a str, io::Error),
    /// Standard input can't be read.
    #[error("cannot read input")]
    UnreadableInput(io::Error),
    /// The file of this name keeps a mirror, where a text was due.
    #[error("{0} is a mirror; use --mirror FILE")]
    Mirror(&'a str),
    /// The base of this name isn't taken into an empty repository.
    #[error("base {1}")]
    BadBase(&'a str, Verdict),
    /// There is no plan of so many posters, mirrors, waiting mails or bundles.
    #[error("{0}")]
    BadPlan(PlanFault, usize),
    /// The mirror of this name can't be opened as a file.
    #[error("cannot open {0}: {1}")]
    Unopened(&'a str, OpenFault),
    /// The file of this name keeps no mirror.
    #[error("cannot open {0}: {1}")]
    BadMirror(&'a str, StoreError),
    /// The file of this name keeps a mirror, and the closed latch at this place hides bundles behind it.
    #[error("cannot open {0}: byte {1} was changed to 0, and hides bundles: write 255 there, or restore the file")]
    Hidden(&'a str, usize),
    /// A mirror of this name was to be made, and there is one.
    #[error("{0} is a mirror already")]
    MirrorIsThere(&'a str),
    /// The mirror of this name begins at a tag, and was to be printed as a bundle.
    #[error("{0} begins at a tag, and can't be printed as a bundle; copy the file")]
    BeginsAtTag(&'a str),
    /// The mirror of this name can't be written. What was answered before stands; of the last bundle nobody knows until the mirror
    /// is opened again.
    #[error("cannot write {0}: {1}")]
    Unwritten(&'a str, WriteError),
    /// The same, with what the system says.
    #[error("cannot write {0}: {1}")]
    Failed(&'a str, io::Error),
    /// The mirror of this name can't be synced. What the system shows of it then may not be on the disk.
    #[error("cannot sync {0}: {1}")]
    Unsynced(&'a str, io::Error),
    /// The bundles on standard input end, or can't be told apart. All before this frame are answered.
    #[error("{0}")]
    BadFrame(FrameFault),
    /// The kinds of primitives were named beside a mirror.
    #[error("a mirror remembers which kinds it reads; dm upgrade makes it read all")]
    KindsOfMirror,
    /// Names in a file tell nothing, or no mirror begins with them.
    #[error("{0}")]
    Names(NamesFault<'a>),
    /// Patches aren't taken out of a mirror, or not undone.
    #[error("{0}")]
    TakeBack(TakeBackFault<'a>),
    /// The command gives no answer.
    #[error("{0}")]
    Tool(ToolFault),
    /// There is no answer, and it was said why.
    #[error("no answer")]
    Said,
}

impl<'a> WordFault<'a> {
    /// Why a base of this name begins nothing.
    pub fn of_base(name: &'a str, fault: ToolFault) -> WordFault<'a> {
        match fault {
            ToolFault::BadBase(verdict) => WordFault::BadBase(name, verdict),
            _ => WordFault::Tool(fault),
        }
    }

    /// Why a bundle isn't answered that was to be taken into the mirror of this name.
    pub fn of_answer(mirror: &'a str, fault: AnswerError) -> WordFault<'a> {
        match fault {
            AnswerError::Store(fault) => WordFault::Unwritten(mirror, fault),
            AnswerError::NoMemory => WordFault::Tool(ToolFault::NoMemory),
            AnswerError::Write => WordFault::Tool(ToolFault::Write),
        }
    }

    /// Why the next of the bundles that come one after the other on standard input isn't there.
    pub fn of_frame(fault: FrameFault) -> WordFault<'a> {
        match fault.kind {
            FrameFaultKind::NoMemory => WordFault::Tool(ToolFault::NoMemory),
            _ => WordFault::BadFrame(fault),
        }
    }
}

/// What there is to say beside the line of a fault. It has no newline at its end.
#[derive(Clone, Copy, Debug)]
pub struct Reason<'a>(pub WordFault<'a>);

impl fmt::Display for Reason<'_> {
    fn fmt<W: fmt::Write>(&self, f: &mut fmt::Formatter<W>) -> fmt::Result {
        match &self.0 {
            WordFault::Unreadable(_, error) | WordFault::UnreadableInput(error) => {
                write!(f, "{error}")
            }
            WordFault::BadPosterWord(_) => {
                write!(f, "POSTER=FILE is wanted, such as ann=first.bundle")
            }
            WordFault::BadPlan(PlanFault::Posters, count) => {
                write!(f, "there are 1 to 8 posters, not {count}")
            }
            WordFault::BadPlan(PlanFault::Mirrors, count) => {
                write!(f, "there are 1 to 8 mirrors, not {count}")
            }
            WordFault::BadPlan(PlanFault::Bound, count) => {
                write!(f, "the bound is 1 to 64, not {count}")
            }
            WordFault::BadPlan(PlanFault::TooManyBundles, count) => {
                write!(f, "a poster sends 1,000 bundles at most, not {count}")
            }
            fault => write!(f, "{fault}"),
        }
    }
}

/// A fault in one line that says all: which file, and why.
#[derive(Clone, Copy, Debug)]
pub struct Told<'a>(pub WordFault<'a>);

impl fmt::Display for Told<'_> {
    fn fmt<W: fmt::Write>(&self, f: &mut fmt::Formatter<W>) -> fmt::Result {
        match &self.0 {
            WordFault::Unreadable(_, error) | WordFault::UnreadableInput(error) => {
                write!(f, "{}: {error}", self.0)
            }
            WordFault::BadBase(name, verdict) => write!(f, "{}: {verdict}", said(name)),
            fault => write!(f, "{fault}"),
        }
    }
}

/// Whether there is more to say of a fault than its line.
pub fn has_reason(fault: WordFault<'_>) -> bool {
    match fault {
        WordFault::Unreadable(_, _) | WordFault::UnreadableInput(_) | WordFault::BadPosterWord(_) =>
            true,
        WordFault::BadPlan(fault, _) => matches!(
            fault,
            PlanFault::Posters | PlanFault::Mirrors | PlanFault::Bound | PlanFault::TooManyBundles
        ),
        _ => false,
    }
}

impl From<ToolFault> for WordFault<'_> {
    fn from(fault: ToolFault) -> Self {
        WordFault::Tool(fault)
    }
}

impl From<AllocError> for WordFault<'_> {
    ghost from_gives = { λ _ fault. fault ≡ Tool NoMemory };

    fn from(error: AllocError) -> Self {
        WordFault::Tool(ToolFault::from(error))
    }
}

impl<T: Drop> From<AllocFailed<T>> for WordFault<'_> {
    ghost from_gives = { λ _ fault. fault ≡ Tool NoMemory };

    fn from(error: AllocFailed<T>) -> Self {
        WordFault::Tool(ToolFault::from(error))
    }
}
