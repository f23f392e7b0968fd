//! What becomes of a bundle.
ghost use Rattle.std.specs.Prelude.{◌≡◌, ◌≢◌, ◌↔◌, ◌⊎◌, IsTrue};
ghost use Rattle.dm_repo.specs.declared.refusal.Refusal.TheVariants.{NoMemory};
ghost use Rattle.dm_scratch.specs.Taking.{IsAccepted, IsUnread};
ghost use Rattle.dm_scratch.specs.declared.verdict.Verdict.TheVariants.{Refused};

use bumpalo::ResetError;
use dm_named::{FaultKind, ReadFault};
use dm_repo::Refusal;
use std::fmt;

/// What becomes of a text that is taken into a repository.
#[derive(Clone, Copy, PartialEq, Eq, Debug)]
pub enum Verdict {
    /// So many patches were taken, which is all that weren't held.
    Taken(usize),
    /// So many patches were taken, and so many others skipped, at least one of each.
    TakenSome(usize, usize),
    /// The repository has every new patch of the bundle already.
    NothingNew,
    /// The text is no bundle's: what is wrong, and at which byte. The repository is as it was.
    Malformed(ReadFault),
    /// The bundle isn't taken. The repository is as it was.
    Refused(Refusal),
}

impl Verdict {
    /// The verdict on a text that couldn't be read. Out of memory is a refusal.
    pub fn unread(fault: ReadFault) -> Verdict
        ensures { IsUnread fault result }
    {
        if fault.kind == FaultKind::NoMemory {
            return Verdict::Refused(Refusal::NoMemory);
        }
        Verdict::Malformed(fault)
    }

    /// The verdict on a bundle of which so many patches were taken and so many skipped.
    pub(crate) fn of_counts(taken: usize, skipped: usize) -> Verdict
        ensures { ((skipped ≡ 0) × (result ≡ Verdict.Taken taken)) ⊎ ((skipped ≢ 0) × (result ≡ Verdict.TakenSome taken skipped)) }
    {
        if skipped == 0 {
            return Verdict::Taken(taken);
        }
        Verdict::TakenSome(taken, skipped)
    }

    /// Whether the repository has all of the bundle's patches now.
    pub fn is_accepted(&self) -> bool
        ensures { IsTrue result ↔ IsAccepted self.now }
    {
        match self {
            Verdict::Taken(_) => true,
            Verdict::TakenSome(_, _) => false,
            Verdict::NothingNew => true,
            Verdict::Malformed(_) => false,
            Verdict::Refused(_) => false,
        }
    }
}

impl From<ResetError> for Verdict {
    ghost from_gives = { λ _ verdict. verdict ≡ Refused NoMemory };

    fn from(_: ResetError) -> Verdict {
        Verdict::Refused(Refusal::NoMemory)
    }
}

impl fmt::Display for Verdict {
    ghost use Rattle.std.specs.Prelude.{Some};
    ghost use Rattle.dm_scratch.specs.Words.{verdict_text};

    ghost output = { λ verdict. Some (verdict_text verdict) };

    fn fmt<W: fmt::Write>(&self, f: &mut fmt::Formatter<W>) -> fmt::Result {
        match self {
            Verdict::Taken(count) => write!(f, "taken {count}"),
            Verdict::TakenSome(count, skipped) => write!(f, "taken {count} skipped {skipped}"),
            Verdict::NothingNew => f.write_str("nothing new"),
            Verdict::Malformed(fault) => write!(f, "malformed {} {}", fault.kind.word(), fault.at),
            Verdict::Refused(refusal) => write!(f, "refused {refusal}"),
        }
    }
}
