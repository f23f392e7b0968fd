//! What a call answers: `dm_status`.
ghost use Rattle.std.specs.Prelude.{◌≡◌};
ghost use Rattle.dm_c.specs.Numbers.{status_number, status_of};
ghost use Rattle.dm_c.specs.declared.status.Status.TheVariants.{NoMemory};

use dm_repo::Refusal;
use dm_scratch::Verdict;
use std::alloc::{AllocError, AllocFailed};

/// What a call answers.
#[derive(Clone, Copy, PartialEq, Eq, Debug)]
pub enum Status {
    /// It is done.
    Done,
    /// The room for the text is too small.
    Short,
    /// An allocation failed.
    NoMemory,
    /// There is nothing of what was asked for.
    Nothing,
    /// The answer is no.
    No,
    /// A number of the caller stands for nothing.
    BadNumber,
    /// The handle holds no repository, or holds one already.
    NoRepo,
}

impl Status {
    /// Its number in C.
    pub fn number(self) -> u32
        ensures { result ≡ status_number self }
    {
        match self {
            Status::Done => 0,
            Status::Short => 1,
            Status::NoMemory => 2,
            Status::Nothing => 3,
            Status::No => 4,
            Status::BadNumber => 5,
            Status::NoRepo => 6,
        }
    }
}

impl From<AllocError> for Status {
    ghost from_gives = { λ _ status. status ≡ NoMemory };

    fn from(_: AllocError) -> Status {
        Status::NoMemory
    }
}

impl<T: Drop> From<AllocFailed<T>> for Status {
    ghost from_gives = { λ _ status. status ≡ NoMemory };

    fn from(_: AllocFailed<T>) -> Status {
        Status::NoMemory
    }
}

/// The status that a verdict on a text has.
impl From<Verdict> for Status {
    ghost from_gives = { λ verdict status. status ≡ status_of verdict };

    fn from(verdict: Verdict) -> Status {
        match verdict {
            Verdict::Taken(_) | Verdict::TakenSome(_, _) | Verdict::NothingNew => Status::Done,
            Verdict::Malformed(_) => Status::No,
            Verdict::Refused(Refusal::NoMemory) => Status::NoMemory,
            Verdict::Refused(_) => Status::No,
        }
    }
}
