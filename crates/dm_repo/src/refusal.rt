//! Why a bundle isn't taken.
ghost use Rattle.std.specs.Prelude.{◌≡◌};
ghost use Rattle.dm_repo.specs.declared.refusal.Refusal.TheVariants.{NoMemory};

use std::alloc::{AllocError, AllocFailed};
use std::fmt::{Display, Error, Formatter, Write};

/// Why a bundle isn't taken, in the order in which the steps of weighing tell it. Places count from 0.
#[derive(Clone, Copy, PartialEq, Eq, Debug)]
pub enum Refusal {
    /// The context's patch info at this place isn't held.
    MissingContext(usize),
    /// The new patch at the first place names, at the second place of its dependencies, what is neither common nor an earlier new patch.
    MissingDependency(usize, usize),
    /// The common patch held at the first place depends on the patch held at the second, which isn't common.
    ContextDepends(usize, usize),
    /// The new patch at the first place is held, and depends on the one at the second, which isn't.
    HeldDepends(usize, usize),
    /// The new patch at this place doesn't apply to what the bundle was made from.
    DoesNotFit(usize),
    /// The new patch at the first place conflicts with the patch held at the second.
    Conflicts(usize, usize),
    /// The repository would have more than 100,000 patches, or a path would have more than 32 names.
    Full,
    /// An allocation failed.
    NoMemory,
}

impl Display for Refusal {
    ghost use Rattle.std.specs.Prelude.{Some};
    ghost use Rattle.dm_repo.specs.Words.{refusal_text};

    ghost output = { λ refusal. Some (refusal_text refusal) };

    fn fmt<W: Write>(&self, f: &mut Formatter<W>) -> Result<(), Error> {
        match self {
            Refusal::MissingContext(c) => write!(f, "missing-context {c}"),
            Refusal::MissingDependency(n, d) => write!(f, "missing-dependency {n} {d}"),
            Refusal::ContextDepends(h, r) => write!(f, "context-depends {h} {r}"),
            Refusal::HeldDepends(h, n) => write!(f, "held-depends {h} {n}"),
            Refusal::DoesNotFit(n) => write!(f, "does-not-fit {n}"),
            Refusal::Conflicts(n, h) => write!(f, "conflicts {n} {h}"),
            Refusal::Full => f.write_str("full"),
            Refusal::NoMemory => f.write_str("no-memory"),
        }
    }
}

impl From<AllocError> for Refusal {
    ghost from_gives = { λ _ refusal. refusal ≡ NoMemory };

    fn from(_: AllocError) -> Refusal {
        Refusal::NoMemory
    }
}

impl<T: Drop> From<AllocFailed<T>> for Refusal {
    ghost from_gives = { λ _ refusal. refusal ≡ NoMemory };

    fn from(_: AllocFailed<T>) -> Refusal {
        Refusal::NoMemory
    }
}
