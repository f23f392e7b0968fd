//! Why a command gives no answer.
ghost use Rattle.std.specs.Prelude.{◌≡◌, ◌≢◌, ◌⊎◌};
ghost use Rattle.dm_mirror.specs.declared.plan.PlanFault.TheVariants.{NoMemory as NoPlanMemory};
ghost use Rattle.dm_mirror.specs.declared.threads.RunFault.TheVariants.{NoMemory as NoRunMemory, NoThread as NoRunThread};
ghost use Rattle.dm_commands.specs.declared.fault.ToolFault.TheVariants.{NoMemory, NoThread, BadPlan, Write};

use dm_mirror::{PlanFault, RunFault, WriteFault};
use dm_named::{FaultKind, ReadFault};
use dm_repo::Refusal;
use dm_scratch::Verdict;
use std::alloc::{AllocError, AllocFailed};
use thiserror::Error;

/// Why a command gives no answer. The program prints it on standard error, after `dm: `.
#[derive(Clone, Copy, PartialEq, Eq, Debug, Error)]
pub enum ToolFault {
    /// The reader returned an error. Nothing was written.
    #[error("cannot read input")]
    Read,
    /// The writer returned an error, or took no byte. A prefix of the output was written.
    #[error("cannot write output")]
    Write,
    /// An allocation failed. Nothing was written.
    #[error("no memory")]
    NoMemory,
    /// The base isn't taken into an empty repository: the text is malformed, or its bundle refused. Nothing was read or written.
    #[error("base {0}")]
    BadBase(Verdict),
    /// There is no plan of these posters, bases and bound. Nothing was written.
    #[error("{0}")]
    BadPlan(PlanFault),
    /// A thread could not be started. Nothing was written.
    #[error("no thread")]
    NoThread,
    /// The text of what somebody holds tells no names. Nothing was written.
    #[error("theirs malformed {} {}", .0.kind.word(), .0.at)]
    BadNames(ReadFault),
    /// A bundle would have more new patches than `Limits::STANDARD` allows, or more primitives in one, or more replaces, or its text
    /// more bytes. Nothing was written.
    #[error("too many patches to send; --first N sends the first N")]
    TooManyToSend,
}

impl ToolFault {
    /// Why there is no answer after a base of this verdict, which isn't accepted.
    pub fn of_base(verdict: Verdict) -> ToolFault
        ensures { ((verdict ≡ Verdict.Refused Refusal.NoMemory) × (result ≡ ToolFault.NoMemory)) ⊎
            ((verdict ≢ Verdict.Refused Refusal.NoMemory) × (result ≡ ToolFault.BadBase verdict)) }
    {
        if verdict == Verdict::Refused(Refusal::NoMemory) {
            return ToolFault::NoMemory;
        }
        ToolFault::BadBase(verdict)
    }

    /// Why there is no answer to a text of names with this fault.
    pub fn of_names(fault: ReadFault) -> ToolFault
        ensures { ((fault.kind ≡ FaultKind.NoMemory) × (result ≡ ToolFault.NoMemory)) ⊎
            ((fault.kind ≢ FaultKind.NoMemory) × (result ≡ ToolFault.BadNames fault)) }
    {
        if fault.kind == FaultKind::NoMemory {
            return ToolFault::NoMemory;
        }
        ToolFault::BadNames(fault)
    }
}

impl From<PlanFault> for ToolFault {
    ghost from_gives = { λ fault e. ((fault ≡ NoPlanMemory) × (e ≡ NoMemory)) ⊎ ((fault ≢ NoPlanMemory) × (e ≡ BadPlan fault)) };

    fn from(fault: PlanFault) -> ToolFault {
        match fault {
            PlanFault::NoMemory => ToolFault::NoMemory,
            _ => ToolFault::BadPlan(fault),
        }
    }
}

impl From<RunFault> for ToolFault {
    ghost from_gives = { λ fault e. ((fault ≡ NoRunMemory) × (e ≡ NoMemory)) ⊎ ((fault ≡ NoRunThread) × (e ≡ NoThread)) };

    fn from(fault: RunFault) -> ToolFault {
        match fault {
            RunFault::NoMemory => ToolFault::NoMemory,
            RunFault::NoThread => ToolFault::NoThread,
        }
    }
}

impl From<WriteFault> for ToolFault {
    ghost from_gives = { λ _ e. e ≡ Write };

    fn from(fault: WriteFault) -> ToolFault {
        match fault {
            WriteFault::Device => ToolFault::Write,
        }
    }
}

impl From<AllocError> for ToolFault {
    ghost from_gives = { λ _ e. e ≡ NoMemory };

    fn from(_e: AllocError) -> ToolFault {
        ToolFault::NoMemory
    }
}

impl<T: Drop> From<AllocFailed<T>> for ToolFault {
    ghost from_gives = { λ _ e. e ≡ NoMemory };

    fn from(_e: AllocFailed<T>) -> ToolFault {
        ToolFault::NoMemory
    }
}
