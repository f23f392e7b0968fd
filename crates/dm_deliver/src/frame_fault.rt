//! Why a stream of frames gives no text.
ghost use Rattle.std.specs.Prelude.{◌≡◌};
ghost use Rattle.dm_deliver.specs.declared.frame_fault.FrameFaultKind.TheVariants.{NoMemory};

use dm_named::Limits;
use std::alloc::AllocError;
use thiserror::Error;

/// Why there is no text.
#[derive(Clone, Copy, Debug, PartialEq, Eq, Error)]
pub enum FrameFaultKind {
    /// No length stands here that is plain decimal and within `Limits::OWN`.
    #[error("a line with a length was due: a plain decimal number up to {}", Limits::OWN.bytes)]
    BadLength,
    /// The stream ends in the middle of the frame.
    #[error("the input ends in the middle")]
    Cut,
    /// The reader returned an error, an interruption too.
    #[error("cannot read input")]
    Read,
    /// An allocation failed.
    #[error("no memory")]
    NoMemory,
    /// 2⁶⁴ - 1 texts were given; no more are counted.
    #[error("too many frames")]
    TooMany,
}

/// Why a stream gives no text, and in which frame, from 0 on.
#[derive(Clone, Copy, Debug, PartialEq, Eq, Error)]
#[error("frame {frame}: {kind}")]
pub struct FrameFault {
    pub kind: FrameFaultKind,
    pub frame: u64,
}

impl From<AllocError> for FrameFaultKind {
    ghost from_gives = { λ _ kind. kind ≡ NoMemory };

    fn from(_: AllocError) -> Self {
        FrameFaultKind::NoMemory
    }
}
