//! The names of a path, their escapes resolved.

ghost use Rattle.std.specs.Prelude.{◌≡◌, ◌<◌, ◌∷◌, Some, List, ℕ, length, IfOk, IfSome, IfNone, IfErr, MatchOption};
ghost use Rattle.dm_named.specs.Paths.{IsCode, NameByte, IsNameText};
ghost use Rattle.dm_tree.specs.Limits.{most_name_bytes};
ghost use Rattle.dm_tree.specs.Validity.{path_fault_of};
ghost use Rattle.dm_named.specs.declared.reading.names.NameFault.TheVariants.{BadPath, NoMemory};
ghost use Rattle.dm_named.specs.Faults.{kind_of_name};

use crate::fault::FaultKind;
use dm_tree::{MOST_NAME_BYTES, PathFault};
use memchr::memchr;
use std::alloc::{AllocError, AllocFailed, Allocator};

/// Why a name or a path could not be read.
#[derive(Clone, Copy)]
pub(crate) enum NameFault {
    /// The text is not that of a name or a path.
    BadPath,
    /// An allocation failed.
    NoMemory,
}

impl From<AllocError> for NameFault {
    ghost from_gives = { λ _ e. e ≡ NoMemory };

    fn from(_e: AllocError) -> NameFault {
        NameFault::NoMemory
    }
}

impl<T: Drop> From<AllocFailed<T>> for NameFault {
    ghost from_gives = { λ _ e. e ≡ NoMemory };

    fn from(_e: AllocFailed<T>) -> NameFault {
        NameFault::NoMemory
    }
}

impl From<PathFault> for NameFault {
    ghost from_gives = { λ f e. e ≡ BadPath → path_fault_of f ≡ Some f };

    fn from(fault: PathFault) -> NameFault {
        match fault {
            PathFault::Empty => NameFault::BadPath,
            PathFault::BadName => NameFault::BadPath,
            PathFault::TooDeep => NameFault::BadPath,
            PathFault::TooLong => NameFault::BadPath,
            PathFault::NoMemory => NameFault::NoMemory,
        }
    }
}

impl From<NameFault> for FaultKind {
    ghost from_gives = { λ fault kind. kind ≡ kind_of_name fault };

    fn from(fault: NameFault) -> FaultKind {
        match fault {
            NameFault::BadPath => FaultKind::BadPath,
            NameFault::NoMemory => FaultKind::NoMemory,
        }
    }
}

/// The byte whose code is spelled by these digits.
fn byte_of_code(digits: &[u8]) -> Option<u8>
    ensures found { IfSome result (λ b. IsCode digits.now b) }
    ensures none { IfNone result ((b : ℕ) → IsCode digits.now b → ⊥) }
{
    if digits.len() > 3 {
        return None;
    }
    let mut number: u16 = 0;
    for digit in digits {
        if *digit < b'0' || *digit > b'9' {
            return None;
        }
        number = 10 * number + (*digit - b'0') as u16;
    }
    if number == 0 || number > 127 {
        return None;
    }
    Some(number as u8)
}

/// The text after this byte, if it begins with it.
pub(crate) fn strip(byte: u8, text: &[u8]) -> Option<&[u8]>
    ensures { MatchOption result ((rest : List ℕ) → text.now ≡ byte ∷ rest → ⊥) (λ rest. text.now ≡ byte ∷ rest.now) }
{
    match text {
        [first, rest @ ..] if *first == byte => Some(rest),
        _ => None,
    }
}

/// The byte at the front, its escape resolved, and the text after it.
fn byte_of(text: &[u8]) -> Option<(u8, &[u8])>
    ensures found { IfSome result (λ x. NameByte text.now x.0 x.1.now) }
    ensures none { IfNone result ((b : ℕ) (rest : List ℕ) → NameByte text.now b rest → ⊥) }
{
    let Some(inside) = strip(b'\\', text) else {
        return match text {
            [byte, rest @ ..] => Some((*byte, rest)),
            [] => None,
        };
    };
    let end = memchr(b'\\', inside)?;
    let byte = byte_of_code(&inside[..end])?;
    Some((byte, &inside[end + 1..]))
}

/// The bytes of a name, its escapes resolved. More than a name may have are a fault.
pub(crate) fn name_of<A: Allocator>(alloc: A, text: &[u8]) -> Result<Vec<u8, A>, NameFault>
    ensures found { IfOk result (λ name. IsNameText text.now name.items) }
    ensures none { IfErr result (λ e. (e ≡ NameFault.BadPath) → (name : List ℕ) → IsNameText text.now name → most_name_bytes < length name) }
{
    let mut name = Vec::with_capacity(alloc, text.len().min(MOST_NAME_BYTES))?;
    let mut rest = text;
    while !rest.is_empty() {
        if name.len() >= MOST_NAME_BYTES {
            return Err(NameFault::BadPath);
        }
        let Some((byte, next)) = byte_of(rest) else {
            return Err(NameFault::BadPath);
        };
        name.push(byte)?;
        rest = next;
    }
    Ok(name)
}
