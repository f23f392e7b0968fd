//! What is asked of the hash with which a bundle may end.
ghost use Rattle.std.specs.Prelude.{◌≡◌, ℕ, IfOk, IfSome, IfNone, IsTrue};
ghost use Rattle.dm_deliver.specs.declared.hash_rule.HashFaultKind.{HashFaultKind as Kind};
ghost use Rattle.dm_deliver.specs.Hashes.{hash_word, RefusesTrailer, HasHashFaultWithin, AsksNothing, PassesRuleWithin};

use dm_hash::{Trailer, read_hashed};
use dm_named::{FaultKind, Limits};
use memchr::memmem;
use std::alloc::{AllocError, Global};

/// What is asked of the hash with which a bundle may end.
#[derive(Clone, Copy, Debug, PartialEq, Eq)]
pub enum HashRule {
    /// Nothing.
    Any,
    /// There is none, or it is that of the bundle's patches.
    NotWrong,
    /// It is that of the bundle's patches.
    Right,
}

/// Why a bundle isn't taken for its hash.
#[derive(Clone, Copy, Debug, PartialEq, Eq)]
pub enum HashFaultKind {
    /// It isn't that of the bundle's patches.
    WrongHash,
    /// There is none.
    NoHash,
}

impl HashFaultKind {
    /// The word that is printed.
    pub fn word(self) -> &'static str
        ensures { result.now ≡ hash_word self }
    {
        match self {
            HashFaultKind::WrongHash => "wrong-hash",
            HashFaultKind::NoHash => "no-hash",
        }
    }
}

/// Why a bundle isn't taken for its hash, and at which byte the hash stands, or is due.
#[derive(Clone, Copy, Debug, PartialEq, Eq)]
pub struct HashFault {
    pub kind: HashFaultKind,
    pub at: usize,
}

// Why the rule refuses a bundle with this trailer, if it does.
fn refusal_of(rule: HashRule, trailer: Trailer) -> Option<HashFaultKind>
    ensures some { IfSome result (λ kind. RefusesTrailer rule trailer kind) }
    ensures none { IfNone result ((kind : Kind) → RefusesTrailer rule trailer kind → ⊥) }
{
    match rule {
        HashRule::Any => None,
        HashRule::NotWrong => match trailer {
            Trailer::Wrong => Some(HashFaultKind::WrongHash),
            Trailer::NoHash | Trailer::Right => None,
        },
        HashRule::Right => match trailer {
            Trailer::Wrong => Some(HashFaultKind::WrongHash),
            Trailer::NoHash => Some(HashFaultKind::NoHash),
            Trailer::Right => None,
        },
    }
}

// Whether the rule asks nothing of a text, by what begins a trailer. To read the text tells more and takes longer.
fn asks_nothing(text: &[u8], rule: HashRule) -> bool
    ensures { IsTrue result → AsksNothing rule text.now }
{
    match rule {
        HashRule::Any => true,
        HashRule::NotWrong => memmem::find(text, b"Patch bundle hash:").is_none(),
        HashRule::Right => false,
    }
}

/// What is wrong with the hash of a bundle within these limits, by a rule. `None` also for a text that is none.
pub fn hash_fault_within(
    alloc: Global,
    text: &[u8],
    limits: Limits,
    rule: HashRule,
) -> Result<Option<HashFault>, AllocError>
    ensures some { IfOk result (λ found. IfSome found (λ fault. HasHashFaultWithin limits rule text.now fault)) }
    ensures none { IfOk result (λ found. IfNone found (PassesRuleWithin limits rule text.now)) }
{
    if asks_nothing(text, rule) {
        return Ok(None);
    }
    match read_hashed(alloc, text, limits) {
        Ok(hashed) => match refusal_of(rule, hashed.trailer) {
            Some(kind) => Ok(Some(HashFault {
                kind,
                at: hashed.at,
            })),
            None => Ok(None),
        },
        Err(fault) => {
            if fault.kind == FaultKind::NoMemory {
                return Err(AllocError);
            }
            Ok(None)
        }
    }
}
