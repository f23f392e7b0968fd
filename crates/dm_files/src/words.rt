//! What words that several commands share ask for.
ghost use Rattle.std.specs.Prelude.{◌≡◌, not};
ghost use Rattle.dm_files.specs.Named.{kinds_for, policy_for};

use crate::word_fault::WordFault;
use dm_named::Kinds;
use dm_repo::Policy;

/// The kinds of primitives that are read: all where that is asked for, or six.
pub fn kinds_of(all_kinds: bool) -> Kinds
    ensures { result ≡ kinds_for all_kinds }
{
    if all_kinds { Kinds::All } else { Kinds::Six }
}

/// The kinds of primitives that a new mirror reads: six where that is asked for, or all.
pub fn new_kinds_of(six_kinds: bool) -> Kinds
    ensures { result ≡ kinds_for (not six_kinds) }
{
    if six_kinds { Kinds::Six } else { Kinds::All }
}

/// Refuses to read all kinds beside a mirror, which remembers what it reads.
pub fn refuse_kinds<'a>(all_kinds: bool) -> Result<(), WordFault<'a>> {
    if all_kinds {
        return Err(WordFault::KindsOfMirror);
    }
    Ok(())
}

/// What is done with patches that conflict: they are skipped where that is asked for.
pub fn policy_of(skip: bool) -> Policy
    ensures { result ≡ policy_for skip }
{
    if skip {
        return Policy::Skip;
    }
    Policy::Refuse
}
