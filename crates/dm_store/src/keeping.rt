//! Journals that keep a given repository: begun, and put in the place of another.
ghost use Rattle.std.specs.Prelude.{◌≡◌, ◌≢◌, ◌⊎◌, ◌<◌, List, ℕ, [], IfOk, IfErr, IfSome, IfNone, IsErrOf};
ghost use Rattle.dm_journal.specs.declared.fault.WriteError.TheVariants.{TooLong, Full};
ghost use Rattle.dm_journal.specs.Device.{IsDurable, LeavesOnly};
ghost use Rattle.dm_journal.specs.Ready.{HasTexts, IsBeside, IsFailure};
ghost use Rattle.dm_bundle.specs.Patches.{AreAllOf};
ghost use Rattle.dm_begin.specs.Bases.{MayHaveBase};
ghost use Rattle.dm_store.specs.Growth.{IsGrowthOf};
ghost use Rattle.dm_store.specs.Kinds.{kinds_of, format_of};
ghost use Rattle.dm_store.specs.Keeping.{KeepsRepo, KeepsEither, Kept, IsOrKeeps, FoldTo, FitsOneEntry, entries_of_all, kept_as};

use crate::growth::Growth;
use crate::kinds::{format_of, kinds_of};
use crate::whole::entry_of_repo;
use dm_journal::{Device, Journal, WriteError};
use dm_named::Kinds;
use dm_repo::Repo;
use std::alloc::Global;

// Puts a journal that keeps this repository and this base in the place of the file.
pub fn begin<D: Device>(
    alloc: Global,
    device: D,
    kinds: Kinds,
    base: usize,
    repo: &Repo<Global>,
) -> Result<(Journal<D>, Growth), (WriteError, D)>
    requires { IsDurable D.seen D.may_leave D.file_may_leave device }
    ensures stored { IfOk result (λ r. (entries : List (List ℕ)) × HasTexts D.seen D.may_leave D.file_may_leave r.0 entries × FoldTo kinds entries (kept_as base repo.now.patches)
        × IsGrowthOf entries r.1) }
    ensures format { IfOk result (λ r. r.0.end.format ≡ format_of kinds) }
    ensures any_moment { IfOk result (λ r. LeavesOnly D.moment D.left_since device r.0.device (IsOrKeeps kinds (D.seen device) (kept_as base repo.now.patches))) }
    ensures any_moment_err { IfErr result (λ e. LeavesOnly D.moment D.left_since device e.1 (IsOrKeeps kinds (D.seen device) (kept_as base repo.now.patches))) }
    ensures failed { IfErr result (λ e. IsFailure e.0 → D.faults device < D.faults e.1) }
    ensures too_long { IfErr result (λ e. e.0 ≡ TooLong → AreAllOf kinds repo.now.patches → MayHaveBase repo.now.patches base → (repo.now.patches ≢ []) × (FitsOneEntry repo.now.patches → ⊥)) }
    ensures not_full { IfErr result (λ e. e.0 ≡ Full → ⊥) }
{
    let format = format_of(kinds);
    if repo.is_empty() && base == 0 {
        return match Journal::create(alloc, device, format, &[]) {
            Ok(journal) => Ok((journal, Growth::of_whole(0))),
            Err(error) => Err(error),
        };
    }
    let entry = match entry_of_repo(alloc, kinds, base, repo) {
        Ok(Some(entry)) => entry,
        Ok(None) => return Err((WriteError::TooLong, device)),
        Err(error) => return Err((error, device)),
    };
    let bytes = entry.len();
    match Journal::create_of(alloc, device, format, entry) {
        Ok(journal) => Ok((journal, Growth::of_whole(bytes))),
        Err(error) => Err(error),
    }
}

// Puts the entries of this repository and this base in the place of those that the journal has: none of one without patches, and one
// of any other, if it fits, is of the journal's kinds, and may have the base. `None` where it doesn't, isn't, or mayn't.
pub fn put_repo<D: Device>(
    alloc: Global,
    journal: &mut Journal<D>,
    base: usize,
    repo: &Repo<Global>,
) -> Result<Option<Growth>, WriteError>
    requires { IsDurable D.seen D.may_leave D.file_may_leave journal.old.device }
    ensures entries { IfOk result (λ put. IfSome put (λ _. HasTexts D.seen D.may_leave D.file_may_leave journal.new (entries_of_all (kept_as base repo.now.patches)))) }
    ensures folds { IfOk result (λ put. IfSome put (λ _. FoldTo (kinds_of journal.old.end.format) (entries_of_all (kept_as base repo.now.patches)) (kept_as base repo.now.patches))) }
    ensures grown { IfOk result (λ put. IfSome put (IsGrowthOf (entries_of_all (kept_as base repo.now.patches)))) }
    ensures of_kinds { IfOk result (λ put. IfSome put (λ _. AreAllOf (kinds_of journal.old.end.format) repo.now.patches)) }
    ensures fits { IfOk result (λ put. IfSome put (λ _. (repo.now.patches ≡ []) ⊎ FitsOneEntry repo.now.patches)) }
    ensures may { IfOk result (λ put. IfSome put (λ _. MayHaveBase repo.now.patches base)) }
    ensures some { IfOk result (λ put. IfNone put (MayHaveBase repo.now.patches base → repo.now.patches ≢ [])) }
    ensures none { IfOk result (λ put. IfNone put (AreAllOf (kinds_of journal.old.end.format) repo.now.patches → MayHaveBase repo.now.patches base
        → FitsOneEntry repo.now.patches → ⊥)) }
    ensures kinds { kinds_of journal.new.end.format ≡ kinds_of journal.old.end.format }
    ensures unwritten { IfOk result (λ put. IfNone put (journal.new ≡ journal.old)) }
    ensures any_moment { (old : Kept) → KeepsRepo (kinds_of journal.old.end.format) (D.seen journal.old.device) old
        → LeavesOnly D.moment D.left_since journal.old.device journal.new.device (KeepsEither (kinds_of journal.old.end.format) old (kept_as base repo.now.patches)) }
    ensures untouched { IfErr result (λ e. IsBeside e → (old : List (List ℕ)) → HasTexts D.seen D.may_leave D.file_may_leave journal.old old
        → HasTexts D.seen D.may_leave D.file_may_leave journal.new old) }
    ensures failed { IfErr result (λ e. IsFailure e → D.faults journal.old.device < D.faults journal.new.device) }
    ensures not_too_long { IsErrOf result TooLong → ⊥ }
    ensures not_full { IsErrOf result Full → ⊥ }
{
    if repo.is_empty() && base == 0 {
        journal.replace(alloc, &[])?;
        return Ok(Some(Growth::of_whole(0)));
    }
    let kinds = kinds_of(journal.format());
    let Some(entry) = entry_of_repo(alloc, kinds, base, repo)? else {
        return Ok(None);
    };
    let bytes = entry.len();
    journal.replace_by(alloc, entry)?;
    Ok(Some(Growth::of_whole(bytes)))
}
