//! What was taken, as JSON.
ghost use Rattle.std.specs.Prelude.{◌≡◌, List, ℕ, IfOk};
ghost use Rattle.dm_info.specs.PatchInfo.{PatchInfo};
ghost use Rattle.dm_bundle.specs.Patches.{infos_of};
ghost use Rattle.dm_repo.specs.Repositories.{Holds};
ghost use Rattle.dm_explain.specs.Fates.{AreChosen, lent};
ghost use Rattle.dm_log.specs.JsonObjects.{members_in};
ghost use Rattle.dm_scratch.specs.declared.verdict.Verdict.TheVariants as verdicts;
ghost use Rattle.dm_told.specs.Told.{TellsVerdict, taken};

use crate::named::{hashes_of, hashes_of_names, of_verdict};
use dm_bundle::Bundle;
use dm_deliver::Answer;
use dm_explain::{Account, account_of};
use dm_info::Info;
use dm_log::Object;
use dm_repo::{Policy, Repo};
use dm_scratch::Verdict;
use std::alloc::{AllocError, Global};

/// The hashes of the newest patches of a repository, so many.
pub(crate) fn taken_object(
    alloc: Global,
    word: &str,
    repo: &Repo<Global>,
    count: usize,
    answer: Answer,
) -> Result<Object, AllocError>
    ensures { IfOk result (λ o. members_in o ≡ taken word.now repo.now.patches count answer) }
{
    let mut object = of_verdict(alloc, word, answer)?;
    let before = repo.len().saturating_sub(count);
    object.put("hashes", hashes_of(alloc, &repo.patches()[before..])?)?;
    Ok(object)
}

/// The names of the new patches that the repository hasn't, where so many others were taken and so many skipped.
fn skipped_names<'a>(
    alloc: Global,
    repo: &'a Repo<Global>,
    bundle: &'a Bundle<Global>,
    count: usize,
    skipped: usize,
) -> Result<Vec<&'a Info<Global>>, AllocError>
    ensures { IfOk result (λ names. AreChosen (λ i. Holds repo.now.patches i → ⊥) (infos_of bundle.now.patches) (lent names.items)) }
{
    match account_of(
        alloc,
        repo,
        bundle,
        Policy::Skip,
        Verdict::TakenSome(count, skipped),
    )? {
        Account::Sorted(fates) => Ok(fates.skipped),
        _ => unreachable!(),
    }
}

/// Some patches that were taken, and others that were skipped.
pub(crate) fn taken_some(
    alloc: Global,
    repo: &Repo<Global>,
    bundle: &Bundle<Global>,
    count: usize,
    skipped: usize,
) -> Result<Object, AllocError>
    ensures { (text : List ℕ) → IfOk result (λ o. TellsVerdict repo.now.patches bundle.now text (verdicts.TakenSome count skipped) (members_in o)) }
{
    let answer = Answer::Verdict(Verdict::TakenSome(count, skipped));
    let mut object = taken_object(alloc, "taken", repo, count, answer)?;
    let names = skipped_names(alloc, repo, bundle, count, skipped)?;
    object.put("skipped", hashes_of_names(alloc, &names)?)?;
    Ok(object)
}
