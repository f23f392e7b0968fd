//! Which held patches are common to a repository and a bundle, and which new patches are held.
ghost use Rattle.std.specs.Prelude.{◌≡◌, ◌↔◌, true, length, All, Contains, IsTrue, MatchResult};
ghost use Rattle.dm_bundle.specs.Patches.{infos_of, Distinct};
ghost use Rattle.dm_repo.specs.CommonSets.{Closed, First, HoldsAll, KnowsContext, LacksAt};
ghost use Rattle.dm_repo.specs.MarkLists.{AreMarksOf, AddsMarks};
ghost use Rattle.dm_repo.specs.Marking.{AreMarked, RefusesContext};

use crate::refusal::Refusal;
use crate::repo::Repo;
use dm_bundle::Bundle;
use dm_info::Info;
use std::alloc::Allocator;

/// For each patch held, whether it is common; for each new patch, whether it is held.
#[derive(Drop)]
pub(crate) struct Marks<A: Allocator> {
    pub common: Vec<bool, A>,
    pub held: Vec<bool, A>,
}

/// Whether all marks are set.
pub(crate) fn are_set(marks: &[bool]) -> bool
    ensures { IsTrue result ↔ All (λ mark. mark ≡ true) marks.now }
{
    marks.iter().all(|mark| *mark)
}

/// Marks the patches of these names, or returns the place of the first that isn't held. They are those that the patch at this place
/// depends on: a tag names many that stand in a row.
fn mark<A: Allocator>(
    repo: &Repo<A>,
    place: usize,
    infos: &[Info<A>],
    marks: &mut [bool],
) -> Result<(), usize>
    requires marks { length marks.old ≡ length repo.now.patches }
    requires distinct { Distinct (infos_of repo.now.patches) }
    ensures { MatchResult result
        (λ _. AddsMarks marks.old marks.new (infos_of repo.now.patches) infos.now × HoldsAll repo.now.patches infos.now)
        (λ c. First (LacksAt repo.now.patches infos.now) c) }
{
    let mut last = place;
    for c in 0..infos.len() {
        match repo.position_beside(last, &infos[c]) {
            None => return Err(c),
            Some(k) => {
                marks[k] = true;
                last = k;
            }
        }
    }
    Ok(())
}

/// Marks the context.
fn context_marks<A: Allocator + Copy, B: Allocator + Copy>(
    alloc: B,
    repo: &Repo<A>,
    bundle: &Bundle<B>,
) -> Result<Vec<bool, B>, Refusal>
    ensures { MatchResult result
        (λ marks. KnowsContext repo.now.patches bundle.now × AreMarksOf marks.items (infos_of repo.now.patches) (Contains bundle.now.context))
        (λ why. RefusesContext repo.now.patches bundle.now why) }
{
    let mut marks = vec![in alloc; false; repo.len()]?;
    let context = bundle.context();
    let mut last = repo.len();
    for c in 0..context.len() {
        match repo.find_beside(last, &context[c])? {
            None => return Err(Refusal::MissingContext(c)),
            Some(k) => {
                marks[k] = true;
                last = k;
            }
        }
    }
    Ok(marks)
}

/// Marks the context and what it rests on: one pass from the last patch to the first, since a dependency stands earlier.
fn closed_marks<A: Allocator + Copy, B: Allocator + Copy>(
    alloc: B,
    repo: &Repo<A>,
    bundle: &Bundle<B>,
) -> Result<Vec<bool, B>, Refusal>
    ensures { MatchResult result
        (λ marks. KnowsContext repo.now.patches bundle.now ×
        AreMarksOf marks.items (infos_of repo.now.patches) (Closed repo.now.patches bundle.now.context))
        (λ why. RefusesContext repo.now.patches bundle.now why) }
{
    let mut marks = context_marks(alloc, repo, bundle)?;
    for k in (0..repo.len()).rev() {
        if marks[k] {
            match mark(repo, k, repo.patch(k).deps(), marks.as_mut_slice()) {
                Ok(()) => {}
                Err(_) => unreachable!(),
            }
        }
    }
    Ok(marks)
}

/// Marks what is common, and the new patches that are held.
pub(crate) fn common_marks<A: Allocator + Copy, B: Allocator + Copy>(
    alloc: B,
    repo: &Repo<A>,
    bundle: &Bundle<B>,
) -> Result<Marks<B>, Refusal>
    ensures { MatchResult result
        (λ marks. AreMarked repo.now.patches bundle.now marks.common.items marks.held.items)
        (λ why. RefusesContext repo.now.patches bundle.now why) }
{
    repo.lawful();
    let mut common = closed_marks(alloc, repo, bundle)?;
    let mut held = Vec::with_capacity(alloc, bundle.new_patches().len())?;
    for patch in bundle.new_patches() {
        match repo.find(patch.info())? {
            None => held.push(false)?,
            Some(k) => {
                common[k] = true;
                held.push(true)?;
            }
        }
    }
    Ok(Marks { common, held })
}
