//! The repositories that the mirrors of a plan begin with.
ghost use Rattle.std.specs.Prelude.{map, IfOk, IfErr};
ghost use Rattle.dm_mirror.specs.Plans.{AreStarts, IsBadStart, IsStart, RefusesStart};

use crate::plan::PlanFault;
use dm_named::Limits;
use dm_repo::{Policy, Repo};
use dm_scratch::take_within;
use std::alloc::Global;
use std::collections::VecDeque;

/// The repository that the base of a mirror makes, read within these limits straight into the repository's memory. A conflict
/// refuses it.
fn start_of(
    alloc: Global,
    mirror: usize,
    base: &[u8],
    limits: Limits,
) -> Result<Repo<Global>, PlanFault>
    ensures ok { IfOk result (λ repo. IsStart limits base.now repo.patches) }
    ensures err { IfErr result (RefusesStart limits mirror base.now) }
{
    let mut repo = Repo::new(alloc);
    if base.is_empty() {
        return Ok(repo);
    }
    let verdict = take_within(&mut repo, alloc, base, limits, Policy::Refuse);
    if verdict.is_accepted() {
        return Ok(repo);
    }
    Err(PlanFault::of_base(mirror, verdict))
}

/// The repositories that the bases make.
pub(crate) fn starts_of(
    alloc: Global,
    bases: &[&[u8]],
    limits: Limits,
) -> Result<VecDeque<Repo<Global>>, PlanFault>
    ensures ok { IfOk result (λ repos. AreStarts limits (map (λ base. base.now) bases.now) (map (λ repo. repo.patches) repos.items)) }
    ensures err { IfErr result (IsBadStart limits (map (λ base. base.now) bases.now)) }
{
    let mut repos = VecDeque::with_capacity(alloc, bases.len())?;
    for number in 0..bases.len() {
        repos.push_back_reserved(start_of(alloc, number, bases[number], limits)?);
    }
    Ok(repos)
}
