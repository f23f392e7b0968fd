//! Which patches a verdict is about.
ghost use Rattle.std.specs.Prelude.{◌≡◌, ◌↔◌, ◌<◌, IsTrue, List, None, Some, length, slice_get, IfOk, MatchOption};
ghost use Rattle.dm_named.specs.Patches.{Patch};
ghost use Rattle.dm_prim.specs.Prims.{prim_of};
ghost use Rattle.dm_bundle.specs.Bundles.{Contents};
ghost use Rattle.dm_bundle.specs.Patches.{infos_of};
ghost use Rattle.dm_repo.specs.Clashes.{IsClash};
ghost use Rattle.dm_repo.specs.Repositories.{Holds};
ghost use Rattle.dm_repo.specs.Weighing.{RefusesBundle};
ghost use Rattle.dm_explain.specs.Fates.{AreChosen, lent};
ghost use Rattle.dm_explain.specs.Accounts.{AreClashing, IsAccount, IsAccountOfRefusal, IsMisfitAt, IsSorted};

use crate::depth::{Depth, depth_of};
use crate::fates::{Fates, fates_of};
use dm_bundle::Bundle;
use dm_info::Info;
use dm_named::Named;
use dm_prim::Prim;
use dm_repo::{Clash, Misfit, Policy, Refusal, Repo, find_clash, find_misfit};
use dm_scratch::Verdict;
use std::alloc::{AllocError, Global};

/// The name of a patch, lent by the bundle or by the repository that it stands in.
type Name<'a> = &'a Info<Global>;

/// The first primitives of a new patch and of a held one that can't pass each other, lent by the bundle and by the repository.
#[derive(Clone, Copy)]
pub struct Clashing<'a> {
    /// The primitive of the new patch.
    pub new: &'a Prim<Global>,
    /// The primitive of the held patch.
    pub held: &'a Prim<Global>,
}

/// Which patches a verdict is about, by name, and where they don't go together. It prints itself in lines for people.
#[derive(Drop)]
pub enum Account<'a> {
    /// No patch, or a place where none stands.
    Nobody,
    /// How many patches the repository has, and how many of the bundle it hasn't: they are too many together, or a patch would go
    /// past a limit, and where that is.
    Full(usize, usize, Option<Depth<'a>>),
    /// The patches of the context that aren't held, in its order.
    MissingContext(Vec<Name<'a>>),
    /// A new patch; a dependency of it that isn't there; and whether a patch of that name is held all the same.
    MissingDependency(Name<'a>, Name<'a>, bool),
    /// A held patch that the context rests on, and the held patch that it can't do without.
    ContextDepends(Name<'a>, Name<'a>),
    /// A new patch that is held, and the new patch that it can't do without.
    HeldDepends(Name<'a>, Name<'a>),
    /// The new patch that doesn't apply, and where it doesn't.
    DoesNotFit(Name<'a>, Option<Misfit<Global>>),
    /// A new patch, the held patch that it conflicts with, and their primitives that do.
    Conflicts(Name<'a>, Name<'a>, Option<Clashing<'a>>),
    /// What became of each new patch.
    Sorted(Fates<'a>),
}

/// The names that aren't held, in their order.
fn unheld<'a>(
    alloc: Global,
    repo: &Repo<Global>,
    names: &'a [Info<Global>],
) -> Result<Vec<Name<'a>>, AllocError>
    ensures { IfOk result (λ missing. AreChosen (λ i. Holds repo.now.patches i → ⊥) names.now (lent missing.items)) }
{
    let mut missing = Vec::new(alloc);
    for name in names {
        match repo.position(name) {
            None => missing.push(name)?,
            Some(_) => {}
        }
    }
    Ok(missing)
}

/// The name of the new patch at a place.
pub fn new_name<'a>(bundle: &'a Bundle<Global>, n: usize) -> Option<Name<'a>>
    ensures { MatchOption result (slice_get (infos_of bundle.now.patches) n ≡ None) (λ name. slice_get (infos_of bundle.now.patches) n ≡ Some name.now) }
{
    match bundle.new_patches().get(n) {
        Some(patch) => Some(patch.info()),
        None => None,
    }
}

/// The name of the held patch at a place.
pub fn held_name<'a>(repo: &'a Repo<Global>, h: usize) -> Option<Name<'a>>
    ensures { MatchOption result (slice_get (infos_of repo.now.patches) h ≡ None) (λ name. slice_get (infos_of repo.now.patches) h ≡ Some name.now) }
{
    if h < repo.len() {
        return Some(repo.patch(h).info());
    }
    None
}

/// The new patch at a place.
fn new_patch(bundle: &Bundle<Global>, n: usize) -> Option<&Named<Global>>
    ensures { MatchOption result (slice_get bundle.now.patches n ≡ None) (λ patch. slice_get bundle.now.patches n ≡ Some patch.now) }
{
    bundle.new_patches().get(n)
}

/// The primitive at a place of a patch.
fn prim_at(patch: &Named<Global>, place: usize) -> &Prim<Global>
    requires { place < length patch.now.prims }
    ensures { slice_get patch.now.prims place ≡ Some (prim_of result.now) }
{
    &patch.prims()[place]
}

/// The dependency that a patch names at a place of its list.
fn dependency(patch: &Named<Global>, d: usize) -> Option<&Info<Global>>
    ensures { MatchOption result (slice_get patch.now.deps d ≡ None) (λ name. slice_get patch.now.deps d ≡ Some name.now) }
{
    patch.deps().get(d)
}

/// Whether a patch of this name is held.
fn is_held(repo: &Repo<Global>, name: &Info<Global>) -> bool
    ensures { IsTrue result ↔ Holds repo.now.patches name.now }
{
    match repo.position(name) {
        None => false,
        Some(_) => true,
    }
}

/// A new patch, and the dependency that it names at a place of its list.
fn lacking<'a>(repo: &Repo<Global>, bundle: &'a Bundle<Global>, n: usize, d: usize) -> Account<'a>
    ensures { (policy : Policy) → IsAccountOfRefusal repo.now.patches bundle.now policy (Refusal.MissingDependency n d) result }
{
    let Some(patch) = new_patch(bundle, n) else {
        return Account::Nobody;
    };
    let Some(needed) = dependency(patch, d) else {
        return Account::Nobody;
    };
    Account::MissingDependency(patch.info(), needed, is_held(repo, needed))
}

/// Two held patches, the first of which can't do without the second.
fn context_depends<'a>(repo: &'a Repo<Global>, h: usize, r: usize) -> Account<'a>
    ensures { (b : Contents) (policy : Policy) → IsAccountOfRefusal repo.now.patches b policy (Refusal.ContextDepends h r) result }
{
    let Some(patch) = held_name(repo, h) else {
        return Account::Nobody;
    };
    let Some(needed) = held_name(repo, r) else {
        return Account::Nobody;
    };
    Account::ContextDepends(patch, needed)
}

/// Two new patches, the first of which can't do without the second.
fn held_depends<'a>(bundle: &'a Bundle<Global>, h: usize, n: usize) -> Account<'a>
    ensures { (repo : List Patch) (policy : Policy) → IsAccountOfRefusal repo bundle.now policy (Refusal.HeldDepends h n) result }
{
    let Some(patch) = new_name(bundle, h) else {
        return Account::Nobody;
    };
    let Some(needed) = new_name(bundle, n) else {
        return Account::Nobody;
    };
    Account::HeldDepends(patch, needed)
}

/// The primitives at the places of a clash.
fn clashing_prims<'a>(
    repo: &'a Repo<Global>,
    bundle: &'a Bundle<Global>,
    clash: Clash,
) -> Clashing<'a>
    requires { IsClash repo.now.patches bundle.now clash }
    ensures { AreClashing repo.now.patches bundle.now clash.place clash.held result }
{
    let Some(new) = new_patch(bundle, clash.place) else {
        unreachable!();
    };
    let held = repo.patch(clash.held);
    Clashing {
        new: prim_at(new, clash.prim),
        held: prim_at(held, clash.held_prim),
    }
}

/// The primitives of the new patch of one place and of the held patch of another that can't pass each other.
fn clash_at<'a>(
    alloc: Global,
    repo: &'a Repo<Global>,
    bundle: &'a Bundle<Global>,
    n: usize,
    h: usize,
) -> Result<Option<Clashing<'a>>, AllocError>
    ensures { (policy : Policy) → IfOk result (λ pair. MatchOption pair
        (RefusesBundle repo.now.patches bundle.now policy (Refusal.Conflicts n h) → ⊥)
        (AreClashing repo.now.patches bundle.now n h)) }
{
    match find_clash(alloc, repo, bundle) {
        Ok(Some(clash)) => {
            if clash.place != n {
                return Ok(None);
            }
            if clash.held != h {
                return Ok(None);
            }
            Ok(Some(clashing_prims(repo, bundle, clash)))
        }
        Ok(None) => Ok(None),
        Err(why) => {
            if why == Refusal::NoMemory {
                return Err(AllocError);
            }
            Ok(None)
        }
    }
}

/// A new patch, and a held one.
fn conflicts<'a>(
    alloc: Global,
    repo: &'a Repo<Global>,
    bundle: &'a Bundle<Global>,
    n: usize,
    h: usize,
) -> Result<Account<'a>, AllocError>
    ensures { (policy : Policy) → IfOk result (IsAccountOfRefusal repo.now.patches bundle.now policy (Refusal.Conflicts n h)) }
{
    let Some(new) = new_name(bundle, n) else {
        return Ok(Account::Nobody);
    };
    let Some(held) = held_name(repo, h) else {
        return Ok(Account::Nobody);
    };
    let pair = clash_at(alloc, repo, bundle, n, h)?;
    Ok(Account::Conflicts(new, held, pair))
}

/// Where the new patch of this place doesn't apply.
fn misfit_at(
    alloc: Global,
    repo: &Repo<Global>,
    bundle: &Bundle<Global>,
    n: usize,
) -> Result<Option<Misfit<Global>>, AllocError>
    ensures { (policy : Policy) → IfOk result (λ misfit. MatchOption misfit
        (RefusesBundle repo.now.patches bundle.now policy (Refusal.DoesNotFit n) → ⊥)
        (IsMisfitAt repo.now.patches bundle.now n)) }
{
    match find_misfit(alloc, repo, bundle) {
        Ok(Some(found)) => {
            if found.place != n {
                return Ok(None);
            }
            Ok(Some(found))
        }
        Ok(None) => Ok(None),
        Err(why) => {
            if why == Refusal::NoMemory {
                return Err(AllocError);
            }
            Ok(None)
        }
    }
}

/// A new patch that doesn't apply.
fn does_not_fit<'a>(
    alloc: Global,
    repo: &Repo<Global>,
    bundle: &'a Bundle<Global>,
    n: usize,
) -> Result<Account<'a>, AllocError>
    ensures { (policy : Policy) → IfOk result (IsAccountOfRefusal repo.now.patches bundle.now policy (Refusal.DoesNotFit n)) }
{
    let Some(patch) = new_name(bundle, n) else {
        return Ok(Account::Nobody);
    };
    let misfit = misfit_at(alloc, repo, bundle, n)?;
    Ok(Account::DoesNotFit(patch, misfit))
}

/// How many patches are held, how many new ones aren't, and where a patch would go past a limit.
fn full<'a>(
    alloc: Global,
    repo: &'a Repo<Global>,
    bundle: &'a Bundle<Global>,
    policy: Policy,
) -> Result<Account<'a>, AllocError>
    ensures { IfOk result (IsAccountOfRefusal repo.now.patches bundle.now policy Refusal.Full) }
{
    let held = repo.len();
    let fates = fates_of(alloc, repo, held, bundle)?;
    let depth = depth_of(alloc, repo, bundle, policy)?;
    Ok(Account::Full(held, fates.skipped.len(), depth))
}

/// What became of each new patch, where the repository's last `count` patches were taken.
fn sorted<'a>(
    alloc: Global,
    repo: &Repo<Global>,
    count: usize,
    bundle: &'a Bundle<Global>,
) -> Result<Account<'a>, AllocError>
    ensures { IfOk result (IsSorted repo.now.patches count bundle.now) }
{
    let before = repo.len().saturating_sub(count);
    Ok(Account::Sorted(fates_of(alloc, repo, before, bundle)?))
}

/// Which patches a refusal is about.
fn refused<'a>(
    alloc: Global,
    repo: &'a Repo<Global>,
    bundle: &'a Bundle<Global>,
    policy: Policy,
    refusal: Refusal,
) -> Result<Account<'a>, AllocError>
    ensures { IfOk result (IsAccountOfRefusal repo.now.patches bundle.now policy refusal) }
{
    match refusal {
        Refusal::MissingContext(_) => {
            let missing = unheld(alloc, repo, bundle.context())?;
            Ok(Account::MissingContext(missing))
        }
        Refusal::MissingDependency(n, d) => Ok(lacking(repo, bundle, n, d)),
        Refusal::ContextDepends(h, r) => Ok(context_depends(repo, h, r)),
        Refusal::HeldDepends(h, n) => Ok(held_depends(bundle, h, n)),
        Refusal::DoesNotFit(n) => does_not_fit(alloc, repo, bundle, n),
        Refusal::Conflicts(n, h) => conflicts(alloc, repo, bundle, n, h),
        Refusal::Full => full(alloc, repo, bundle, policy),
        Refusal::NoMemory => Ok(Account::Nobody),
    }
}

/// Which patches a verdict on a bundle is about, and where they don't go together. The repository is the one that taking the
/// bundle by the policy left.
///
/// It allocates, and fails where memory runs out.
pub fn account_of<'a>(
    alloc: Global,
    repo: &'a Repo<Global>,
    bundle: &'a Bundle<Global>,
    policy: Policy,
    verdict: Verdict,
) -> Result<Account<'a>, AllocError>
    ensures { IfOk result (IsAccount repo.now.patches bundle.now policy verdict) }
{
    match verdict {
        Verdict::Taken(count) => sorted(alloc, repo, count, bundle),
        Verdict::TakenSome(count, _) => sorted(alloc, repo, count, bundle),
        Verdict::NothingNew => sorted(alloc, repo, 0, bundle),
        Verdict::Malformed(_) => Ok(Account::Nobody),
        Verdict::Refused(refusal) => refused(alloc, repo, bundle, policy, refusal),
    }
}
