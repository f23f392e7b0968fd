//! What new patches need of the shared ones.
ghost use Rattle.std.specs.Prelude.{◌≡◌, ◌++◌, List, reverse, IfOk, IsTrue, MatchBool};
ghost use Rattle.dm_prim.specs.Rectangles.{CellRow};
ghost use Rattle.dm_named.specs.Patches.{Patch};
ghost use Rattle.dm_named.specs.Commuting.{NamedCommutes};
ghost use Rattle.dm_bundle.specs.Patches.{infos_of};
ghost use Rattle.dm_send.specs.Minimizing.{IsNeeded, MinimizesBehind, Yields};

use dm_info::Info;
use dm_named::{Named, Passing, are_apart, commute_named_in_place};
use dm_repo::{Repo, copy_names};
use std::alloc::{AllocError, Allocator};

/// New patches, and what is kept of the shared ones.
#[derive(Drop)]
pub(crate) struct Minimal<A: Allocator> {
    /// The names of the shared patches that are kept, the newest first: of those behind the base, only the ones that can't pass
    /// what is needed behind them and the new ones.
    pub(crate) names: Vec<Info<A>, A>,
    /// The new patches, as they stand behind these.
    pub(crate) sent: Vec<Named<A>, A>,
}

/// A copy of a patch.
pub(crate) fn copy_of<A: Allocator, B: Allocator + Copy>(
    alloc: B,
    patch: &Named<A>,
) -> Result<Passing<B>, AllocError>
    ensures { IfOk result (λ copy. copy ≡ patch.now) }
{
    let copy = patch.copy_into(alloc)?;
    Ok(Passing::new(copy))
}

/// Whether `patch` passes `next`, which stands behind it, and neither is changed by it: neither names the other, and they touch
/// nothing in common.
pub(crate) fn pass_unchanged<A: Allocator + Copy>(
    alloc: A,
    patch: &mut Passing<A>,
    next: &mut Passing<A>,
) -> Result<bool, AllocError>
    ensures patch { patch.new ≡ patch.old }
    ensures next { next.new ≡ next.old }
    ensures square { IfOk result (λ unchanged. IsTrue unchanged → NamedCommutes patch.old next.old next.old patch.old) }
{
    if next.named().depends_on(patch.named().info()) {
        return Ok(false);
    }
    if patch.named().depends_on(next.named().info()) {
        return Ok(false);
    }
    let unchanged = are_apart(alloc, patch, alloc, next)?;
    Ok(unchanged)
}

/// Whether `patch` passes `next`, which stands behind it. `next` stays as it is; `patch` is then as it stands behind `next`.
fn would_pass<A: Allocator + Copy>(
    alloc: A,
    patch: &mut Passing<A>,
    next: &mut Passing<A>,
) -> Result<bool, AllocError>
    ensures same { next.new ≡ next.old }
    ensures square { IfOk result (λ passes. MatchBool passes
        ((over : Patch) × NamedCommutes patch.old next.old over patch.new)
        ((over : Patch) (left : Patch) → NamedCommutes patch.old next.old over left → ⊥)) }
{
    if pass_unchanged(alloc, patch, next)? {
        return Ok(true);
    }
    let mut tried = copy_of(alloc, next.named())?;
    let passes = commute_named_in_place(alloc, patch, &mut tried)?;
    Ok(passes)
}

/// Whether `patch` passes all of `row`, which stands behind it. `row` stays as it is; `patch` is then as it stands behind it.
fn would_pass_all<A: Allocator + Copy>(
    alloc: A,
    patch: &mut Passing<A>,
    row: &mut [Passing<A>],
) -> Result<bool, AllocError>
    ensures same { row.new ≡ row.old }
    ensures row { IfOk result (λ passes. MatchBool passes
        ((over : List Patch) × CellRow NamedCommutes patch.old row.old over patch.new)
        ((over : List Patch) (left : Patch) → CellRow NamedCommutes patch.old row.old over left → ⊥)) }
{
    for k in 0..row.len() {
        let next = &mut row[k];
        if !would_pass(alloc, patch, next)? {
            return Ok(false);
        }
    }
    Ok(true)
}

/// `patch` passes all of `row`, which stands behind it, as it was found that it would.
fn pass_all<A: Allocator + Copy>(
    alloc: A,
    patch: &mut Passing<A>,
    row: &mut [Passing<A>],
) -> Result<(), AllocError>
    requires would { (over : List Patch) × (left : Patch) × CellRow NamedCommutes patch.old row.old over left }
    ensures { IfOk result (λ _. CellRow NamedCommutes patch.old row.old row.new patch.new) }
{
    for k in 0..row.len() {
        let next = &mut row[k];
        if !commute_named_in_place(alloc, patch, next)? {
            unreachable!();
        }
    }
    Ok(())
}

/// Whether a patch passes what is needed and then what is sent, which both stay as they are.
fn would_yield<A: Allocator + Copy>(
    alloc: A,
    patch: &Named<A>,
    needed: &mut [Passing<A>],
    sent: &mut [Passing<A>],
) -> Result<bool, AllocError>
    ensures needed { needed.new ≡ needed.old }
    ensures sent { sent.new ≡ sent.old }
    ensures yields { IfOk result (λ yields. MatchBool yields
        ((needed' : List Patch) × (sent' : List Patch) × (left : Patch) × Yields NamedCommutes patch.now needed.old sent.old needed' sent' left)
        (IsNeeded NamedCommutes patch.now needed.old sent.old)) }
{
    let mut asked = copy_of(alloc, patch)?;
    if !would_pass_all(alloc, &mut asked, needed)? {
        return Ok(false);
    }
    let yields = would_pass_all(alloc, &mut asked, sent)?;
    Ok(yields)
}

/// A patch goes behind what is needed and what is sent, as it was found that it would.
fn let_go<A: Allocator + Copy>(
    alloc: A,
    patch: &Named<A>,
    needed: &mut [Passing<A>],
    sent: &mut [Passing<A>],
) -> Result<(), AllocError>
    requires would { (needed' : List Patch) × (sent' : List Patch) × (left : Patch) × Yields NamedCommutes patch.now needed.old sent.old needed' sent' left }
    ensures { IfOk result (λ _. (left : Patch) × Yields NamedCommutes patch.now needed.old sent.old needed.new sent.new left) }
{
    let mut going = copy_of(alloc, patch)?;
    pass_all(alloc, &mut going, needed)?;
    pass_all(alloc, &mut going, sent)?;
    Ok(())
}

/// Whether a patch passes what is needed and then what is sent. If it does, both are as they are before it then, else as they were.
fn yields<A: Allocator + Copy>(
    alloc: A,
    patch: &Named<A>,
    needed: &mut [Passing<A>],
    sent: &mut [Passing<A>],
) -> Result<bool, AllocError>
    ensures { IfOk result (λ yields. MatchBool yields
        ((left : Patch) × Yields NamedCommutes patch.now needed.old sent.old needed.new sent.new left)
        ((needed.new ≡ needed.old) × (sent.new ≡ sent.old) × IsNeeded NamedCommutes patch.now needed.old sent.old)) }
{
    if !would_yield(alloc, patch, needed, sent)? {
        return Ok(false);
    }
    let_go(alloc, patch, needed, sent)?;
    Ok(true)
}

/// The patches, as they may have to pass others.
fn passing_all<A: Allocator + Copy>(
    alloc: A,
    list: Vec<Named<A>, A>,
) -> Result<Vec<Passing<A>, A>, AllocError>
    ensures { IfOk result (λ passing. passing.items ≡ list.items) }
{
    let mut passing = Vec::with_capacity(alloc, list.len())?;
    for patch in list {
        passing.push(Passing::new(patch))?;
    }
    Ok(passing)
}

/// The patches, none of which passes another any more.
pub(crate) fn named_all<A: Allocator + Copy>(
    alloc: A,
    list: Vec<Passing<A>, A>,
) -> Result<Vec<Named<A>, A>, AllocError>
    ensures { IfOk result (λ named. named.items ≡ list.items) }
{
    let mut named = Vec::with_capacity(alloc, list.len())?;
    for patch in list {
        named.push(patch.into_named())?;
    }
    Ok(named)
}

/// The names of patches and of those needed behind them, the newest first.
fn names_of_both<A: Allocator + Copy>(
    alloc: A,
    base: &[Named<A>],
    needed: &[Named<A>],
) -> Result<Vec<Info<A>, A>, AllocError>
    ensures { IfOk result (λ names. names.items ≡ reverse (infos_of (base.now ++ needed.now))) }
{
    let mut names = copy_names(alloc, base)?;
    let mut later = copy_names(alloc, needed)?;
    names.append(&mut later)?;
    names.reverse();
    Ok(names)
}

/// What new patches need of those of a repository, and these as they then stand: its first `base` patches are kept; of the others,
/// the last first, each goes that passes all that is needed behind it and the new ones.
pub(crate) fn minimize<A: Allocator + Copy>(
    alloc: A,
    shared: &Repo<A>,
    base: usize,
    new: Vec<Named<A>, A>,
) -> Result<Minimal<A>, AllocError>
    ensures { IfOk result (λ minimal. (kept : List Patch) × (gone : List Patch) × (minimal.names.items ≡ reverse (infos_of kept)) ×
        MinimizesBehind NamedCommutes base shared.now.patches new.items kept minimal.sent.items gone) }
{
    let first = base.min(shared.len());
    let mut needed = Vec::new(alloc);
    let mut sent = passing_all(alloc, new)?;
    for k in (first..shared.len()).rev() {
        let patch = shared.patch(k);
        if yields(alloc, patch, needed.as_mut_slice(), sent.as_mut_slice())? {
            continue;
        }
        needed.insert(0, copy_of(alloc, patch)?)?;
    }
    let needed = named_all(alloc, needed)?;
    let names = names_of_both(alloc, &shared.patches()[..first], &needed)?;
    Ok(Minimal {
        names,
        sent: named_all(alloc, sent)?,
    })
}
