//! What stays of a repository and what goes, where patches of some names have to go.
ghost use Rattle.std.specs.Prelude.{◌≡◌, ◌↔◌, ◌++◌, ◌∷◌, [], List, ◌<◌, Contains, IfOk, IsTrue, MatchBool, MatchOption, length, slice_get, Some};
ghost use Rattle.dm_named.specs.Patches.{Patch};
ghost use Rattle.dm_named.specs.Commuting.{NamedCommutes};
ghost use Rattle.dm_repo.specs.Staircases.{PassStops, Passes};
ghost use Rattle.dm_send.specs.Leaving.{Leaves};

use crate::minimizing::{copy_of, pass_unchanged};
use dm_info::Info;
use dm_named::{Named, Passing, commute_named_in_place};
use dm_repo::Repo;
use std::alloc::{AllocError, Allocator};

/// The patches of a repository, those that stay told from those that go.
#[derive(Drop)]
pub(crate) struct Parting<A: Allocator> {
    /// As they stand without the others.
    pub(crate) stay: Vec<Passing<A>, A>,
    /// As they stand behind all that stay.
    pub(crate) go: Vec<Passing<A>, A>,
    /// Those that go though they weren't chosen, each with the one that it can't pass.
    pub(crate) bound: Vec<(Info<A>, Info<A>), A>,
}

/// Whether `patch` passes `before`, which stands before it. `before` stays as it is; `patch` is then as it stands before it.
fn would_come<A: Allocator + Copy>(
    alloc: A,
    before: &mut Passing<A>,
    patch: &mut Passing<A>,
) -> Result<bool, AllocError>
    ensures same { before.new ≡ before.old }
    ensures square { IfOk result (λ comes. MatchBool comes
        ((left : Patch) × NamedCommutes before.old patch.old patch.new left)
        ((over : Patch) (left : Patch) → NamedCommutes before.old patch.old over left → ⊥)) }
{
    if pass_unchanged(alloc, before, patch)? {
        return Ok(true);
    }
    let mut tried = copy_of(alloc, before.named())?;
    let comes = commute_named_in_place(alloc, &mut tried, patch)?;
    Ok(comes)
}

/// The place in `row` of the nearest that stops `patch`, which stands behind it. `row` stays as it is.
fn stopper<A: Allocator + Copy>(
    alloc: A,
    row: &mut [Passing<A>],
    patch: &Named<A>,
) -> Result<Option<usize>, AllocError>
    ensures same { row.new ≡ row.old }
    ensures stops { IfOk result (λ stop. MatchOption stop
        ((over : Patch) × (left : List Patch) × Passes NamedCommutes row.old patch.now over left)
        (λ k. (r : Patch) × (slice_get row.old k ≡ Some r) × PassStops NamedCommutes row.old patch.now r)) }
{
    let mut asked = copy_of(alloc, patch)?;
    for k in (0..row.len()).rev() {
        let before = &mut row[k];
        if !would_come(alloc, before, &mut asked)? {
            return Ok(Some(k));
        }
    }
    Ok(None)
}

/// `patch` passes all of `row`, which stands before it, as it was found that it would.
fn come_past<A: Allocator + Copy>(
    alloc: A,
    row: &mut [Passing<A>],
    patch: &mut Passing<A>,
) -> Result<(), AllocError>
    requires would { (over : Patch) × (left : List Patch) × Passes NamedCommutes row.old patch.old over left }
    ensures { IfOk result (λ _. Passes NamedCommutes row.old patch.old patch.new row.new) }
{
    for k in (0..row.len()).rev() {
        let before = &mut row[k];
        if !commute_named_in_place(alloc, before, patch)? {
            unreachable!();
        }
    }
    Ok(())
}

/// Whether a name is among these.
fn is_among<A: Allocator, B: Allocator>(names: &[Info<A>], name: &Info<B>) -> bool
    ensures { IsTrue result ↔ Contains names.now name.now }
{
    names.iter().any(|other| other.same(name))
}

impl<B: Allocator + Copy> Parting<B> {
    /// With one more that goes, and can't pass the one at place `k` of those that go.
    fn bind(mut self, alloc: B, patch: Passing<B>, k: usize) -> Result<Parting<B>, AllocError>
        requires { k < length self.go.items }
        ensures { IfOk result (λ p. (r : Patch) → slice_get self.go.items k ≡ Some r →
            (p.stay.items ≡ self.stay.items) × (p.go.items ≡ self.go.items ++ patch ∷ []) ×
            (p.bound.items ≡ self.bound.items ++ (patch.info, r.info) ∷ [])) }
    {
        let name = patch.named().info().copy_into(alloc)?;
        let by = self.go[k].named().info().copy_into(alloc)?;
        self.bound.push((name, by))?;
        self.go.push(patch)?;
        Ok(self)
    }

    /// With one more that stays, as it was found that it passes those that go.
    fn keep(mut self, alloc: B, patch: Passing<B>) -> Result<Parting<B>, AllocError>
        requires would { (over : Patch) × (left : List Patch) × Passes NamedCommutes self.go.items patch over left }
        ensures { IfOk result (λ p. (over : Patch) × Passes NamedCommutes self.go.items patch over p.go.items ×
            (p.stay.items ≡ self.stay.items ++ over ∷ []) × (p.bound.items ≡ self.bound.items)) }
    {
        let mut patch = patch;
        come_past(alloc, self.go.as_mut_slice(), &mut patch)?;
        self.stay.push(patch)?;
        Ok(self)
    }

    /// With the next patch of a repository, which stays or goes.
    fn with<A: Allocator>(
        mut self,
        alloc: B,
        chosen: &[Info<A>],
        next: Passing<B>,
    ) -> Result<Parting<B>, AllocError>
        ensures { IfOk result (λ p. (xs : List Patch) → Leaves chosen.now xs self.stay.items self.go.items self.bound.items →
            Leaves chosen.now (xs ++ next ∷ []) p.stay.items p.go.items p.bound.items) }
    {
        if is_among(chosen, next.named().info()) {
            self.go.push(next)?;
            return Ok(self);
        }
        let Some(k) = stopper(alloc, self.go.as_mut_slice(), next.named())? else {
            let kept = self.keep(alloc, next)?;
            return Ok(kept);
        };
        let bound = self.bind(alloc, next, k)?;
        Ok(bound)
    }
}

/// Tells what stays of a repository from what goes, where patches of these names have to go.
pub(crate) fn part<A: Allocator, B: Allocator + Copy>(
    alloc: B,
    repo: &Repo<A>,
    chosen: &[Info<A>],
) -> Result<Parting<B>, AllocError>
    ensures { IfOk result (λ p. Leaves chosen.now repo.now.patches p.stay.items p.go.items p.bound.items) }
{
    let mut parting = Parting {
        stay: Vec::with_capacity(alloc, repo.len())?,
        go: Vec::new(alloc),
        bound: Vec::new(alloc),
    };
    for at in 0..repo.len() {
        let next = copy_of(alloc, repo.patch(at))?;
        parting = parting.with(alloc, chosen, next)?;
    }
    Ok(parting)
}

/// The patches of a repository that can't do without one of these names, by name, in their order. Each stands with the name of one that
/// it can't do without: the last of those that stop it. These are the ones that [`obliterate`](crate::obliterate) takes out besides.
pub fn bound_to<A: Allocator, B: Allocator + Copy>(
    alloc: B,
    repo: &Repo<A>,
    chosen: &[Info<A>],
) -> Result<Vec<(Info<B>, Info<B>), B>, AllocError>
    ensures { IfOk result (λ bound. (stay : List Patch) × (go : List Patch) × Leaves chosen.now repo.now.patches stay go bound.items) }
{
    let Parting {
        stay: _,
        go: _,
        bound,
    } = part(alloc, repo, chosen)?;
    Ok(bound)
}
