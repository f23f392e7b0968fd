//! Whether a name stands for one patch in what mirrors are sent.
ghost use Rattle.std.specs.Prelude.{◌≡◌, ◌↔◌, ◌≤◌, ◌<◌, ◌+◌, ℕ, Some, length, map, slice_get, MatchBool, MatchOption, IfOk, OnOk};
ghost use Rattle.std.specs.List.{Contains};
ghost use Rattle.dm_info.specs.PatchInfo.{PatchInfo};
ghost use Rattle.dm_bundle.specs.Patches.{SameMembers};
ghost use Rattle.dm_bundle.specs.Bundles.{Contents};
ghost use Rattle.dm_named.specs.Patches.{Patch};
ghost use Rattle.dm_repo.specs.Repositories.{Holds};
ghost use Rattle.dm_scratch.specs.Taking.{ReadsWithin};
ghost use Rattle.dm_agree.specs.Names.{Brings, NameIsShared, NamesStandWithin, StandForOne, StandsForTwo};
ghost use Rattle.dm_agree.specs.Owners.{AddsBrought, AgreeUpTo, AlikeWith, AreAlike, ClashesAt, Owns};

use crate::owners::{Owners, last_owned, note};
use crate::same::same_patches;
use dm_bundle::{Bundle, read_bundle_within};
use dm_info::Info;
use dm_named::{FaultKind, Limits, Named};
use dm_repo::Repo;
use std::alloc::{AllocError, Allocator};
use std::collections::{BTreeMap, BTreeSet};

/// The set of these patch infos.
fn set_of<A: Allocator + Copy>(
    alloc: A,
    infos: &[Info<A>],
) -> Result<BTreeSet<Info<A>, A>, AllocError>
    ensures { IfOk result (λ set. (i : PatchInfo) → Contains set.keys i ↔ Contains infos.now i) }
{
    let mut set = BTreeSet::new(alloc);
    for info in infos {
        set.insert(info.copy_into(alloc)?)?;
    }
    Ok(set)
}

/// Whether all of these patch infos are among the others.
fn are_among<A: Allocator + Copy>(
    alloc: A,
    infos: &[Info<A>],
    others: &[Info<A>],
) -> Result<bool, AllocError>
    ensures { IfOk result (λ all. MatchBool all
        ((i : PatchInfo) → Contains infos.now i → Contains others.now i)
        (((i : PatchInfo) → Contains infos.now i → Contains others.now i) → ⊥)) }
{
    let set = set_of(alloc, others)?;
    for info in infos {
        if !set.contains(info) {
            return Ok(false);
        }
    }
    Ok(true)
}

/// Whether the same patch infos are in both.
fn have_same_members<A: Allocator + Copy>(
    alloc: A,
    infos: &[Info<A>],
    others: &[Info<A>],
) -> Result<bool, AllocError>
    ensures { IfOk result (λ same. MatchBool same (SameMembers infos.now others.now) (SameMembers infos.now others.now → ⊥)) }
{
    let all = are_among(alloc, infos, others)?;
    if all {
        return are_among(alloc, others, infos);
    }
    Ok(false)
}

/// Whether two bundles have the same context and the same first patches, so many of them.
fn agree_up_to<A: Allocator + Copy>(
    alloc: A,
    one: &Bundle<A>,
    other: &Bundle<A>,
    count: usize,
) -> Result<bool, AllocError>
    requires { count ≤ length other.now.patches }
    ensures { IfOk result (λ agree. MatchBool agree (AgreeUpTo one.now other.now count) (AgreeUpTo one.now other.now count → ⊥)) }
{
    let first = one.new_patches();
    let second = other.new_patches();
    if first.len() < count {
        return Ok(false);
    }
    if !same_patches(&first[..count], &second[..count]) {
        return Ok(false);
    }
    have_same_members(alloc, one.context(), other.context())
}

/// The count of the bundle's patches up to one whose name an earlier bundle brings too, which doesn't begin as this one does.
/// The last patch that has its name in common with one of them tells: where the two agree up to it, all that have a name in
/// common with this bundle begin as it does.
fn clash_of<A: Allocator + Copy>(
    alloc: A,
    owners: &Owners<A>,
    earlier: &[Bundle<A>],
    bundle: &Bundle<A>,
) -> Result<Option<usize>, AllocError>
    requires owns { Owns owners.now earlier.now }
    requires alike { AreAlike earlier.now }
    ensures { IfOk result (λ found. MatchOption found (AlikeWith earlier.now bundle.now) (ClashesAt earlier.now bundle.now)) }
{
    match last_owned(owners, bundle.new_patches()) {
        None => Ok(None),
        Some((count, place)) => {
            let agree = agree_up_to(alloc, &earlier[place], bundle, count)?;
            if agree { Ok(None) } else { Ok(Some(count)) }
        }
    }
}

/// Whether the repository holds a patch of this name.
fn holds<A: Allocator>(repo: &Repo<A>, info: &Info<A>) -> bool
    ensures { MatchBool result (Holds repo.now.patches info.now) (Holds repo.now.patches info.now → ⊥) }
{
    match repo.position(info) {
        Some(_) => true,
        None => false,
    }
}

/// The place of the first of these patches whose name the repository holds.
fn held_of<A: Allocator>(repo: &Repo<A>, patches: &[Named<A>]) -> Option<usize>
    ensures { MatchOption result
        ((i : PatchInfo) → Holds patches.now i → Holds repo.now.patches i → ⊥)
        (λ k. (p : Patch) × (slice_get patches.now k ≡ Some p) × Holds repo.now.patches p.info) }
{
    for k in 0..patches.len() {
        if holds(repo, patches[k].info()) {
            return Some(k);
        }
    }
    None
}

/// A copy of the name of the patch with this number, from 1.
fn nth_info<A: Allocator + Copy>(
    alloc: A,
    patches: &[Named<A>],
    count: usize,
) -> Result<Info<A>, AllocError>
    requires some { 0 < count }
    requires within { count ≤ length patches.now }
    ensures { IfOk result (λ info. (at : ℕ) → (count ≡ at + 1) → (p : Patch) → slice_get patches.now at ≡ Some p → info ≡ p.info) }
{
    let k = count - 1;
    patches[k].info().copy_into(alloc)
}

/// A name that stands for two patches in these bundles, if there is one.
fn shared_name<A: Allocator + Copy>(
    alloc: A,
    bundles: &[Bundle<A>],
    base: &Repo<A>,
) -> Result<Option<Info<A>>, AllocError>
    ensures { IfOk result (λ found. MatchOption found
        (StandForOne (Contains bundles.now) base.now.patches)
        (StandsForTwo (Contains bundles.now) base.now.patches)) }
{
    let mut owners = BTreeMap::new(alloc);
    for place in 0..bundles.len() {
        let bundle = &bundles[place];
        let patches = bundle.new_patches();
        match held_of(base, patches) {
            Some(k) => return Ok(Some(patches[k].info().copy_into(alloc)?)),
            None => {}
        }
        let clash = clash_of(alloc, &owners, &bundles[..place], bundle)?;
        match clash {
            Some(count) => {
                let info = nth_info(alloc, patches, count)?;
                return Ok(Some(info));
            }
            None => {}
        }
        note(alloc, &mut owners, patches, place)?;
    }
    Ok(None)
}

/// The bundle that a text brings, read within these limits.
fn brought<A: Allocator + Copy>(
    alloc: A,
    text: &[u8],
    limits: Limits,
) -> Result<Option<Bundle<A>>, AllocError>
    ensures { IfOk result (λ found. MatchOption found
        ((b : Contents) → ReadsWithin limits text.now b → ⊥)
        (λ bundle. (b : Contents) → (b ≡ bundle) ↔ ReadsWithin limits text.now b)) }
{
    match read_bundle_within(alloc, text, limits) {
        Ok(bundle) => Ok(Some(bundle)),
        Err(fault) => {
            if fault.kind == FaultKind::NoMemory {
                return Err(AllocError);
            }
            Ok(None)
        }
    }
}

/// Adds the bundle that a text brings, if it brings one.
fn add_brought<A: Allocator + Copy>(
    alloc: A,
    bundles: &mut Vec<Bundle<A>, A>,
    text: &[u8],
    limits: Limits,
) -> Result<(), AllocError>
    ensures { OnOk result (AddsBrought limits text.now bundles.old.items bundles.new.items) }
{
    match brought(alloc, text, limits)? {
        Some(bundle) => {
            bundles.push(bundle)?;
            Ok(())
        }
        None => Ok(()),
    }
}

/// The bundles that texts bring, read within these limits.
fn all_brought<A: Allocator + Copy>(
    alloc: A,
    texts: &[&[u8]],
    limits: Limits,
) -> Result<Vec<Bundle<A>, A>, AllocError>
    ensures { IfOk result (λ bundles. (b : Contents) → Contains bundles.items b ↔ Brings limits (map (λ t. t.now) texts.now) b) }
{
    let mut bundles = Vec::new(alloc);
    for text in texts {
        add_brought(alloc, &mut bundles, text, limits)?;
    }
    Ok(bundles)
}

/// Looks for a name that stands for two patches in what these texts bring to mirrors over one base, each text read within these
/// limits; a text that can't be read within them brings nothing. Two bundles that bring one name have to begin alike: with
/// contexts of the same names and the same first patches, and with no name among the others of both; and no bundle brings a name of the
/// base. None where each name stands for one patch, which is what [`laws::mirrors_agree`](crate::laws::mirrors_agree) asks.
pub fn names_stand_for_one<A: Allocator + Copy>(
    alloc: A,
    texts: &[&[u8]],
    base: &Repo<A>,
    limits: Limits,
) -> Result<Option<Info<A>>, AllocError>
    ensures { IfOk result (λ found. MatchOption found
        (NamesStandWithin limits (map (λ t. t.now) texts.now) base.now.patches)
        (NameIsShared limits (map (λ t. t.now) texts.now) base.now.patches)) }
{
    let bundles = all_brought(alloc, texts, limits)?;
    shared_name(alloc, &bundles, base)
}
