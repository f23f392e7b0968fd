//! Whether a patch stands near some paths, or aside.
ghost use Rattle.std.specs.Prelude.{◌≡◌, ◌≤◌, false, All, length, IsTrue, MatchOption};
ghost use Rattle.dm_tree.specs.Paths.{Apart};
ghost use Rattle.dm_tree.specs.Reach.{IsUnder};
ghost use Rattle.dm_prim.specs.Primitives as primitives;
ghost use Rattle.dm_prim.specs.Prims.{IsWork, prim_of};
ghost use Rattle.dm_prim.specs.Glances.{IsGlanceOf};
ghost use Rattle.dm_prim.specs.Sketches.{Covers};
ghost use Rattle.dm_prim.specs.Touch.{IsApartFrom};
ghost use Rattle.dm_prim.specs.Table.{MovesOutside};
ghost use Rattle.dm_prim.specs.Parts.{NamesUnder};
ghost use Rattle.dm_repo.specs.Aside.{IsAside, StandsAside, StandsNear};
ghost use Rattle.dm_repo.specs.Nearby.{AreSortedTops};
ghost use Rattle.dm_repo.specs.Neighbours.{ContainsNotBefore, IsNotUnderAt};

use crate::tops::place_among;
use dm_named::Named;
use dm_prim::{Glance, Prim, Sketch};
use dm_tree::Path;
use std::alloc::Allocator;

/// Whether a path is at or under the top at a place.
fn is_under_at<A: Allocator, B: Allocator>(path: &Path<A>, tops: &[Path<B>], at: usize) -> bool
    ensures under { IsTrue result → IsUnder tops.now path.now }
    ensures other { result ≡ false → IsNotUnderAt tops.now at path.now }
{
    if at >= tops.len() {
        return false;
    }
    path.is_under(&tops[at])
}

/// Whether a path contains the top before a place, or is that.
fn contains_before<A: Allocator, B: Allocator>(path: &Path<A>, tops: &[Path<B>], at: usize) -> bool
    requires { at ≤ length tops.now }
    ensures { result ≡ false → ContainsNotBefore tops.now at path.now }
{
    if at == 0 {
        return false;
    }
    tops[at - 1].is_under(path)
}

/// Whether a path is at or under one of these.
fn is_under_one<A: Allocator, B: Allocator>(path: &Path<A>, tops: &[Path<B>]) -> bool
    requires { AreSortedTops tops.now }
    ensures { IsTrue result → IsUnder tops.now path.now }
{
    is_under_at(path, tops, place_among(path, tops))
}

/// Whether a path neither is, nor is inside, nor contains one of these. In their order only its two neighbours can be such.
fn is_apart_from<A: Allocator, B: Allocator>(path: &Path<A>, tops: &[Path<B>]) -> bool
    requires { AreSortedTops tops.now }
    ensures { IsTrue result → IsApartFrom tops.now path.now }
{
    let at = place_among(path, tops);
    if is_under_at(path, tops, at) {
        return false;
    }
    if contains_before(path, tops, at) {
        return false;
    }
    true
}

/// The path that a primitive works at, where it is work.
fn work_path<A: Allocator>(prim: &Prim<A>) -> Option<&Path<A>>
    ensures { MatchOption result
        (IsWork (prim_of prim.now) → ⊥)
        (λ path. (w : primitives.Work) × (prim_of prim.now ≡ primitives.At path.now w)) }
{
    match prim {
        Prim::AddFile(path) => Some(path),
        Prim::RmFile(path) => Some(path),
        Prim::AddDir(path) => Some(path),
        Prim::RmDir(path) => Some(path),
        Prim::Hunk(hunk) => Some(hunk.path()),
        Prim::Binary(binary) => Some(binary.path()),
        Prim::Replace(replace) => Some(replace.path()),
        Prim::Move(_, _) => None,
        Prim::ChangePref(_) => None,
    }
}

/// Whether a move from the one path to the other leads outside of what it moves, and both are at or under one of these.
fn moves_near<A: Allocator, B: Allocator>(from: &Path<A>, to: &Path<A>, tops: &[Path<B>]) -> bool
    requires { AreSortedTops tops.now }
    ensures { IsTrue result → NamesUnder tops.now (primitives.Move from.now to.now) × Apart from.now to.now }
{
    if from.is_under(to) {
        return false;
    }
    if to.is_under(from) {
        return false;
    }
    if !is_under_one(from, tops) {
        return false;
    }
    is_under_one(to, tops)
}

/// Whether a primitive names only paths at or under these, and is no move into what it moves.
fn is_near<A: Allocator, B: Allocator>(prim: &Prim<A>, tops: &[Path<B>]) -> bool
    requires { AreSortedTops tops.now }
    ensures { IsTrue result → NamesUnder tops.now (prim_of prim.now) × MovesOutside (prim_of prim.now) }
{
    if let Some(path) = work_path(prim) {
        return is_under_one(path, tops);
    }
    match prim {
        Prim::Move(from, to) => moves_near(from, to, tops),
        _ => true,
    }
}

/// Whether a primitive is work at a path apart from these, or changes a preference.
fn is_aside<A: Allocator, B: Allocator>(prim: &Prim<A>, tops: &[Path<B>]) -> bool
    requires { AreSortedTops tops.now }
    ensures { IsTrue result → IsAside tops.now (prim_of prim.now) }
{
    if let Some(path) = work_path(prim) {
        return is_apart_from(path, tops);
    }
    match prim {
        Prim::Move(_, _) => false,
        _ => true,
    }
}

/// Whether a patch names only paths at or under these, and each of its moves leads outside of what it moves.
pub(crate) fn stands_near<A: Allocator, B: Allocator>(patch: &Named<A>, tops: &[Path<B>]) -> bool
    requires { AreSortedTops tops.now }
    ensures { IsTrue result → StandsNear tops.now patch.now }
{
    let prims = patch.prims();
    for prim in prims {
        prim.tells_valid();
        if !is_near(prim, tops) {
            return false;
        }
    }
    true
}

/// Whether a patch only works at paths apart from these, or changes preferences.
pub(crate) fn stands_aside<A: Allocator, B: Allocator>(patch: &Named<A>, tops: &[Path<B>]) -> bool
    requires { AreSortedTops tops.now }
    ensures { IsTrue result → StandsAside tops.now patch.now }
{
    let prims = patch.prims();
    for prim in prims {
        prim.tells_valid();
        if !is_aside(prim, tops) {
            return false;
        }
    }
    true
}

/// The same, told by the glance where that tells it.
pub(crate) fn stands_aside_at_a_glance<A: Allocator, B: Allocator>(
    patch: &Named<A>,
    glance: Glance,
    tops: &[Path<B>],
    sketch: &Sketch,
) -> bool
    requires glance { IsGlanceOf patch.now.prims glance }
    requires sketch { Covers tops.now sketch.now }
    requires sorted { AreSortedTops tops.now }
    ensures { IsTrue result → StandsAside tops.now patch.now }
{
    if glance.is_aside(sketch) {
        return true;
    }
    stands_aside(patch, tops)
}

/// Whether all these patches stand near.
pub(crate) fn stand_near<A: Allocator, B: Allocator>(list: &[Named<A>], tops: &[Path<B>]) -> bool
    requires { AreSortedTops tops.now }
    ensures { IsTrue result → All (StandsNear tops.now) list.now }
{
    for patch in list {
        if !stands_near(patch, tops) {
            return false;
        }
    }
    true
}
