//! The paths that a list of primitives touches.
ghost use Rattle.std.specs.Prelude.{◌≡◌, ◌↔◌, ◌++◌, ◌∷◌, [], All, Contains, IfOk, List, OnOk, IsTrue};
ghost use Rattle.dm_tree.specs.Paths.{Path as TreePath};
ghost use Rattle.dm_prim.specs.Glances.{IsGlanceOf};
ghost use Rattle.dm_prim.specs.Primitives.{Prim};
ghost use Rattle.dm_prim.specs.Table.{MovesOutside};
ghost use Rattle.dm_prim.specs.Commuting.{IsValidPrim};
ghost use Rattle.dm_prim.specs.Prims.{MovesNothing, prim_of, prims_of};
ghost use Rattle.dm_prim.specs.Sketches.{Covers};
ghost use Rattle.dm_prim.specs.Touch.{AreApart, IsApartFrom, IsNamedAmong, IsTouched, MoveNothing, NamesAmong, PassUnchanged, StayTouched, Touches, TouchesMore};

use crate::glance::Glance;
use crate::pair::{are_apart, moves_outside};
use crate::primitive::Primitive;
use crate::sketch::Sketch;
use dm_tree::Path;
use std::alloc::{AllocError, Allocator};
use std::marker::Model;

/// The paths that a list of primitives names, whether each of its moves leads outside of what it moves, and whether it has
/// no move at all.
#[derive(Drop)]
pub struct Touched<A: Allocator> {
    paths: Vec<Path<A>, A>,
    sketch: Sketch,
    moves_outside: bool,
    moves_nothing: bool,
}

impl<A: Allocator> Model for Touched<A> {
    ghost use Rattle.dm_prim.specs.Touch.{TouchedPaths};
    ghost use Rattle.dm_prim.specs.Sketches.{Covers};

    ghost Value = { TouchedPaths };

    ghost view = { λ t. record { paths = t.paths.items; moves_outside = t.moves_outside; moves_nothing = t.moves_nothing } };

    ghost invariant = { λ t. Covers t.paths.items t.sketch };
}

impl<A: Allocator + Copy> Touched<A> {
    /// Adds what one more primitive touches.
    fn add<B: Allocator>(&mut self, prim: &Primitive<B>) -> Result<(), AllocError>
        ensures { OnOk result (TouchesMore (prim_of prim.now) self.old self.new) }
    {
        prim.tells_valid();
        if !prim.names_a_path() {
            return Ok(());
        }
        add_path(&mut self.paths, &mut self.sketch, prim.path())?;
        if let Some(target) = prim.target() {
            add_path(&mut self.paths, &mut self.sketch, target)?;
            self.moves_nothing = false;
            if !are_apart(prim.path(), target) {
                self.moves_outside = false;
            }
        }
        Ok(())
    }
}

impl<A: Allocator> Touched<A> {
    /// The paths that are touched, each at least once.
    pub fn into_paths(self) -> Vec<Path<A>, A>
        ensures { result.items ≡ self.paths }
    {
        self.paths
    }

    /// What is kept of it without its paths.
    pub fn glance(&self) -> Glance
        ensures { (ps : List Prim) → Touches ps self.now → IsGlanceOf ps result }
    {
        Glance {
            sketch: self.sketch,
            moves_nothing: self.moves_nothing,
        }
    }

    /// Whether this is what a list of primitives touches: so it is after a commute that changed no path. Takes no memory.
    pub fn is_of<B: Allocator>(&self, prims: &[Primitive<B>]) -> bool
        ensures { IsTrue result ↔ Touches (prims_of prims.now) self.now }
    {
        let paths = self.paths.as_slice();
        for prim in prims {
            prim.tells_valid();
            if !names_among(prim, paths) {
                return false;
            }
        }
        if !are_all_named(paths, prims) {
            return false;
        }
        if all_move_outside(prims) != self.moves_outside {
            return false;
        }
        all_move_nothing(prims) == self.moves_nothing
    }

    /// Whether neither of two lists that touch this has a move: where they commute, both go on touching what they did, and
    /// neither has to be asked. Takes no memory.
    pub fn stays_with<B: Allocator>(&self, other: &Touched<B>) -> bool
        ensures moves_nothing { IsTrue result ↔ MoveNothing self.now other.now }
        ensures stays { IsTrue result → StayTouched self.now other.now }
    {
        if !self.moves_nothing {
            return false;
        }
        other.moves_nothing
    }
}

/// Adds a path, unless it is one of the last two there: the primitives of a patch often work at one path in turn, or at two.
fn add_path<A: Allocator + Copy, B: Allocator>(
    paths: &mut Vec<Path<A>, A>,
    sketch: &mut Sketch,
    path: &Path<B>,
) -> Result<(), AllocError>
    ensures paths { OnOk result ((f : TreePath) → Contains paths.new.items f ↔ Contains (paths.old.items ++ path.now ∷ []) f) }
    ensures sketch { Covers paths.old.items sketch.old → Covers paths.new.items sketch.new }
{
    if is_recent(path, paths) {
        return Ok(());
    }
    let alloc = *paths.allocator();
    let copy = path.copy_into(alloc)?;
    paths.push(copy)?;
    sketch.add(path);
    Ok(())
}

/// What a list of primitives touches.
pub fn touch<A: Allocator, B: Allocator + Copy>(
    alloc: B,
    prims: &[Primitive<A>],
) -> Result<Touched<B>, AllocError>
    ensures { IfOk result (Touches (prims_of prims.now)) }
{
    let mut touched = Touched {
        paths: Vec::new(alloc),
        sketch: Sketch::new(),
        moves_outside: true,
        moves_nothing: true,
    };
    for prim in prims {
        touched.add(prim)?;
    }
    Ok(touched)
}

/// Whether a path is one of these.
fn is_among<A: Allocator, B: Allocator>(path: &Path<A>, paths: &[Path<B>]) -> bool
    ensures { IsTrue result ↔ Contains paths.now path.now }
{
    paths.iter().any(|other| other.same(path))
}

/// Whether a path is one of the last two of these.
fn is_recent<A: Allocator, B: Allocator>(path: &Path<A>, paths: &[Path<B>]) -> bool
    ensures { IsTrue result → Contains paths.now path.now }
{
    let from = paths.len().saturating_sub(2);
    is_among(path, &paths[from..])
}

/// Whether all that a primitive names is among these paths.
fn names_among<A: Allocator, B: Allocator>(prim: &Primitive<A>, paths: &[Path<B>]) -> bool
    ensures { IsTrue result ↔ NamesAmong paths.now (prim_of prim.now) }
{
    if !prim.names_a_path() {
        return true;
    }
    if !is_among(prim.path(), paths) {
        return false;
    }
    match prim.target() {
        Some(target) => is_among(target, paths),
        None => true,
    }
}

/// Whether a primitive names a path.
fn names<A: Allocator, B: Allocator>(prim: &Primitive<A>, path: &Path<B>) -> bool
    ensures { IsTrue result ↔ IsTouched (prim_of prim.now ∷ []) path.now }
{
    if !prim.names_a_path() {
        return false;
    }
    if prim.path().same(path) {
        return true;
    }
    match prim.target() {
        Some(target) => target.same(path),
        None => false,
    }
}

/// Whether one of these primitives names a path.
fn is_named<A: Allocator, B: Allocator>(path: &Path<A>, prims: &[Primitive<B>]) -> bool
    ensures { IsTrue result ↔ IsNamedAmong (prims_of prims.now) path.now }
{
    for prim in prims {
        if names(prim, path) {
            return true;
        }
    }
    false
}

/// Whether each of these paths is named by one of these primitives.
fn are_all_named<A: Allocator, B: Allocator>(paths: &[Path<A>], prims: &[Primitive<B>]) -> bool
    ensures { IsTrue result ↔ All (IsNamedAmong (prims_of prims.now)) paths.now }
{
    for path in paths {
        if !is_named(path, prims) {
            return false;
        }
    }
    true
}

/// Whether no primitive of these is a move one of whose paths is, or contains, the other.
fn all_move_outside<A: Allocator>(prims: &[Primitive<A>]) -> bool
    ensures { IsTrue result ↔ All MovesOutside (prims_of prims.now) }
{
    for prim in prims {
        if !moves_outside(prim) {
            return false;
        }
    }
    true
}

/// Whether a primitive is no move.
fn moves_nothing<A: Allocator>(prim: &Primitive<A>) -> bool
    ensures { IsTrue result ↔ MovesNothing (prim_of prim.now) }
{
    match prim.target() {
        Some(_) => false,
        None => true,
    }
}

/// Whether no primitive of these is a move.
fn all_move_nothing<A: Allocator>(prims: &[Primitive<A>]) -> bool
    ensures { IsTrue result ↔ All MovesNothing (prims_of prims.now) }
{
    for prim in prims {
        if !moves_nothing(prim) {
            return false;
        }
    }
    true
}

/// Whether a path neither is, nor is inside, nor contains one of these.
fn is_apart_from<A: Allocator, B: Allocator>(path: &Path<A>, others: &[Path<B>]) -> bool
    ensures { IsTrue result ↔ IsApartFrom others.now path.now }
{
    others.iter().all(|other| are_apart(path, other))
}

/// Whether each of these paths is apart from each of the others.
fn all_apart<A: Allocator, B: Allocator>(paths: &[Path<A>], others: &[Path<B>]) -> bool
    ensures { IsTrue result ↔ All (IsApartFrom others.now) paths.now }
{
    for path in paths {
        if !is_apart_from(path, others) {
            return false;
        }
    }
    true
}

/// Whether they touch nothing in common, and all moves lead outside of what they move.
fn touch_nothing_in_common<A: Allocator, B: Allocator>(
    first: &Touched<A>,
    second: &Touched<B>,
) -> bool
    ensures { IsTrue result ↔ AreApart first.now second.now }
{
    if !first.moves_outside {
        return false;
    }
    if !second.moves_outside {
        return false;
    }
    if first.sketch.is_apart_from(&second.sketch) {
        return true;
    }
    all_apart(&first.paths, &second.paths)
}

/// Whether two lists that touch this are apart: no path of one is, is inside or contains a path of the other, and no move
/// of either has a path that is, or contains, the other. Such lists commute and stay as they are. Takes no memory.
pub fn apart<A: Allocator, B: Allocator>(first: &Touched<A>, second: &Touched<B>) -> bool
    ensures apart { IsTrue result ↔ AreApart first.now second.now }
    ensures unchanged { IsTrue result → PassUnchanged first.now second.now }
{
    touch_nothing_in_common(first, second)
}
