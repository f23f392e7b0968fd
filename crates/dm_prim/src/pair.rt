//! When two primitives commute: the table, row by row.
ghost use Rattle.std.specs.Prelude.{◌≡◌, ◌↔◌, ◌<◌, ◌⊎◌, ℕ, IfOk, IsTrue, MatchOption, length};
ghost use Rattle.dm_tree.specs.Limits.{most_names};
ghost use Rattle.dm_tree.specs.Paths.{Apart, forward};
ghost use Rattle.dm_prim.specs.Primitives.{Prim, At, Move};
ghost use Rattle.dm_prim.specs.Table.{LiesAbove, ShareNoToken, WorkAndWork, WorkThenMove, MoveThenMove, MovesOutside};
ghost use Rattle.dm_prim.specs.Commuting.{Commutes, IsValidPrim, IsLineNumber};
ghost use Rattle.dm_prim.specs.Hunks.{ChangePlaces, hunk_of};
ghost use Rattle.dm_prim.specs.Replaces.{replace_of};
ghost use Rattle.dm_prim.specs.Prims.{prim_of, path_of, work_of, IsWork, NamesAPath, CommutesTo, PairLawsHold};

use crate::hunk::Hunk;
use crate::places::places;
use crate::primitive::Primitive;
use crate::replace::Replace;
use dm_tokens::Tokens;
use dm_tree::Path;
use std::alloc::{AllocError, Allocator};

/// For p then q the pair q', p' that does the same in that order, by this project's table, made
/// after Darcs.Patch.Prim.V1.Commute; none where the table relates no pair.
pub fn commute<A: Allocator, B: Allocator, C: Allocator + Copy>(
    alloc: C,
    p: &Primitive<A>,
    q: &Primitive<B>,
) -> Result<Option<(Primitive<C>, Primitive<C>)>, AllocError>
    ensures answer { IfOk result (CommutesTo (prim_of p.now) (prim_of q.now)) }
    ensures laws { IfOk result (PairLawsHold (prim_of p.now) (prim_of q.now)) }
{
    let first = p.copy_into(alloc)?;
    let second = q.copy_into(alloc)?;
    commute_owned(alloc, first, second)
}

/// As [`commute`], of primitives that are given up. What does not change is moved: only a path that a
/// move changes, and lines that a replace changes, take memory. At an error both are lost.
pub fn commute_owned<A: Allocator + Copy>(
    alloc: A,
    p: Primitive<A>,
    q: Primitive<A>,
) -> Result<Option<(Primitive<A>, Primitive<A>)>, AllocError>
    ensures { IfOk result (CommutesTo (prim_of p) (prim_of q)) }
{
    if !p.names_a_path() || !q.names_a_path() {
        return Ok(commute_preference(p, q));
    }
    match p.into_move() {
        Ok((a, b)) => match q.into_move() {
            Ok((c, d)) => commute_moves(alloc, a, b, c, d),
            Err(work) => commute_move_work(alloc, a, b, work),
        },
        Err(first) => match q.into_move() {
            Ok((a, b)) => commute_work_move(alloc, first, a, b),
            Err(second) => commute_works(alloc, first, second),
        },
    }
}

/// A change of a preference and any primitive, in either order: both stay as they were.
fn commute_preference<A: Allocator>(
    p: Primitive<A>,
    q: Primitive<A>,
) -> Option<(Primitive<A>, Primitive<A>)>
    requires { (NamesAPath (prim_of p) → ⊥) ⊎ (NamesAPath (prim_of q) → ⊥) }
    ensures { CommutesTo (prim_of p) (prim_of q) result }
{
    p.tells_valid();
    q.tells_valid();
    let change = both_move_outside(&p, &q);
    swapped(p, q, change)
}

/// The two in the other order, if they change places.
fn swapped<A: Allocator>(
    p: Primitive<A>,
    q: Primitive<A>,
    change: bool,
) -> Option<(Primitive<A>, Primitive<A>)>
    requires change { IsTrue change → Commutes (prim_of p) (prim_of q) (prim_of q) (prim_of p) }
    requires stay { ¬ IsTrue change → (second first : Prim) → ¬ Commutes (prim_of p) (prim_of q) second first }
    ensures { CommutesTo (prim_of p) (prim_of q) result }
{
    if !change {
        return None;
    }
    Some((q, p))
}

/// Whether neither is a move one of whose paths is, or contains, the other.
fn both_move_outside<A: Allocator>(p: &Primitive<A>, q: &Primitive<A>) -> bool
    ensures { IsTrue result ↔ MovesOutside (prim_of p.now) × MovesOutside (prim_of q.now) }
{
    if !moves_outside(p) {
        return false;
    }
    moves_outside(q)
}

/// Whether a primitive is no move one of whose paths is, or contains, the other.
pub(crate) fn moves_outside<A: Allocator>(prim: &Primitive<A>) -> bool
    ensures { IsTrue result ↔ MovesOutside (prim_of prim.now) }
{
    match prim {
        Primitive::Move(from, to) => are_apart(from, to),
        _ => true,
    }
}

/// Work on two paths, or on one.
fn commute_works<A: Allocator + Copy>(
    alloc: A,
    p: Primitive<A>,
    q: Primitive<A>,
) -> Result<Option<(Primitive<A>, Primitive<A>)>, AllocError>
    requires first { IsWork (prim_of p) }
    requires second { IsWork (prim_of q) }
    ensures { IfOk result (CommutesTo (prim_of p) (prim_of q)) }
{
    if p.path().same(q.path()) {
        return commute_at_one_path(alloc, p, q);
    }
    p.tells_valid();
    q.tells_valid();
    let change = may_change_places(&p, &q);
    Ok(swapped(p, q, change))
}

/// Work at one path: of it only hunks and replaces commute.
fn commute_at_one_path<A: Allocator + Copy>(
    alloc: A,
    p: Primitive<A>,
    q: Primitive<A>,
) -> Result<Option<(Primitive<A>, Primitive<A>)>, AllocError>
    requires first { IsWork (prim_of p) }
    requires second { IsWork (prim_of q) }
    requires one_path { path_of (prim_of p) ≡ path_of (prim_of q) }
    ensures { IfOk result (CommutesTo (prim_of p) (prim_of q)) }
{
    match p.into_hunk() {
        Ok(hunk) => commute_hunk(alloc, hunk, q),
        Err(other) => {
            let Some(replace) = other.into_replace() else {
                return Ok(None);
            };
            commute_replace(alloc, replace, q)
        }
    }
}

/// A hunk, then work on its file.
fn commute_hunk<A: Allocator + Copy>(
    alloc: A,
    hunk: Hunk<A>,
    q: Primitive<A>,
) -> Result<Option<(Primitive<A>, Primitive<A>)>, AllocError>
    requires second { IsWork (prim_of q) }
    requires one_path { hunk.path ≡ path_of (prim_of q) }
    ensures { IfOk result (CommutesTo (hunk_of hunk) (prim_of q)) }
{
    match q.into_hunk() {
        Ok(second) => Ok(commute_hunks(hunk, second)),
        Err(other) => {
            let Some(replace) = other.into_replace() else {
                return Ok(None);
            };
            commute_hunk_replace(alloc, hunk, replace)
        }
    }
}

/// A replace, then work on its file.
fn commute_replace<A: Allocator + Copy>(
    alloc: A,
    replace: Replace<A>,
    q: Primitive<A>,
) -> Result<Option<(Primitive<A>, Primitive<A>)>, AllocError>
    requires second { IsWork (prim_of q) }
    requires one_path { replace.path ≡ path_of (prim_of q) }
    ensures { IfOk result (CommutesTo (replace_of replace) (prim_of q)) }
{
    match q.into_hunk() {
        Ok(hunk) => commute_replace_hunk(alloc, replace, hunk),
        Err(other) => {
            let Some(second) = other.into_replace() else {
                return Ok(None);
            };
            Ok(commute_replaces(replace, second))
        }
    }
}

/// A hunk, then a replace of its file: the replace as it was, the hunk with its lines turned.
fn commute_hunk_replace<A: Allocator + Copy>(
    alloc: A,
    hunk: Hunk<A>,
    replace: Replace<A>,
) -> Result<Option<(Primitive<A>, Primitive<A>)>, AllocError>
    requires { hunk.path ≡ replace.path }
    ensures { IfOk result (CommutesTo (hunk_of hunk) (replace_of replace)) }
{
    replace.tells_valid();
    let Some(turned) = hunk.turned(alloc, replace.tokens())? else {
        return Ok(None);
    };
    Ok(Some((Primitive::Replace(replace), Primitive::Hunk(turned))))
}

/// A replace, then a hunk of its file: the hunk with its lines turned back, the replace as it was.
fn commute_replace_hunk<A: Allocator + Copy>(
    alloc: A,
    replace: Replace<A>,
    hunk: Hunk<A>,
) -> Result<Option<(Primitive<A>, Primitive<A>)>, AllocError>
    requires { replace.path ≡ hunk.path }
    ensures { IfOk result (CommutesTo (replace_of replace) (hunk_of hunk)) }
{
    replace.tells_valid();
    let back = replace.inverse();
    let Some(turned) = hunk.turned(alloc, back.tokens())? else {
        return Ok(None);
    };
    Ok(Some((Primitive::Hunk(turned), Primitive::Replace(back.inverse()))))
}

/// Two replaces of one file: both as they were, if they are of one set and have no token in common.
fn commute_replaces<A: Allocator>(
    first: Replace<A>,
    second: Replace<A>,
) -> Option<(Primitive<A>, Primitive<A>)>
    requires { first.path ≡ second.path }
    ensures { CommutesTo (replace_of first) (replace_of second) result }
{
    first.tells_valid();
    second.tells_valid();
    let change = are_apart_tokens(first.tokens(), second.tokens());
    swapped(
        Primitive::Replace(first),
        Primitive::Replace(second),
        change,
    )
}

/// Whether tokens are of one set, and none of the first is one of the second.
fn are_apart_tokens<A: Allocator>(a: &Tokens<A>, b: &Tokens<A>) -> bool
    ensures { IsTrue result ↔ (a.now.set ≡ b.now.set) × ShareNoToken a.now.old a.now.new b.now.old b.now.new }
{
    if a.set_text() != b.set_text() {
        return false;
    }
    if a.old() == b.old() {
        return false;
    }
    if a.old() == b.new_token() {
        return false;
    }
    if a.new_token() == b.old() {
        return false;
    }
    a.new_token() != b.new_token()
}

/// Hunks of one file: both keep their lines, and one of them may get another place.
fn commute_hunks<A: Allocator>(
    first: Hunk<A>,
    second: Hunk<A>,
) -> Option<(Primitive<A>, Primitive<A>)>
    requires { first.path ≡ second.path }
    ensures { CommutesTo (hunk_of first) (hunk_of second) result }
{
    let (second_line, first_line) = places(first.span(), second.span())?;
    Some((
        Primitive::Hunk(second.at_line(second_line)),
        Primitive::Hunk(first.at_line(first_line)),
    ))
}

/// Whether neither path is, or is inside, the other: the longer one has to be asked alone.
pub(crate) fn are_apart<A: Allocator, B: Allocator>(a: &Path<A>, b: &Path<B>) -> bool
    ensures { IsTrue result ↔ Apart a.now b.now }
{
    if a.len() < b.len() {
        return !b.is_under(a);
    }
    !a.is_under(b)
}

/// Whether work and work on two paths change places: where one is directory work, neither path may
/// contain the other.
fn may_change_places<A: Allocator, B: Allocator>(p: &Primitive<A>, q: &Primitive<B>) -> bool
    requires first { IsWork (prim_of p.now) }
    requires second { IsWork (prim_of q.now) }
    requires differ { path_of (prim_of p.now) ≡ path_of (prim_of q.now) → ⊥ }
    ensures { IsTrue result ↔ WorkAndWork (path_of (prim_of p.now)) (work_of (prim_of p.now)) (path_of (prim_of q.now)) (work_of (prim_of q.now)) }
{
    if p.is_directory_work() {
        return are_apart(p.path(), q.path());
    }
    if q.is_directory_work() {
        return are_apart(p.path(), q.path());
    }
    true
}

/// Work, then a move: the move as it was, the work with its path forward.
fn commute_work_move<A: Allocator + Copy>(
    alloc: A,
    p: Primitive<A>,
    a: Path<A>,
    b: Path<A>,
) -> Result<Option<(Primitive<A>, Primitive<A>)>, AllocError>
    requires { IsWork (prim_of p) }
    ensures { IfOk result (CommutesTo (prim_of p) (Move a b)) }
{
    if !may_move_after(&p, &a, &b) {
        return Ok(None);
    }
    let Some(moved) = forward_work(alloc, p, &a, &b)? else {
        return Ok(None);
    };
    Ok(Some((Primitive::Move(a, b), moved)))
}

/// A move, then work: the work with its path back, which is forward through the move back; the move
/// as it was.
fn commute_move_work<A: Allocator + Copy>(
    alloc: A,
    a: Path<A>,
    b: Path<A>,
    q: Primitive<A>,
) -> Result<Option<(Primitive<A>, Primitive<A>)>, AllocError>
    requires { IsWork (prim_of q) }
    ensures { IfOk result (CommutesTo (Move a b) (prim_of q)) }
{
    if !may_move_after(&q, &b, &a) {
        return Ok(None);
    }
    let Some(moved) = forward_work(alloc, q, &b, &a)? else {
        return Ok(None);
    };
    Ok(Some((moved, Primitive::Move(a, b))))
}

/// Whether work, then the move of a to b, change places.
fn may_move_after<A: Allocator, B: Allocator>(p: &Primitive<A>, a: &Path<B>, b: &Path<B>) -> bool
    requires { IsWork (prim_of p.now) }
    ensures { IsTrue result ↔ WorkThenMove (path_of (prim_of p.now)) (work_of (prim_of p.now)) a.now b.now }
{
    if !are_apart(a, b) {
        return false;
    }
    let path = p.path();
    if path.same(b) {
        return false;
    }
    if path.is_inside(b) {
        return false;
    }
    if a.is_inside(path) {
        return false;
    }
    if b.is_inside(path) {
        return false;
    }
    if path.same(a) {
        return p.keeps_file();
    }
    true
}

/// The same work with its path forward through the move of `from` to `to`; none where that path
/// would have more than 32 names.
fn forward_work<A: Allocator + Copy>(
    alloc: A,
    work: Primitive<A>,
    from: &Path<A>,
    to: &Path<A>,
) -> Result<Option<Primitive<A>>, AllocError>
    requires { IsWork (prim_of work) }
    ensures value { IfOk result (λ answer. MatchOption answer
        (most_names < length (forward from.now to.now (path_of (prim_of work))))
        (λ moved. (prim_of moved ≡ At (forward from.now to.now (path_of (prim_of work))) (work_of (prim_of work))) × IsValidPrim (prim_of moved))) }
    ensures valid { IsValidPrim (prim_of work) }
{
    work.tells_valid();
    if !work.path().is_under(from) {
        return Ok(Some(work));
    }
    let Some(path) = work.path().forward(alloc, from, to)? else {
        return Ok(None);
    };
    let moved = work.at(path);
    moved.tells_valid();
    Ok(Some(moved))
}

/// Two moves: the second with its paths back through the first, then the first with its paths
/// forward through that.
fn commute_moves<A: Allocator + Copy>(
    alloc: A,
    a: Path<A>,
    b: Path<A>,
    c: Path<A>,
    d: Path<A>,
) -> Result<Option<(Primitive<A>, Primitive<A>)>, AllocError>
    ensures { IfOk result (CommutesTo (Move a b) (Move c d)) }
{
    if !may_move_both(&a, &b, &c, &d) {
        return Ok(None);
    }
    let Some(from) = forward_path(alloc, c, &b, &a)? else {
        return Ok(None);
    };
    let Some(to) = forward_path(alloc, d, &b, &a)? else {
        return Ok(None);
    };
    let Some(first_from) = forward_path(alloc, a, &from, &to)? else {
        return Ok(None);
    };
    let Some(first_to) = forward_path(alloc, b, &from, &to)? else {
        return Ok(None);
    };
    let second = Primitive::moving(from, to);
    let first = Primitive::moving(first_from, first_to);
    Ok(Some((second, first)))
}

/// Whether the move of a to b, then that of c to d, change places.
fn may_move_both<A: Allocator>(a: &Path<A>, b: &Path<A>, c: &Path<A>, d: &Path<A>) -> bool
    ensures { IsTrue result ↔ MoveThenMove a.now b.now c.now d.now }
{
    if !are_apart(a, b) {
        return false;
    }
    if !are_apart(c, d) {
        return false;
    }
    if c.same(b) {
        return false;
    }
    if d.same(a) {
        return false;
    }
    if c.same(a) {
        return false;
    }
    if d.same(b) {
        return false;
    }
    if c.is_inside(a) {
        return false;
    }
    if d.is_inside(a) {
        return false;
    }
    if a.is_inside(d) {
        return false;
    }
    if b.is_inside(d) {
        return false;
    }
    if a.is_inside(c) && d.is_inside(b) {
        return false;
    }
    true
}

/// The path forward through the move of `from` to `to`, moved where it stays as it was; none where
/// it would have more than 32 names.
fn forward_path<A: Allocator + Copy>(
    alloc: A,
    path: Path<A>,
    from: &Path<A>,
    to: &Path<A>,
) -> Result<Option<Path<A>>, AllocError>
    ensures { IfOk result (λ answer. MatchOption answer
        (most_names < length (forward from.now to.now path))
        (λ moved. moved ≡ forward from.now to.now path)) }
{
    if !path.is_under(from) {
        return Ok(Some(path));
    }
    path.forward(alloc, from, to)
}
