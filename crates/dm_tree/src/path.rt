//! The path of an entry: 1 to 32 names.
ghost use Rattle.std.specs.Prelude.{◌≡◌, ◌<◌, ◌≤◌, ◌↔◌, ◌∷◌, [], length, map, IfOk, IfSome, IsTrue, MatchOption, Some, slice_index_or};
ghost use Rattle.dm_tree.specs.Validity.{AnswersPath, IsValidPath, is_bad_name, names_fault, path_fault, path_fault_of};
ghost use Rattle.dm_tree.specs.Limits.{most_names};
ghost use Rattle.dm_tree.specs.Paths.{Inside, Under, forward};

use crate::bytes::{Bytes, copy_all, is_same, push_all};
use crate::fault::PathFault;
use crate::limits::{MOST_NAME_BYTES, MOST_NAMES};
use std::alloc::{AllocError, Allocator};
use std::marker::Model;

/// The path of an entry: 1 to 32 names of 1 to 255 bytes each, from the root down.
///
/// It owns its names. The root has no path of this type: no change is made to it.
#[derive(Drop)]
pub struct Path<A: Allocator> {
    names: Vec<Bytes<A>, A>,
}

impl<A: Allocator> Model for Path<A> {
    ghost use Rattle.std.specs.Prelude.{List, ℕ};
    ghost use Rattle.dm_tree.specs.Validity.{IsValidPath};

    ghost Value = { List (List ℕ) };

    ghost view = { λ a. a.names.items };

    ghost invariant = { λ a. IsValidPath a.names.items };
}

impl<A: Allocator + Copy> Path<A> {
    /// A path of copies of the names.
    ///
    /// The first fault decides: [`PathFault::Empty`], [`PathFault::TooDeep`], and then name by
    /// name [`PathFault::BadName`] before [`PathFault::TooLong`].
    pub fn from_parts(alloc: A, parts: &[&[u8]]) -> Result<Path<A>, PathFault>
        ensures fault { AnswersPath result (path_fault (map (λ b. b.now) parts.now)) }
        ensures parts { IfOk result (λ r. r ≡ map (λ b. b.now) parts.now) }
    {
        if let Some(fault) = refused(parts) {
            return Err(fault);
        }
        let names = copy_names(alloc, parts)?;
        Ok(Path { names })
    }

    /// A path of these names: it takes them over, and no name is copied.
    ///
    /// The first fault decides, as in [`Path::from_parts`].
    pub fn from_owned(names: Vec<Vec<u8, A>, A>) -> Result<Path<A>, PathFault>
        ensures fault { AnswersPath result (path_fault (map (λ v. v.items) names.items)) }
        ensures parts { IfOk result (λ r. r ≡ map (λ v. v.items) names.items) }
    {
        if let Some(fault) = refused_owned(&names) {
            return Err(fault);
        }
        let names = own_names(names)?;
        Ok(Path { names })
    }
}

/// The first fault of the names.
fn refused(parts: &[&[u8]]) -> Option<PathFault>
    ensures fault { result ≡ path_fault (map (λ b. b.now) parts.now) }
    ensures named { IfSome result (λ e. path_fault_of e ≡ Some e) }
{
    if parts.is_empty() {
        return Some(PathFault::Empty);
    }
    if parts.len() > MOST_NAMES {
        return Some(PathFault::TooDeep);
    }
    for part in parts {
        if let Some(fault) = refused_name(part) {
            return Some(fault);
        }
    }
    None
}

/// The first fault of names that are owned.
fn refused_owned<A: Allocator>(names: &[Vec<u8, A>]) -> Option<PathFault>
    ensures fault { result ≡ path_fault (map (λ v. v.items) names.now) }
    ensures named { IfSome result (λ e. path_fault_of e ≡ Some e) }
{
    if names.is_empty() {
        return Some(PathFault::Empty);
    }
    if names.len() > MOST_NAMES {
        return Some(PathFault::TooDeep);
    }
    for name in names {
        if let Some(fault) = refused_name(name.as_slice()) {
            return Some(fault);
        }
    }
    None
}

/// The fault of a name.
fn refused_name(name: &[u8]) -> Option<PathFault>
    ensures fault { result ≡ names_fault (name.now ∷ []) }
    ensures named { IfSome result (λ e. path_fault_of e ≡ Some e) }
{
    if is_bad(name) {
        return Some(PathFault::BadName);
    }
    if name.len() > MOST_NAME_BYTES {
        return Some(PathFault::TooLong);
    }
    None
}

/// Whether no path may have this name, however long.
fn is_bad(name: &[u8]) -> bool
    ensures { result ≡ is_bad_name name.now }
{
    is_same(name, b"")
        || is_same(name, b".")
        || is_same(name, b"..")
        || is_same(name, b"_darcs")
        || name.contains(&b'/')
        || name.contains(&0)
}

fn copy_names<A: Allocator + Copy>(
    alloc: A,
    parts: &[&[u8]],
) -> Result<Vec<Bytes<A>, A>, AllocError>
    ensures { IfOk result (λ r. r.items ≡ map (λ b. b.now) parts.now) }
{
    let mut names = Vec::with_capacity(alloc, parts.len())?;
    for part in parts {
        names.push(Bytes::from_slice(alloc, part)?)?;
    }
    Ok(names)
}

/// The same names, none of them copied.
fn own_names<A: Allocator + Copy>(names: Vec<Vec<u8, A>, A>) -> Result<Vec<Bytes<A>, A>, AllocError>
    ensures { IfOk result (λ r. r.items ≡ map (λ v. v.items) names.items) }
{
    let mut owned = Vec::with_capacity(*names.allocator(), names.len())?;
    for name in names {
        owned.push(Bytes::from_vec(name))?;
    }
    Ok(owned)
}

impl<A: Allocator> Path<A> {
    /// The count of names, 1 to 32.
    pub fn len(&self) -> usize
        ensures value { result ≡ length self.now }
        ensures valid { IsValidPath self.now }
    {
        self.names.len()
    }

    /// The name at a place, from 0, borrowed.
    pub fn part(&self, i: usize) -> &[u8]
        requires { i < length self.now }
        ensures { result.now ≡ slice_index_or self.now i [] }
    {
        self.names[i].as_slice()
    }

    /// Whether both have the same names.
    pub fn same<B: Allocator>(&self, other: &Path<B>) -> bool
        ensures { IsTrue result ↔ (self.now ≡ other.now) }
    {
        other.names.len() == self.names.len() && begins(&self.names, &other.names)
    }

    /// Whether this path begins with all names of the other, and has more.
    pub fn is_inside<B: Allocator>(&self, other: &Path<B>) -> bool
        ensures { IsTrue result ↔ Inside self.now other.now }
    {
        other.names.len() < self.names.len() && begins(&self.names, &other.names)
    }

    /// Whether this path is the other, or inside it.
    pub fn is_under<B: Allocator>(&self, other: &Path<B>) -> bool
        ensures { IsTrue result ↔ Under self.now other.now }
    {
        begins(&self.names, &other.names)
    }

    /// A copy with another allocator.
    pub fn copy_into<B: Allocator + Copy>(&self, alloc: B) -> Result<Path<B>, AllocError>
        ensures { IfOk result (λ r. r ≡ self.now) }
    {
        let names = copy_all(alloc, self.names())?;
        Ok(Path { names })
    }

    /// This path once what is at `from` was moved to `to`; None where it would then have more
    /// than 32 names.
    pub fn forward<B: Allocator, C: Allocator, D: Allocator + Copy>(
        &self,
        alloc: D,
        from: &Path<B>,
        to: &Path<C>,
    ) -> Result<Option<Path<D>>, AllocError>
        ensures value { IfOk result (λ answer. MatchOption answer
            (most_names < length (forward from.now to.now self.now))
            (λ path. path ≡ forward from.now to.now self.now)) }
        ensures valid { IsValidPath self.now × IsValidPath from.now × IsValidPath to.now }
    {
        let names = self.names();
        let front = from.names();
        let base = to.names();
        if !begins(names, front) {
            return Ok(Some(self.copy_into(alloc)?));
        }
        let rest = &names[front.len()..];
        if base.len() + rest.len() > MOST_NAMES {
            return Ok(None);
        }
        let mut moved = Vec::with_capacity(alloc, base.len() + rest.len())?;
        push_all(&mut moved, base)?;
        push_all(&mut moved, rest)?;
        Ok(Some(Path { names: moved }))
    }

    pub(crate) fn from_names(names: Vec<Bytes<A>, A>) -> Path<A>
        requires { IsValidPath names.items }
        ensures { result ≡ names.items }
    {
        Path { names }
    }

    pub(crate) fn names(&self) -> &[Bytes<A>]
        ensures value { result.now ≡ self.now }
        ensures not_root { 0 < length self.now }
        ensures not_deep { length self.now ≤ most_names }
        ensures valid { IsValidPath self.now }
    {
        self.names.as_slice()
    }
}

/// Whether the texts begin with all those of the front. The last of the front is looked at first: the paths of
/// one tree mostly share their first names.
pub(crate) fn begins<A: Allocator, B: Allocator>(texts: &[Bytes<A>], front: &[Bytes<B>]) -> bool
    ensures { IsTrue result ↔ Under texts.now front.now }
{
    if texts.len() < front.len() {
        return false;
    }
    for i in (0..front.len()).rev() {
        if !is_same(texts[i].as_slice(), front[i].as_slice()) {
            return false;
        }
    }
    true
}
