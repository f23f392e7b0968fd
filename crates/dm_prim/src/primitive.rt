//! Primitive patches, over any allocator.
ghost use Rattle.std.specs.Prelude.{◌≡◌, ◌↔◌, IfOk, IsTrue, MatchOption, MatchResult};
ghost use Rattle.dm_prim.specs.Primitives as primitives;
ghost use Rattle.dm_prim.specs.Table.{IsDirectoryWork, IsHunk, IsReplace, KeepsFile};
ghost use Rattle.dm_prim.specs.Commuting.{IsValidPrim};
ghost use Rattle.dm_prim.specs.Hunks.{hunk_of};
ghost use Rattle.dm_prim.specs.Replaces.{replace_of};
ghost use Rattle.dm_prim.specs.Prims.{prim_of, path_of, work_of, IsWork, NamesAPath, MovesNothing};

use crate::binary::Binary;
use crate::hunk::Hunk;
use crate::preference::Preference;
use crate::replace::Replace;
use dm_tree::Path;
use std::alloc::{AllocError, Allocator};

/// A primitive patch: a change of a tree at one path, the move of all that is at or under the first
/// path to the second, or another value for a preference.
pub enum Primitive<A: Allocator> {
    AddFile(Path<A>),
    RmFile(Path<A>),
    AddDir(Path<A>),
    RmDir(Path<A>),
    Move(Path<A>, Path<A>),
    Hunk(Hunk<A>),
    Binary(Binary<A>),
    Replace(Replace<A>),
    ChangePref(Preference<A>),
}

// By hand, so that this is called where one goes. What is derived stands there in full.
impl<A: Allocator> Drop for Primitive<A> {
    fn drop(self) {
        match self {
            Primitive::AddFile(_) => {}
            Primitive::RmFile(_) => {}
            Primitive::AddDir(_) => {}
            Primitive::RmDir(_) => {}
            Primitive::Move(_, _) => {}
            Primitive::Hunk(_) => {}
            Primitive::Binary(_) => {}
            Primitive::Replace(_) => {}
            Primitive::ChangePref(_) => {}
        }
    }
}

impl<A: Allocator> Primitive<A> {
    /// The same primitive with another allocator.
    pub fn copy_into<B: Allocator + Copy>(&self, alloc: B) -> Result<Primitive<B>, AllocError>
        ensures value { IfOk result (λ copy. prim_of copy ≡ prim_of self.now) }
        ensures valid { IsValidPrim (prim_of self.now) }
    {
        self.tells_valid();
        match self {
            Primitive::AddFile(path) => Ok(Primitive::AddFile(path.copy_into(alloc)?)),
            Primitive::RmFile(path) => Ok(Primitive::RmFile(path.copy_into(alloc)?)),
            Primitive::AddDir(path) => Ok(Primitive::AddDir(path.copy_into(alloc)?)),
            Primitive::RmDir(path) => Ok(Primitive::RmDir(path.copy_into(alloc)?)),
            Primitive::Move(from, to) => {
                let from = from.copy_into(alloc)?;
                let to = to.copy_into(alloc)?;
                Ok(Primitive::Move(from, to))
            }
            Primitive::Hunk(hunk) => Ok(Primitive::Hunk(hunk.copy_into(alloc)?)),
            Primitive::Binary(binary) => Ok(Primitive::Binary(binary.copy_into(alloc)?)),
            Primitive::Replace(replace) => Ok(Primitive::Replace(replace.copy_into(alloc)?)),
            Primitive::ChangePref(change) => Ok(Primitive::ChangePref(change.copy_into(alloc)?)),
        }
    }

    /// The primitive that undoes it. Takes no memory.
    pub(crate) fn inverse(self) -> Primitive<A>
        ensures { prim_of result ≡ primitives.inv (prim_of self) }
    {
        match self {
            Primitive::AddFile(path) => Primitive::RmFile(path),
            Primitive::RmFile(path) => Primitive::AddFile(path),
            Primitive::AddDir(path) => Primitive::RmDir(path),
            Primitive::RmDir(path) => Primitive::AddDir(path),
            Primitive::Move(from, to) => Primitive::Move(to, from),
            Primitive::Hunk(hunk) => Primitive::Hunk(hunk.inverse()),
            Primitive::Binary(binary) => Primitive::Binary(binary.inverse()),
            Primitive::Replace(replace) => Primitive::Replace(replace.inverse()),
            Primitive::ChangePref(change) => Primitive::ChangePref(change.inverse()),
        }
    }

    /// The move of all that is at or under one path to another.
    pub(crate) fn moving(from: Path<A>, to: Path<A>) -> Primitive<A>
        ensures value { prim_of result ≡ primitives.Move from to }
        ensures valid { IsValidPrim (primitives.Move from to) }
    {
        Primitive::Move(from, to)
    }

    /// Whether it names a path, as all do but a change of a preference.
    pub(crate) fn names_a_path(&self) -> bool
        ensures { IsTrue result ↔ NamesAPath (prim_of self.now) }
    {
        match self {
            Primitive::AddFile(_) => true,
            Primitive::RmFile(_) => true,
            Primitive::AddDir(_) => true,
            Primitive::RmDir(_) => true,
            Primitive::Move(_, _) => true,
            Primitive::Hunk(_) => true,
            Primitive::Binary(_) => true,
            Primitive::Replace(_) => true,
            Primitive::ChangePref(_) => false,
        }
    }

    /// The path that it works at, or that it moves.
    pub(crate) fn path(&self) -> &Path<A>
        requires { NamesAPath (prim_of self.now) }
        ensures { result.now ≡ path_of (prim_of self.now) }
    {
        match self {
            Primitive::AddFile(path) => path,
            Primitive::RmFile(path) => path,
            Primitive::AddDir(path) => path,
            Primitive::RmDir(path) => path,
            Primitive::Move(from, _) => from,
            Primitive::Hunk(hunk) => hunk.path(),
            Primitive::Binary(binary) => binary.path(),
            Primitive::Replace(replace) => replace.path(),
            Primitive::ChangePref(_) => unreachable!(),
        }
    }

    /// The path that it moves to, where it is a move.
    pub(crate) fn target(&self) -> Option<&Path<A>>
        ensures { MatchOption result
            (MovesNothing (prim_of self.now))
            (λ to. prim_of self.now ≡ primitives.Move (path_of (prim_of self.now)) to.now) }
    {
        match self {
            Primitive::AddFile(_) => None,
            Primitive::RmFile(_) => None,
            Primitive::AddDir(_) => None,
            Primitive::RmDir(_) => None,
            Primitive::Move(_, to) => Some(to),
            Primitive::Hunk(_) => None,
            Primitive::Binary(_) => None,
            Primitive::Replace(_) => None,
            Primitive::ChangePref(_) => None,
        }
    }

    /// Reads its parts, and so tells that it is valid. Takes no memory.
    pub fn tells_valid(&self)
        ensures { IsValidPrim (prim_of self.now) }
    {
        match self {
            Primitive::AddFile(path) => {
                let _ = path.len();
            }
            Primitive::RmFile(path) => {
                let _ = path.len();
            }
            Primitive::AddDir(path) => {
                let _ = path.len();
            }
            Primitive::RmDir(path) => {
                let _ = path.len();
            }
            Primitive::Move(from, to) => {
                let _ = from.len();
                let _ = to.len();
            }
            Primitive::Hunk(hunk) => {
                let _ = hunk.line();
            }
            Primitive::Binary(binary) => {
                let _ = binary.path();
            }
            Primitive::Replace(replace) => replace.tells_valid(),
            Primitive::ChangePref(change) => {
                let _ = change.name();
            }
        }
    }

    pub(crate) fn is_directory_work(&self) -> bool
        ensures { IsTrue result ↔ IsDirectoryWork (work_of (prim_of self.now)) }
    {
        match self {
            Primitive::AddFile(_) => false,
            Primitive::RmFile(_) => false,
            Primitive::AddDir(_) => true,
            Primitive::RmDir(_) => true,
            Primitive::Move(_, _) => false,
            Primitive::Hunk(_) => false,
            Primitive::Binary(_) => false,
            Primitive::Replace(_) => false,
            Primitive::ChangePref(_) => false,
        }
    }

    pub(crate) fn keeps_file(&self) -> bool
        ensures { IsTrue result ↔ KeepsFile (work_of (prim_of self.now)) }
    {
        match self {
            Primitive::AddFile(_) => false,
            Primitive::RmFile(_) => false,
            Primitive::AddDir(_) => false,
            Primitive::RmDir(_) => false,
            Primitive::Move(_, _) => false,
            Primitive::Hunk(_) => true,
            Primitive::Binary(_) => true,
            Primitive::Replace(_) => true,
            Primitive::ChangePref(_) => false,
        }
    }

    /// Its two paths, where it is a move; else it comes back.
    pub(crate) fn into_move(self) -> Result<(Path<A>, Path<A>), Primitive<A>>
        ensures { MatchResult result
            (λ paths. prim_of self ≡ primitives.Move paths.0 paths.1)
            (λ other. (prim_of other ≡ prim_of self) × MovesNothing (prim_of self)) }
    {
        match self {
            Primitive::AddFile(path) => Err(Primitive::AddFile(path)),
            Primitive::RmFile(path) => Err(Primitive::RmFile(path)),
            Primitive::AddDir(path) => Err(Primitive::AddDir(path)),
            Primitive::RmDir(path) => Err(Primitive::RmDir(path)),
            Primitive::Move(from, to) => Ok((from, to)),
            Primitive::Hunk(hunk) => Err(Primitive::Hunk(hunk)),
            Primitive::Binary(binary) => Err(Primitive::Binary(binary)),
            Primitive::Replace(replace) => Err(Primitive::Replace(replace)),
            Primitive::ChangePref(change) => Err(Primitive::ChangePref(change)),
        }
    }

    /// The hunk, where it is one; else it comes back.
    pub(crate) fn into_hunk(self) -> Result<Hunk<A>, Primitive<A>>
        ensures { MatchResult result
            (λ hunk. prim_of self ≡ hunk_of hunk)
            (λ other. (prim_of other ≡ prim_of self) × (IsHunk (work_of (prim_of self)) → ⊥)) }
    {
        match self {
            Primitive::AddFile(path) => Err(Primitive::AddFile(path)),
            Primitive::RmFile(path) => Err(Primitive::RmFile(path)),
            Primitive::AddDir(path) => Err(Primitive::AddDir(path)),
            Primitive::RmDir(path) => Err(Primitive::RmDir(path)),
            Primitive::Move(from, to) => Err(Primitive::Move(from, to)),
            Primitive::Hunk(hunk) => Ok(hunk),
            Primitive::Binary(binary) => Err(Primitive::Binary(binary)),
            Primitive::Replace(replace) => Err(Primitive::Replace(replace)),
            Primitive::ChangePref(change) => Err(Primitive::ChangePref(change)),
        }
    }

    /// The replace, where it is one.
    pub(crate) fn into_replace(self) -> Option<Replace<A>>
        ensures { MatchOption result
            (IsReplace (work_of (prim_of self)) → ⊥)
            (λ replace. prim_of self ≡ replace_of replace) }
    {
        match self {
            Primitive::AddFile(_path) => None,
            Primitive::RmFile(_path) => None,
            Primitive::AddDir(_path) => None,
            Primitive::RmDir(_path) => None,
            Primitive::Move(_from, _to) => None,
            Primitive::Hunk(_hunk) => None,
            Primitive::Binary(_binary) => None,
            Primitive::Replace(replace) => Some(replace),
            Primitive::ChangePref(_change) => None,
        }
    }

    /// The same work at another path.
    pub(crate) fn at(self, path: Path<A>) -> Primitive<A>
        requires { IsWork (prim_of self) }
        ensures { prim_of result ≡ primitives.At path (work_of (prim_of self)) }
    {
        match self {
            Primitive::AddFile(_) => Primitive::AddFile(path),
            Primitive::RmFile(_) => Primitive::RmFile(path),
            Primitive::AddDir(_) => Primitive::AddDir(path),
            Primitive::RmDir(_) => Primitive::RmDir(path),
            Primitive::Move(_, _) => unreachable!(),
            Primitive::Hunk(hunk) => Primitive::Hunk(hunk.at(path)),
            Primitive::Binary(binary) => Primitive::Binary(binary.at(path)),
            Primitive::Replace(replace) => Primitive::Replace(replace.at(path)),
            Primitive::ChangePref(_) => unreachable!(),
        }
    }
}
