//! Binaries: all lines of a file are replaced.
ghost use Rattle.std.specs.Prelude.{◌≡◌, IfOk};
ghost use Rattle.dm_prim.specs.Commuting.{IsValidPrim};
ghost use Rattle.dm_prim.specs.Binaries.{MakesBinary, binary_of};

use dm_tree::{Lines, Path};
use std::alloc::{AllocError, Allocator};
use std::marker::Model;
use thiserror::Error;

/// A change of one file: all its lines, which have to be the old ones, are replaced by the new ones.
pub struct Binary<A: Allocator> {
    path: Path<A>,
    old: Lines<A>,
    new: Lines<A>,
}

// By hand, so that this is called where one goes. What is derived stands there in full.
impl<A: Allocator> Drop for Binary<A> {
    fn drop(self) {
        let Binary {
            path: _,
            old: _,
            new: _,
        } = self;
    }
}

impl<A: Allocator> Model for Binary<A> {
    ghost use Rattle.dm_prim.specs.Binaries.{BinaryParts, binary_of};
    ghost use Rattle.dm_prim.specs.Commuting.{IsValidPrim};

    ghost Value = { BinaryParts };

    ghost view = { λ b. record { path = b.path; old = b.old; new = b.new } };

    ghost invariant = { λ b. IsValidPrim (binary_of (record { path = b.path; old = b.old; new = b.new })) };
}

/// There is no such binary: a file has at least one line, before and after.
#[derive(Clone, Copy, Debug, PartialEq, Eq, Error)]
#[error("there are no old lines, or no new ones")]
pub struct NoContent;

impl<A: Allocator> Binary<A> {
    /// A binary of these parts, which are given up where it is refused.
    pub fn new(path: Path<A>, old: Lines<A>, new: Lines<A>) -> Result<Binary<A>, NoContent>
        ensures { MakesBinary (record { path = path; old = old; new = new }) result }
    {
        if old.is_empty() {
            return Err(NoContent);
        }
        if new.is_empty() {
            return Err(NoContent);
        }
        Ok(Binary { path, old, new })
    }

    /// The path of the file that it changes.
    pub fn path(&self) -> &Path<A>
        ensures value { result.now ≡ self.now.path }
        ensures valid { IsValidPrim (binary_of self.now) }
    {
        &self.path
    }

    /// All lines of the file before.
    pub fn old(&self) -> &Lines<A>
        ensures { result.now ≡ self.now.old }
    {
        &self.old
    }

    /// All lines of the file afterwards.
    pub fn new_lines(&self) -> &Lines<A>
        ensures { result.now ≡ self.now.new }
    {
        &self.new
    }

    /// The same binary with another allocator.
    pub(crate) fn copy_into<B: Allocator + Copy>(&self, alloc: B) -> Result<Binary<B>, AllocError>
        ensures { IfOk result (λ copy. copy ≡ self.now) }
    {
        let path = self.path.copy_into(alloc)?;
        let old = self.old.copy_into(alloc)?;
        let new = self.new.copy_into(alloc)?;
        Ok(Binary { path, old, new })
    }

    /// The same change with old and new exchanged.
    pub(crate) fn inverse(self) -> Binary<A>
        ensures { result ≡ record self { old = self.new; new = self.old } }
    {
        let Binary { path, old, new } = self;
        Binary {
            path,
            old: new,
            new: old,
        }
    }

    /// The same change at another path.
    pub(crate) fn at(self, path: Path<A>) -> Binary<A>
        ensures { result ≡ record self { path = path } }
    {
        let Binary { path: _, old, new } = self;
        Binary { path, old, new }
    }
}
