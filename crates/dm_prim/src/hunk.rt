//! Hunks: at a line of a file, old lines are replaced by new.
ghost use Rattle.std.specs.Prelude.{◌≡◌, IfOk, IfSome, MatchOption, length};
ghost use Rattle.dm_prim.specs.Commuting.{IsValidPrim, IsLineNumber};
ghost use Rattle.dm_prim.specs.Hunks.{HunkParts, MakesHunk, TurnsHunk, hunk_of};

use crate::passing::turn_part;
use crate::places::Span;
use dm_tokens::Tokens;
use dm_tree::{Lines, Path};
use std::alloc::{AllocError, Allocator};
use std::marker::Model;
use thiserror::Error;

/// A change of one file: at a line, counted from 1, the old lines are replaced by the new ones.
pub struct Hunk<A: Allocator> {
    path: Path<A>,
    line: u32,
    old: Lines<A>,
    new: Lines<A>,
}

// By hand, so that this is called where one goes. What is derived stands there in full.
impl<A: Allocator> Drop for Hunk<A> {
    fn drop(self) {
        let Hunk {
            path: _,
            line: _,
            old: _,
            new: _,
        } = self;
    }
}

impl<A: Allocator> Model for Hunk<A> {
    ghost use Rattle.dm_prim.specs.Hunks.{HunkParts, hunk_of};
    ghost use Rattle.dm_prim.specs.Commuting.{IsValidPrim};

    ghost Value = { HunkParts };

    ghost view = { λ h. record { path = h.path; line = h.line; old = h.old; new = h.new } };

    ghost invariant = { λ h. IsValidPrim (hunk_of (record { path = h.path; line = h.line; old = h.old; new = h.new })) };
}

/// Why there is no such hunk.
#[derive(Clone, Copy, Debug, PartialEq, Eq, Error)]
pub enum HunkFault {
    /// The line is 0.
    #[error("the line is 0")]
    BadLine,
    /// There are neither old nor new lines.
    #[error("there are neither old nor new lines")]
    NoChange,
}

impl<A: Allocator + Copy> Hunk<A> {
    /// The same change with its lines turned; none where one of them doesn't turn, or they are too large. Only lines that change take memory.
    pub(crate) fn turned<B: Allocator>(
        self,
        alloc: A,
        tokens: &Tokens<B>,
    ) -> Result<Option<Hunk<A>>, AllocError>
        ensures turned { IfOk result (λ answer. MatchOption answer ((h : HunkParts) → TurnsHunk tokens.now self h → ⊥) (TurnsHunk tokens.now self)) }
        ensures valid { IfOk result (λ answer. IfSome answer (λ h. IsValidPrim (hunk_of h))) }
        ensures was_valid { IsValidPrim (hunk_of self) }
    {
        let Hunk {
            path,
            line,
            old,
            new,
        } = self;
        let Some(old) = turn_part(alloc, old, tokens)? else {
            return Ok(None);
        };
        let Some(new) = turn_part(alloc, new, tokens)? else {
            return Ok(None);
        };
        Ok(Some(Hunk {
            path,
            line,
            old,
            new,
        }))
    }
}

impl<A: Allocator> Hunk<A> {
    /// A hunk of these parts, which are given up where it is refused.
    pub fn new(path: Path<A>, line: u32, old: Lines<A>, new: Lines<A>) -> Result<Hunk<A>, HunkFault>
        ensures { MakesHunk (record { path = path; line = line; old = old; new = new }) result }
    {
        if line == 0 {
            return Err(HunkFault::BadLine);
        }
        let old_count = old.len();
        let new_count = new.len();
        if old_count == 0 && new_count == 0 {
            return Err(HunkFault::NoChange);
        }
        Ok(Hunk {
            path,
            line,
            old,
            new,
        })
    }

    /// The path of the file that it changes.
    pub fn path(&self) -> &Path<A>
        ensures value { result.now ≡ self.now.path }
        ensures valid { IsValidPrim (hunk_of self.now) }
    {
        &self.path
    }

    /// The line of its change, counted from 1.
    pub fn line(&self) -> u32
        ensures value { result ≡ self.now.line }
        ensures valid { IsValidPrim (hunk_of self.now) }
    {
        self.line
    }

    /// The lines that it takes out.
    pub fn old(&self) -> &Lines<A>
        ensures { result.now ≡ self.now.old }
    {
        &self.old
    }

    /// The lines that it puts in their place.
    pub fn new_lines(&self) -> &Lines<A>
        ensures { result.now ≡ self.now.new }
    {
        &self.new
    }

    /// The same hunk with another allocator.
    pub(crate) fn copy_into<B: Allocator + Copy>(&self, alloc: B) -> Result<Hunk<B>, AllocError>
        ensures { IfOk result (λ copy. copy ≡ self.now) }
    {
        let path = self.path.copy_into(alloc)?;
        let old = self.old.copy_into(alloc)?;
        let new = self.new.copy_into(alloc)?;
        Ok(Hunk {
            path,
            line: self.line,
            old,
            new,
        })
    }

    pub(crate) fn span(&self) -> Span
        ensures line { result.line ≡ self.now.line }
        ensures old { result.old ≡ length self.now.old }
        ensures new { result.new ≡ length self.now.new }
        ensures valid { IsValidPrim (hunk_of self.now) }
    {
        Span {
            line: self.line,
            old: self.old.len(),
            new: self.new.len(),
        }
    }

    /// The same change with old and new exchanged.
    pub(crate) fn inverse(self) -> Hunk<A>
        ensures { result ≡ record self { old = self.new; new = self.old } }
    {
        let Hunk {
            path,
            line,
            old,
            new,
        } = self;
        Hunk {
            path,
            line,
            old: new,
            new: old,
        }
    }

    /// The same change at another path.
    pub(crate) fn at(self, path: Path<A>) -> Hunk<A>
        ensures { result ≡ record self { path = path } }
    {
        let Hunk {
            path: _,
            line,
            old,
            new,
        } = self;
        Hunk {
            path,
            line,
            old,
            new,
        }
    }

    /// The same change at another line.
    pub(crate) fn at_line(self, line: u32) -> Hunk<A>
        requires { IsLineNumber line }
        ensures { result ≡ record self { line = line } }
    {
        let Hunk {
            path,
            line: _,
            old,
            new,
        } = self;
        Hunk {
            path,
            line,
            old,
            new,
        }
    }
}
