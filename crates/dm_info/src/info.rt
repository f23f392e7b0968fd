//! The patch info of a patch: its name, author, date and log.

ghost use Rattle.std.specs.Prelude.{◌≡◌, ◌↔◌, ◌<◌, [], length, slice_index_or, map, IsTrue, IfOk, IfErr, OnOk};
ghost use Rattle.dm_info.specs.PatchInfo.{IsInfo, info_from, info_with};
ghost use Rattle.dm_info.specs.Refusals.{IsRefusedFor};
ghost use Rattle.std.proofs.Common.{rules};
ghost use Rattle.std.specs.Cmp.{partial_order_from_own_ties};
ghost use Rattle.std.specs.Cmp.Rules.{comparing};
ghost use Rattle.std.specs.Ordering.{as_partial_cmp};
ghost use Rattle.std.specs.Cmp.Lexicographic.{pointwise};
ghost use Rattle.dm_info.specs.Compared.{text_eq, info_eq, info_cmp, info_writes};
ghost use Rattle.dm_info.specs.ComparedLaws.{info_ties, info_alike};

use crate::fault::InfoFault;
use crate::opening::Opening;
use crate::validity::{copied_lines, copied_slices, fault_of};
use std::alloc::{AllocError, Allocator};
use std::cmp::Ordering;
use std::hash::{Hash, Hasher};
use std::marker::Model;

/// The patch info of a patch, which owns its parts. The four together are the patch's identity, as in
/// Darcs' `Patch.Info`.
pub struct Info<A: Allocator> {
    opening: Opening<A>,
    log: Vec<Vec<u8, A>, A>,
}

// By hand, so that this is called where one goes. What is derived stands there in full.
impl<A: Allocator> Drop for Info<A> {
    fn drop(self) {
        let Info { opening: _, log: _ } = self;
    }
}

impl<A: Allocator> Model for Info<A> {
    ghost use Rattle.std.specs.Prelude.{map};
    ghost use Rattle.dm_info.specs.PatchInfo.{PatchInfo, IsInfo, info_with};

    ghost Value = { PatchInfo };

    ghost view = { λ i. info_with i.opening (map (λ line. line.items) i.log.items) };

    ghost invariant = { λ i. IsInfo (info_with i.opening (map (λ line. line.items) i.log.items)) };
}

impl<A: Allocator + Copy> Info<A> {
    /// The patch info of these parts, each copied. Of several faults the first in `InfoFault`'s
    /// order is reported, before any memory is taken.
    pub fn new(
        alloc: A,
        name: &[u8],
        author: &[u8],
        date: &[u8],
        log: &[&[u8]],
    ) -> Result<Info<A>, InfoFault>
        ensures parts { IfOk result (λ info.
            info ≡ info_from name.now author.now date.now (map (λ line. line.now) log.now)) }
        ensures valid { OnOk result (IsInfo (info_from name.now author.now date.now (map (λ line. line.now) log.now))) }
        ensures fault { IfErr result (IsRefusedFor (info_from name.now author.now date.now (map (λ line. line.now) log.now))) }
    {
        if let Some(fault) = fault_of(name, author, date, log) {
            return Err(fault);
        }
        let opening = Opening::from_parts(alloc, name, author, date)?;
        let log = copied_slices(alloc, log)?;
        Ok(Info::of_parts(opening, log))
    }
}

impl<A: Allocator> Info<A> {
    /// The patch info of these parts.
    pub(crate) fn of_parts(opening: Opening<A>, log: Vec<Vec<u8, A>, A>) -> Self
        requires { IsInfo (info_with opening (map (λ line. line.items) log.items)) }
        ensures { result ≡ info_with opening (map (λ line. line.items) log.items) }
    {
        Info { opening, log }
    }

    /// What the patch is called: one line.
    pub fn name(&self) -> &[u8]
        ensures { result.now ≡ self.now.name }
    {
        self.opening.name()
    }

    /// Who recorded the patch.
    pub fn author(&self) -> &[u8]
        ensures { result.now ≡ self.now.author }
    {
        self.opening.author()
    }

    /// When the patch was recorded: mostly fourteen digits in UTC, which nothing here checks.
    pub fn date(&self) -> &[u8]
        ensures { result.now ≡ self.now.date }
    {
        self.opening.date()
    }

    /// How many lines the log has.
    pub fn log_len(&self) -> usize
        ensures value { result ≡ length self.now.log }
        // Every patch info is valid.
        ensures valid { IsInfo self.now }
    {
        self.log.len()
    }

    /// A line of the log, counted from 0, without its newline.
    pub fn log_line(&self, i: usize) -> &[u8]
        requires { i < length self.now.log }
        ensures { result.now ≡ slice_index_or self.now.log i [] }
    {
        self.log[i].as_slice()
    }

    /// The same patch info in another allocator.
    pub fn copy_into<B: Allocator + Copy>(&self, alloc: B) -> Result<Info<B>, AllocError>
        ensures { IfOk result (λ copy. copy ≡ self.now) }
    {
        let opening = self.opening.copy_into(alloc)?;
        let log = copied_lines(alloc, &self.log)?;
        Ok(Info::of_parts(opening, log))
    }

    /// Whether two patch infos have the same four parts, wherever they lie.
    pub fn same<B: Allocator>(&self, other: &Info<B>) -> bool
        ensures { IsTrue result ↔ (self.now ≡ other.now) }
    {
        if self.name() != other.name() {
            return false;
        }
        if self.author() != other.author() {
            return false;
        }
        if self.date() != other.date() {
            return false;
        }
        are_same_lines(&self.log, &other.log)
    }
}

/// Whether two logs have the same lines.
fn are_same_lines<A: Allocator, B: Allocator>(xs: &[Vec<u8, A>], ys: &[Vec<u8, B>]) -> bool
    ensures { result ≡ pointwise text_eq (map (λ l. l.items) xs.now) (map (λ l. l.items) ys.now) }
{
    let count = xs.len();
    if count != ys.len() {
        return false;
    }
    for i in 0..count {
        if xs[i].as_slice() != ys[i].as_slice() {
            return false;
        }
    }
    true
}

impl<A: Allocator> PartialEq for Info<A> {
    ghost eq = { info_eq };

    ghost laws = { Prim.search (comparing, rules) depth 9 };

    fn eq(&self, other: &Self) -> bool {
        self.cmp(other).is_eq()
    }
}

impl<A: Allocator> Eq for Info<A> {
    ghost laws = { Prim.search (comparing, rules) depth 9 };
}

impl<A: Allocator> Ord for Info<A> {
    ghost cmp = { info_cmp };

    ghost total = { Prim.search (comparing, rules) depth 9 };

    ghost matches_partial_cmp = { Prim.search (comparing, rules) depth 9 };

    ghost matches_eq = { info_ties };

    fn cmp(&self, other: &Self) -> Ordering {
        self.name()
            .cmp(other.name())
            .then(self.author().cmp(other.author()))
            .then(self.date().cmp(other.date()))
            .then(self.log.cmp(&other.log))
    }
}

impl<A: Allocator> PartialOrd for Info<A> {
    ghost partial_cmp = { as_partial_cmp info_cmp };

    ghost laws = { partial_order_from_own_ties (Prim.search (comparing, rules) depth 9) info_ties };

    fn partial_cmp(&self, other: &Self) -> Option<Ordering> {
        Some(self.cmp(other))
    }
}

impl<A: Allocator> Hash for Info<A> {
    ghost hash_input = { info_writes };

    ghost respects_eq = { info_alike };

    fn hash<H: Hasher>(&self, state: &mut H) {
        self.name().hash(state);
        self.author().hash(state);
        self.date().hash(state);
        self.log.hash(state);
    }
}
