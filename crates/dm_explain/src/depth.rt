//! Which patch would go past a limit, and at which path: one that gets too many names, or a file in which a replace turns too many bytes.
ghost use Rattle.std.specs.Prelude.{◌≡◌, ◌<◌, ◌≤◌, ℕ, None, Some, length, slice_get, IfOk, MatchOption};
ghost use Rattle.dm_tree.specs.Limits.{most_names};
ghost use Rattle.dm_tree.specs.Paths.{Path as TreePath, forward};
ghost use Rattle.dm_repo.specs.Overflows.{MergesTooMany};
ghost use Rattle.dm_repo.specs.Weighing.{RefusesBundle};
ghost use Rattle.dm_explain.specs.Accounts.{IsDepth, IsMoveTooDeep, IsMovedTooDeep, IsPast, IsPastAt, IsReplaceTooLarge, misfit_of, overflowing};
ghost use Rattle.dm_explain.specs.Rows.{AreShallow, FirstDeep};

use crate::account::{held_name, new_name};
use crate::head::{Head, ShownMoved};
use crate::remedies::{write_whole_context, write_within};
use crate::shown::{Held, Who};
use dm_bundle::Bundle;
use dm_info::Info;
use dm_prim::Prim;
use dm_repo::{Misfit, Overflow, Policy, Refusal, Repo, find_overflow};
use dm_tree::laws::tree_is_lawful;
use dm_tree::{Listed, Path, TreeFault};
use std::alloc::{AllocError, Global};
use std::fmt::{self, Formatter, Write};

/// Where a patch would go past a limit.
#[derive(Drop)]
pub struct Depth<'a> {
    /// The name of the patch.
    pub name: &'a Info<Global>,
    /// The patch as it was tried, its primitive, and the tree that this was applied to.
    pub overflow: Overflow<Global>,
    /// The first path of that tree that a move would give too many names, or the file of a replace.
    pub path: Path<Global>,
}

/// The first of these paths that gets too many names by a move.
fn first_deep(
    alloc: Global,
    rows: &[Listed<Global>],
    from: &Path<Global>,
    to: &Path<Global>,
) -> Result<Option<Path<Global>>, AllocError>
    ensures { IfOk result (λ path. MatchOption path (AreShallow from.now to.now rows.now) (FirstDeep from.now to.now rows.now)) }
{
    for row in rows {
        if row.path.forward(alloc, from, to)?.is_none() {
            return Ok(Some(row.path.copy_into(alloc)?));
        }
    }
    Ok(None)
}

/// The first path of the tree that gets too many names by the move that was applied to it.
fn moved_too_deep(alloc: Global, misfit: &Misfit<Global>) -> Result<Path<Global>, AllocError>
    requires { IsMoveTooDeep misfit.now }
    ensures { IfOk result (IsMovedTooDeep misfit.now) }
{
    let Some(Prim::Move(from, to)) = misfit.patch.prims().get(misfit.prim) else {
        unreachable!();
    };
    tree_is_lawful(&misfit.tree);
    let listing = misfit.tree.listing(alloc)?;
    let Some(path) = first_deep(alloc, &listing, from, to)? else {
        unreachable!();
    };
    Ok(path)
}

/// The file of the replace that was applied to the tree, and which is too large.
fn turned_path(alloc: Global, misfit: &Misfit<Global>) -> Result<Path<Global>, AllocError>
    requires { (path : TreePath) × IsReplaceTooLarge misfit.now path }
    ensures { IfOk result (IsReplaceTooLarge misfit.now) }
{
    let Some(Prim::Replace(replace)) = misfit.patch.prims().get(misfit.prim) else {
        unreachable!();
    };
    let path = replace.path().copy_into(alloc)?;
    Ok(path)
}

/// The path at which a limit is passed.
fn path_of(alloc: Global, misfit: &Misfit<Global>) -> Result<Path<Global>, AllocError>
    requires { IsPast misfit.now }
    ensures { IfOk result (IsPastAt misfit.now) }
{
    if misfit.fault == TreeFault::TooLarge {
        let path = turned_path(alloc, misfit)?;
        return Ok(path);
    }
    let path = moved_too_deep(alloc, misfit)?;
    Ok(path)
}

/// The name of the patch that goes past a limit.
fn name_of<'a>(
    repo: &'a Repo<Global>,
    bundle: &'a Bundle<Global>,
    overflow: &Overflow<Global>,
) -> Option<&'a Info<Global>>
    ensures { MatchOption result
        (overflowing repo.now.patches bundle.now overflow.now ≡ None)
        (λ name. overflowing repo.now.patches bundle.now overflow.now ≡ Some name.now) }
{
    match overflow {
        Overflow::Front(misfit) => held_name(repo, misfit.place),
        Overflow::Merged(misfit) => new_name(bundle, misfit.place),
    }
}

/// The patch that goes past a limit, its primitive, and the tree that this was applied to.
fn misfit_in(overflow: &Overflow<Global>) -> &Misfit<Global>
    ensures { result.now ≡ misfit_of overflow.now }
{
    match overflow {
        Overflow::Front(misfit) => misfit,
        Overflow::Merged(misfit) => misfit,
    }
}

/// Where a patch would go past a limit, unless there would only be too many patches.
pub(crate) fn depth_of<'a>(
    alloc: Global,
    repo: &'a Repo<Global>,
    bundle: &'a Bundle<Global>,
    policy: Policy,
) -> Result<Option<Depth<'a>>, AllocError>
    ensures { IfOk result (λ depth. MatchOption depth
        (RefusesBundle repo.now.patches bundle.now policy Refusal.Full → MergesTooMany repo.now.patches bundle.now policy)
        (IsDepth repo.now.patches bundle.now policy)) }
{
    match find_overflow(alloc, repo, bundle, policy) {
        Ok(Some(overflow)) => {
            let Some(name) = name_of(repo, bundle, &overflow) else {
                unreachable!();
            };
            let path = path_of(alloc, misfit_in(&overflow))?;
            Ok(Some(Depth {
                name,
                overflow,
                path,
            }))
        }
        Ok(None) => Ok(None),
        Err(why) => {
            if why == Refusal::NoMemory {
                return Err(AllocError);
            }
            Ok(None)
        }
    }
}

/// What a patch does that goes past a limit.
fn deed(misfit: &Misfit<Global>) -> &'static str {
    if misfit.fault == TreeFault::TooLarge {
        return "replaces words in a file that is too large";
    }
    "makes a path too deep"
}

/// Writes the primitive that goes past a limit, and what a path would be.
fn write_move<W: Write>(
    f: &mut Formatter<W>,
    misfit: &Misfit<Global>,
    path: &Path<Global>,
) -> fmt::Result {
    let Some(prim) = misfit.patch.prims().get(misfit.prim) else {
        return Ok(());
    };
    write!(f, "at `{}`: {}", Head { prim }, misfit.fault)?;
    match prim {
        Prim::Move(from, to) => writeln!(f, ":\n  {}", ShownMoved { path, from, to }),
        _ => f.write_str(".\n"),
    }
}

/// Writes which patch goes past a limit, and where.
pub(crate) fn write_depth<W: Write>(f: &mut Formatter<W>, depth: &Depth<'_>) -> fmt::Result {
    match &depth.overflow {
        Overflow::Front(misfit) => {
            let who = Held { info: depth.name };
            writeln!(
                f,
                "This held patch {} without the patches that the bundle doesn't build on:\n  {who}",
                deed(misfit)
            )?;
            write_move(f, misfit, &depth.path)?;
            write_whole_context(f)
        }
        Overflow::Merged(misfit) => {
            let who = Who { info: depth.name };
            writeln!(
                f,
                "This new patch {} once it is merged:\n  {who}",
                deed(misfit)
            )?;
            write_move(f, misfit, &depth.path)?;
            write_within(f, misfit.fault)
        }
    }
}
