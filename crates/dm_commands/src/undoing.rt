//! What brings a patch that undoes others of a mirror.
ghost use Rattle.std.specs.Prelude.{IfErr, IfOk};
ghost use Rattle.dm_send.specs.Undoing.{IsUndoFault};
ghost use Rattle.dm_commands.specs.Undoing.{RollsBackBehind};

use crate::tag::is_lawful;
use dm_begin::cut_base;
use dm_bundle::Bundle;
use dm_info::Info;
use dm_repo::Repo;
use dm_send::{UndoFault, roll_back};
use std::alloc::Global;

/// The bundle of a new patch of this name that undoes those of chosen names, of a repository whose first patches, so many of them, are
/// its base: of these its context names the last alone. The repository takes it.
pub fn undo_chosen(
    alloc: Global,
    repo: &Repo<Global>,
    base: usize,
    chosen: &[Info<Global>],
    name: Info<Global>,
) -> Result<Bundle<Global>, UndoFault<Global>>
    ensures rolls_back { IfOk result (RollsBackBehind repo.now.patches base chosen.now name) }
    ensures fault { IfErr result (IsUndoFault repo.now.patches base chosen.now name) }
{
    is_lawful(repo);
    let bundle = roll_back(alloc, repo, base, chosen, name)?;
    let cut = cut_base(alloc, alloc, repo, base, bundle)?;
    Ok(cut)
}
