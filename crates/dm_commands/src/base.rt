//! The repository that a command begins with.
ghost use Rattle.std.specs.Prelude.{IfOk, IfErr};
ghost use Rattle.dm_commands.specs.Applying.{IsBase, IsStart, RefusesBase, RefusesStart};

use crate::fault::ToolFault;
use dm_named::Limits;
use dm_repo::{Policy, Repo};
use dm_scratch::take_within;
use std::alloc::Global;

/// The text of the repository that a command begins with, as `dm apply --bundle` prints it, and the limits within which it is
/// read.
#[derive(Clone, Copy, Debug)]
pub struct Base<'a> {
    /// A bundle, which an empty repository takes.
    pub text: &'a [u8],
    /// The standard ones, or those for a repository of one's own.
    pub limits: Limits,
}

/// The repository that a base makes, where a conflict refuses it. It is read straight into the repository's memory.
pub fn repo_of_base(alloc: Global, base: Base<'_>) -> Result<Repo<Global>, ToolFault>
    ensures ok { IfOk result (λ repo. IsBase base.entry.limits base.entry.text.now repo.patches) }
    ensures err { IfErr result (RefusesBase base.entry.limits base.entry.text.now) }
{
    let mut repo = Repo::new(alloc);
    let verdict = take_within(&mut repo, alloc, base.text, base.limits, Policy::Refuse);
    if verdict.is_accepted() {
        return Ok(repo);
    }
    Err(ToolFault::of_base(verdict))
}

/// The repository that a base makes, or an empty one.
pub fn repo_of(alloc: Global, base: Option<Base<'_>>) -> Result<Repo<Global>, ToolFault>
    ensures ok { IfOk result (λ repo. IsStart base.entry repo.patches) }
    ensures err { IfErr result (RefusesStart base.entry) }
{
    match base {
        None => Ok(Repo::new(alloc)),
        Some(base) => repo_of_base(alloc, base),
    }
}
