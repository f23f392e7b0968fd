//! The tag with which a mirror begins, and what is refused of it.
ghost use Rattle.std.specs.Prelude.{◌≡◌, ◌↔◌, Any, Contains, IfErr, IfOk, IsTrue, MatchOption, length, min, take};
ghost use Rattle.dm_bundle.specs.Patches.{infos_of};
ghost use Rattle.dm_repo.specs.Repositories.{IsRepo};
ghost use Rattle.dm_deliver.specs.Answering.{answer_line};
ghost use Rattle.dm_deliver.specs.declared.answers.Answer.TheVariants.{BeforeBase};
ghost use Rattle.dm_commands.specs.Naming.{IsBaseTag};
ghost use Rattle.dm_commands.specs.Obliterating.{NamesBase};

use crate::fault::ToolFault;
use dm_deliver::{Answer, push_answer};
use dm_info::Info;
use dm_quoted::Quoted;
use dm_repo::Repo;
use std::alloc::Global;
use std::fmt;

/// The tag with which a repository begins, and how many patches it covers, itself among them.
#[derive(Clone, Copy)]
pub struct BaseTag<'a> {
    tag: &'a Info<Global>,
    count: usize,
}

impl BaseTag<'_> {
    /// How many patches it covers, itself among them.
    pub fn count(&self) -> usize
        ensures { result ≡ self.now.count }
    {
        self.count
    }
}

/// The tag with which a repository begins whose first patches, so many of them, are its base; `None` if there is no base.
pub fn base_tag(repo: &Repo<Global>, base: usize) -> Option<BaseTag<'_>>
    ensures { MatchOption result (min base (length repo.now.patches) ≡ 0) (IsBaseTag repo.now.patches base) }
{
    let count = base.min(repo.len());
    if count == 0 {
        return None;
    }
    let tag = repo.patch(count - 1).info();
    Some(BaseTag { tag, count })
}

impl fmt::Display for BaseTag<'_> {
    fn fmt<W: fmt::Write>(&self, f: &mut fmt::Formatter<W>) -> fmt::Result {
        let name = Quoted {
            text: self.tag.name(),
        };
        write!(f, "{name}")
    }
}

/// That the patches of a repository are one; does nothing.
pub(crate) fn is_lawful(repo: &Repo<Global>)
    ensures { IsRepo repo.now.patches }
{
    let _ = repo.len();
}

/// Whether a name is that of one of the first patches of a repository, so many of them.
fn is_of_first(repo: &Repo<Global>, count: usize, name: &Info<Global>) -> bool
    ensures { IsTrue result ↔ Contains (take count (infos_of repo.now.patches)) name.now }
{
    is_lawful(repo);
    match repo.position(name) {
        None => false,
        Some(place) => place < count,
    }
}

/// Whether one of these names is that of one of the first patches of a repository, so many of them.
pub fn has_first(repo: &Repo<Global>, count: usize, names: &[Info<Global>]) -> bool
    ensures { IsTrue result ↔ Any (λ name. Contains (take count (infos_of repo.now.patches)) name) names.now }
{
    names.iter().any(|name| is_of_first(repo, count, name))
}

/// Whether one of these names is of the base of a repository, its first patches, so many of them.
pub fn names_base(repo: &Repo<Global>, base: usize, names: &[Info<Global>]) -> bool
    ensures { IsTrue result ↔ NamesBase repo.now.patches base names.now }
{
    has_first(repo, base, names)
}

/// The line where something doesn't rest on the whole base.
pub fn before_base_line(alloc: Global) -> Result<Vec<u8>, ToolFault>
    ensures line { IfOk result (λ line. line.items ≡ answer_line BeforeBase) }
    ensures err { IfErr result (λ e. e ≡ ToolFault.NoMemory) }
{
    let mut line = Vec::new(alloc);
    push_answer(Answer::BeforeBase, &mut line)?;
    Ok(line)
}
