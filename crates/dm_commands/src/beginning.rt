//! How a mirror begins at a tag: with the names that the tag covers, and its tree.
ghost use Rattle.std.specs.Prelude.{◌≡◌, ◌↔◌, [], IfErr, IfOk, IsTrue};
ghost use Rattle.dm_begin.specs.Making.{rows};
ghost use Rattle.dm_begin.specs.declared.beginning.BeginFault.TheVariants.{NoMemory};
ghost use Rattle.dm_commands.specs.declared.beginning.StartFault.TheVariants.{Beginning};
ghost use Rattle.dm_commands.specs.Beginning.{BeginsAtTag, EndsInTagName, IsWhole, RefusesStart};

use dm_begin::{BeginFault, begin};
use dm_bundle::Bundle;
use dm_info::Info;
use dm_named::Named;
use dm_repo::{Policy, Refusal, Repo, Weighed, weigh_owned};
use dm_tree::Tree;
use std::alloc::{AllocError, Global};

/// How the name of a tag begins.
const TAG: &[u8] = b"TAG ";

/// Why a mirror can't begin with names and a tree.
#[derive(Clone, Copy, Debug, PartialEq, Eq)]
pub enum StartFault {
    /// The last of the names isn't that of a tag.
    NoTag,
    /// There is nothing in the tree.
    NoEntry,
    /// They have no beginning.
    Beginning(BeginFault),
}

impl From<BeginFault> for StartFault {
    ghost from_gives = { λ fault e. e ≡ Beginning fault };

    fn from(fault: BeginFault) -> Self {
        StartFault::Beginning(fault)
    }
}

impl From<AllocError> for StartFault {
    ghost from_gives = { λ _ e. e ≡ Beginning NoMemory };

    fn from(_: AllocError) -> Self {
        StartFault::Beginning(BeginFault::NoMemory)
    }
}

/// The repository of just these patches, which are one.
fn repo_of_patches(alloc: Global, patches: Vec<Named<Global>>) -> Result<Repo<Global>, AllocError>
    requires { IsWhole patches.items }
    ensures { IfOk result (λ repo. repo.patches ≡ patches.items) }
{
    let mut repo = Repo::new(alloc);
    let bundle = Bundle::without_doubles(patches, Vec::new(alloc));
    match weigh_owned(alloc, &repo, bundle, Policy::Refuse) {
        Ok(Weighed::Merged(merged)) => {
            repo.append_owned(merged)?;
            Ok(repo)
        }
        Ok(Weighed::NothingNew) => unreachable!(),
        Err(why) => Err(short_of_memory(why)),
    }
}

/// The error of a refusal that can only be for memory.
fn short_of_memory(why: Refusal) -> AllocError
    requires { why ≡ Refusal.NoMemory }
{
    match why {
        Refusal::NoMemory => AllocError,
        _ => unreachable!(),
    }
}

/// Whether the last of these names is that of a tag.
fn ends_in_tag(names: &[Info<Global>]) -> bool
    ensures { IsTrue result ↔ EndsInTagName names.now }
{
    let Some(last) = names.last() else {
        return false;
    };
    last.name().starts_with(TAG)
}

/// Whether there is nothing in a tree but its root.
fn is_empty_tree(alloc: Global, tree: &Tree<Global>) -> Result<bool, AllocError>
    ensures { IfOk result (λ yes. IsTrue yes ↔ (rows tree.now ≡ [])) }
{
    let listing = tree.listing(alloc)?;
    Ok(listing.is_empty())
}

/// The repository that begins with patches of these names, oldest first, the last of which is that of a tag, and with this tree.
pub fn repo_at_tag(
    alloc: Global,
    names: Vec<Info<Global>>,
    tree: Tree<Global>,
) -> Result<Repo<Global>, StartFault>
    ensures begun { IfOk result (λ repo. BeginsAtTag names.items tree repo.patches) }
    ensures fault { IfErr result (RefusesStart names.items tree) }
{
    if names.is_empty() {
        return Err(StartFault::Beginning(BeginFault::NoName));
    }
    if !ends_in_tag(&names) {
        return Err(StartFault::NoTag);
    }
    let patches = begin(alloc, names, &tree)?;
    if is_empty_tree(alloc, &tree)? {
        return Err(StartFault::NoEntry);
    }
    drop(tree);
    let repo = repo_of_patches(alloc, patches)?;
    Ok(repo)
}
