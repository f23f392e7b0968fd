//! Patches taken out of a repository.
ghost use Rattle.std.specs.Prelude.{IfErr, IfOk};
ghost use Rattle.dm_send.specs.Obliterating.{Obliterates, RefusesToObliterate};

use crate::leaving::part;
use crate::minimizing::{minimize, named_all};
use crate::sending::{accepted, is_lawful, refused_there, repo_of};
use dm_bundle::Bundle;
use dm_info::Info;
use dm_repo::{Refusal, Repo};
use std::alloc::Allocator;

/// A repository without some of its patches, and these.
#[derive(Drop)]
pub struct Obliterated<A: Allocator> {
    /// What stays.
    pub repo: Repo<A>,
    /// What goes, behind those that stay and that it can't pass: its context names these, the base, and no others.
    pub bundle: Bundle<A>,
    /// The names of those that go though they weren't chosen, in their order. Each stands with the name of one that it can't do
    /// without: the last of those that stop it.
    pub bound: Vec<(Info<A>, Info<A>), A>,
}

/// Takes the patches of these names out of a repository, and with them each patch that can't do without one that goes. A name that
/// isn't held is passed over. The repository stays as it was.
///
/// The bundle's context names the first `base` patches of what stays, and of the others those that what goes can't pass, and what
/// these need (`darcs obliterate -o` does so). What stays takes the bundle.
///
/// It refuses with [`Refusal::Full`] where a repository of what stays can't be made, or refuses the bundle. The contract doesn't
/// say why it would; the causes that we know are a path of too many names, and a replace in a file that is too large.
pub fn obliterate<A: Allocator, B: Allocator + Copy>(
    alloc: B,
    repo: &Repo<A>,
    base: usize,
    chosen: &[Info<A>],
) -> Result<Obliterated<B>, Refusal>
    ensures obliterates { IfOk result (λ o. Obliterates repo.now.patches base chosen.now o.repo.patches o.bundle o.bound.items) }
    ensures refusal { IfErr result (RefusesToObliterate repo.now.patches base chosen.now) }
{
    is_lawful(repo);
    let parting = part(alloc, repo, chosen)?;
    let list = named_all(alloc, parting.stay)?;
    let gone = named_all(alloc, parting.go)?;
    let stays = match repo_of(alloc, list) {
        Ok(stays) => stays,
        Err(why) => return Err(refused_there(why)),
    };
    is_lawful(&stays);
    let minimal = minimize(alloc, &stays, base, gone)?;
    let bundle = accepted(
        alloc,
        &stays,
        Bundle::without_doubles(minimal.sent, minimal.names),
    )?;
    Ok(Obliterated {
        repo: stays,
        bundle,
        bound: parting.bound,
    })
}
