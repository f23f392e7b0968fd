//! The bundle for somebody who holds patches of some names.
ghost use Rattle.std.specs.Prelude.{◌≡◌, ◌≢◌, [], reverse, IfErr, IfOk, MatchResult};
ghost use Rattle.dm_bundle.specs.Bundles.{HasNoDoubles};
ghost use Rattle.dm_bundle.specs.Patches.{infos_of};
ghost use Rattle.dm_repo.specs.Repositories.{IsRepo};
ghost use Rattle.dm_repo.specs.Squares.{patches};
ghost use Rattle.dm_send.specs.Sending.{Accepts, IsDivided, IsRefusedAs, RefusesThere, RefusesToDivide, RefusesToSend, RefusesToSendMinimal, Sends, SendsMinimal, just};

use crate::minimizing::minimize;
use crate::shared::split_for;
use dm_bundle::Bundle;
use dm_info::Info;
use dm_named::Named;
use dm_repo::{Policy, Refusal, Repo, Weighed, copy_names, weigh, weigh_owned};
use std::alloc::{AllocError, Allocator};

/// The patches without their places.
fn without_places<B: Allocator + Copy>(
    alloc: B,
    placed: Vec<(usize, Named<B>), B>,
) -> Result<Vec<Named<B>, B>, AllocError>
    ensures { IfOk result (λ list. list.items ≡ patches placed.items) }
{
    let mut list = Vec::with_capacity(alloc, placed.len())?;
    for (_, patch) in placed {
        list.push(patch)?;
    }
    Ok(list)
}

/// The names of patches, the newest first.
fn names_of<B: Allocator + Copy>(alloc: B, list: &[Named<B>]) -> Result<Vec<Info<B>, B>, AllocError>
    ensures { IfOk result (λ names. names.items ≡ reverse (infos_of list.now)) }
{
    let mut names = copy_names(alloc, list)?;
    names.reverse();
    Ok(names)
}

/// The repository of exactly these patches.
pub(crate) fn repo_of<B: Allocator + Copy>(
    alloc: B,
    list: Vec<Named<B>, B>,
) -> Result<Repo<B>, Refusal>
    requires { HasNoDoubles list.items [] }
    ensures { MatchResult result
        (λ repo. repo.patches ≡ list.items)
        (IsRefusedAs [] (just list.items)) }
{
    let mut repo = Repo::new(alloc);
    let bundle = Bundle::without_doubles(list, Vec::new(alloc));
    match weigh_owned(alloc, &repo, bundle, Policy::Refuse)? {
        Weighed::NothingNew => {}
        Weighed::Merged(merged) => {
            repo.append(&merged)?;
        }
    }
    Ok(repo)
}

/// What is said where the other repository refuses: it would be full, unless memory ran out.
pub(crate) fn refused_there(why: Refusal) -> Refusal
    ensures memory { why ≡ Refusal.NoMemory → result ≡ Refusal.NoMemory }
    ensures full { why ≢ Refusal.NoMemory → result ≡ Refusal.Full }
{
    match why {
        Refusal::NoMemory => Refusal::NoMemory,
        _ => Refusal::Full,
    }
}

/// That the patches of a repository have distinct names and apply in turn; does nothing.
pub(crate) fn is_lawful<A: Allocator>(repo: &Repo<A>)
    ensures { IsRepo repo.now.patches }
{
    let _ = repo.len();
}

/// What both hold, and what somebody else lacks.
#[derive(Drop)]
struct Divided<A: Allocator> {
    /// A repository of the shared patches.
    shared: Repo<A>,
    /// Their names, the newest first.
    names: Vec<Info<A>, A>,
    /// The first of the others, as they stand behind the shared ones.
    new: Vec<Named<A>, A>,
}

/// Divides a repository by the names of what somebody else holds; of the patches that they lack, the first `most`.
fn divide<A: Allocator + Copy, B: Allocator + Copy>(
    alloc: B,
    repo: &Repo<A>,
    theirs: &[Info<A>],
    most: usize,
) -> Result<Divided<B>, Refusal>
    ensures divided { IfOk result (λ d. IsDivided repo.now.patches theirs.now most d.shared.patches d.new.items) }
    ensures names { IfOk result (λ d. d.names.items ≡ reverse (infos_of d.shared.patches)) }
    ensures no_doubles { IfOk result (λ d. HasNoDoubles d.new.items d.names.items) }
    ensures refusal { IfErr result (RefusesToDivide repo.now.patches theirs.now) }
{
    is_lawful(repo);
    let parted = split_for(alloc, repo, theirs)?;
    let list = without_places(alloc, parted.front)?;
    let names = names_of(alloc, &list)?;
    let mut new = without_places(alloc, parted.rest)?;
    new.truncate(most);
    let shared = match repo_of(alloc, list) {
        Ok(shared) => shared,
        Err(why) => return Err(refused_there(why)),
    };
    is_lawful(&shared);
    Ok(Divided { shared, names, new })
}

/// The bundle, where a repository of what both hold takes it.
pub(crate) fn accepted<B: Allocator + Copy>(
    alloc: B,
    shared: &Repo<B>,
    bundle: Bundle<B>,
) -> Result<Bundle<B>, Refusal>
    ensures accepted { IfOk result (λ b. (b ≡ bundle) × Accepts shared.now.patches bundle) }
    ensures refusal { IfErr result (RefusesThere shared.now.patches bundle) }
{
    match weigh(alloc, shared, &bundle, Policy::Refuse) {
        Ok(_) => Ok(bundle),
        Err(why) => Err(refused_there(why)),
    }
}

/// The bundle for somebody who holds patches of these names, and whatever else: its new patches are what they lack, as these
/// stand behind what both hold, the first `most` of them; its context names what both hold, the newest first.
///
/// What both hold are the patches of these names, and what those name as dependencies; a name that isn't held is passed over.
/// It refuses with [`Refusal::ContextDepends`] where such a patch can't do without one that they don't hold, and with
/// [`Refusal::Full`] where a repository of what both hold can't be made, or refuses the bundle. The contract doesn't say why it
/// would; the causes that we know are a path of too many names, and a replace in a file that is too large.
pub fn send<A: Allocator + Copy, B: Allocator + Copy>(
    alloc: B,
    repo: &Repo<A>,
    theirs: &[Info<A>],
    most: usize,
) -> Result<Bundle<B>, Refusal>
    ensures sent { IfOk result (Sends repo.now.patches theirs.now most) }
    ensures refusal { IfErr result (RefusesToSend repo.now.patches theirs.now most) }
{
    let divided = divide(alloc, repo, theirs, most)?;
    let bundle = Bundle::without_doubles(divided.new, divided.names);
    let accepted = accepted(alloc, &divided.shared, bundle)?;
    Ok(accepted)
}

/// The same bundle, with no more context than it needs (`darcs send --minimize`): of the shared patches behind the first `base`,
/// the last first, each is left out that passes those kept behind it and the new ones. One that any of these names as a
/// dependency passes none of them, so it is kept. The new patches are as they stand behind what is kept.
///
/// The first `base` patches are always kept: those with which a mirror begins at a tag, or none.
///
/// It refuses as [`send`] does.
pub fn send_minimal<A: Allocator + Copy, B: Allocator + Copy>(
    alloc: B,
    repo: &Repo<A>,
    base: usize,
    theirs: &[Info<A>],
    most: usize,
) -> Result<Bundle<B>, Refusal>
    ensures sent { IfOk result (SendsMinimal repo.now.patches base theirs.now most) }
    ensures refusal { IfErr result (RefusesToSendMinimal repo.now.patches base theirs.now most) }
{
    let divided = divide(alloc, repo, theirs, most)?;
    let new = divided.new;
    let minimal = minimize(alloc, &divided.shared, base, new)?;
    let bundle = Bundle::without_doubles(minimal.sent, minimal.names);
    let accepted = accepted(alloc, &divided.shared, bundle)?;
    Ok(accepted)
}
