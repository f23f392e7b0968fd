//! Taking texts into a repository.
ghost use Rattle.std.specs.Prelude.{◌≡◌, IfOk, IfErr, length, map};
ghost use Rattle.dm_scratch.specs.Taking.{Takes, TakesBundle, TakesEach, TakesIn, TakesWithin};

use crate::verdict::Verdict;
use bumpalo::Bump;
use dm_bundle::{Bundle, read_bundle_within};
use dm_named::{Kinds, Limits};
use dm_repo::{Policy, Refusal, Repo, Weighed, weigh_owned};
use std::alloc::Allocator;

/// Takes a bundle that was read in the trial's allocator.
fn take_bundle<A: Allocator + Copy, B: Allocator + Copy>(
    repo: &mut Repo<A>,
    trial: B,
    bundle: Bundle<B>,
    policy: Policy,
) -> Result<Verdict, Refusal>
    ensures ok { IfOk result (λ verdict. TakesBundle repo.old.patches bundle policy verdict repo.new.patches) }
    ensures err { IfErr result (λ why. TakesBundle repo.old.patches bundle policy (Verdict.Refused why) repo.new.patches) }
{
    match weigh_owned(trial, repo, bundle, policy)? {
        Weighed::NothingNew => Ok(Verdict::NothingNew),
        Weighed::Merged(merged) => {
            let count = repo.append(&merged)?;
            Ok(Verdict::of_counts(count, merged.skipped))
        }
    }
}

/// The same of a bundle that was read in the repository's own memory: its patches are moved.
fn take_owned<A: Allocator + Copy>(
    repo: &mut Repo<A>,
    alloc: A,
    bundle: Bundle<A>,
    policy: Policy,
) -> Result<Verdict, Refusal>
    ensures ok { IfOk result (λ verdict. TakesBundle repo.old.patches bundle policy verdict repo.new.patches) }
    ensures err { IfErr result (λ why. TakesBundle repo.old.patches bundle policy (Verdict.Refused why) repo.new.patches) }
{
    match weigh_owned(alloc, repo, bundle, policy)? {
        Weighed::NothingNew => Ok(Verdict::NothingNew),
        Weighed::Merged(merged) => {
            let skipped = merged.skipped;
            let count = repo.append_owned(merged)?;
            Ok(Verdict::of_counts(count, skipped))
        }
    }
}

/// Takes a bundle that was read in the repository's own memory: its patches are moved. So its text can be given up before the tree
/// is made.
pub fn take_read<A: Allocator + Copy>(
    repo: &mut Repo<A>,
    alloc: A,
    bundle: Bundle<A>,
    policy: Policy,
) -> Verdict
    ensures { TakesBundle repo.old.patches bundle policy result repo.new.patches }
{
    match take_owned(repo, alloc, bundle, policy) {
        Ok(verdict) => verdict,
        Err(refusal) => Verdict::Refused(refusal),
    }
}

/// Takes the bundle of a text that is read within these limits, without an arena: all that the text and the trial need is made
/// in the memory of the repository, whose allocator `alloc` is.
///
/// So no patch is held twice, which counts for a text as long as a repository. [`take`] is for texts that come one after the
/// other: there the arena's memory is used again.
pub fn take_within<A: Allocator + Copy>(
    repo: &mut Repo<A>,
    alloc: A,
    text: &[u8],
    limits: Limits,
    policy: Policy,
) -> Verdict
    ensures { TakesWithin limits repo.old.patches text.now policy result repo.new.patches }
{
    let bundle = match read_bundle_within(alloc, text, limits) {
        Ok(bundle) => bundle,
        Err(fault) => return Verdict::unread(fault),
    };
    take_read(repo, alloc, bundle, policy)
}

/// Takes the bundle of a text into a repository, with an arena for all that is tried.
///
/// The arena is reset first. What the text and the trial need is made in it; what is taken is copied once into the
/// repository's own memory and then appended. After any other verdict the repository is as it
/// was. Out of memory, in the arena or in the repository, and a refused reset are `Refused(NoMemory)`. The policy says
/// whether a patch that conflicts has the bundle refused, or is skipped.
pub fn take<A: Allocator + Copy, P: Allocator>(
    repo: &mut Repo<A>,
    arena: &mut Bump<P>,
    text: &[u8],
    policy: Policy,
) -> Verdict
    ensures { Takes repo.old.patches text.now policy result repo.new.patches }
{
    take_in(repo, arena, text, Kinds::Six, policy)
}

/// The same of a text that may have primitives of these kinds.
pub fn take_in<A: Allocator + Copy, P: Allocator>(
    repo: &mut Repo<A>,
    arena: &mut Bump<P>,
    text: &[u8],
    kinds: Kinds,
    policy: Policy,
) -> Verdict
    ensures { TakesIn kinds repo.old.patches text.now policy result repo.new.patches }
{
    take_in_arena(
        repo,
        arena,
        text,
        Limits::STANDARD.with_kinds(kinds),
        policy,
    )
}

/// The same of a text that is read within these limits.
fn take_in_arena<A: Allocator + Copy, P: Allocator>(
    repo: &mut Repo<A>,
    arena: &mut Bump<P>,
    text: &[u8],
    limits: Limits,
    policy: Policy,
) -> Verdict
    ensures { TakesWithin limits repo.old.patches text.now policy result repo.new.patches }
{
    if let Err(refused) = arena.reset() {
        return Verdict::from(refused);
    }
    let trial = &*arena;
    let bundle = match read_bundle_within(trial, text, limits) {
        Ok(bundle) => bundle,
        Err(fault) => return Verdict::unread(fault),
    };
    match take_bundle(repo, trial, bundle, policy) {
        Ok(verdict) => verdict,
        Err(why) => Verdict::Refused(why),
    }
}

/// Takes texts in turn under one policy, and writes the verdict of each.
pub fn take_each<A: Allocator + Copy, P: Allocator>(
    repo: &mut Repo<A>,
    arena: &mut Bump<P>,
    texts: &[&[u8]],
    policy: Policy,
    verdicts: &mut [Verdict],
)
    requires { length texts.now ≡ length verdicts.old }
    ensures { TakesEach repo.old.patches (map (λ text. text.now) texts.now) policy verdicts.new repo.new.patches }
{
    for i in 0..texts.len() {
        verdicts[i] = take(repo, arena, texts[i], policy);
    }
}
