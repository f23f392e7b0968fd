//! Refusals as JSON.
ghost use Rattle.std.specs.Prelude.{◌≡◌, slice_get, IfOk, OnOk};
ghost use Rattle.std.specs.Option.{option_map};
ghost use Rattle.dm_explain.specs.Accounts.{held_at, new_at};
ghost use Rattle.dm_log.specs.JsonObjects.{members_in};
ghost use Rattle.dm_told.specs.Told.{dependency_at, refused, refusal_word, with_refusal};

use crate::named::{of_verdict, put_patch, put_word};
use dm_bundle::Bundle;
use dm_deliver::Answer;
use dm_explain::{held_name, new_name};
use dm_info::Info;
use dm_log::Object;
use dm_repo::{Refusal, Repo};
use std::alloc::{AllocError, Global};

/// The word of a refusal.
pub(crate) fn word_of(refusal: Refusal) -> &'static str
    ensures { result.now ≡ refusal_word refusal }
{
    match refusal {
        Refusal::MissingContext(_) => "missing-context",
        Refusal::MissingDependency(_, _) => "missing-dependency",
        Refusal::ContextDepends(_, _) => "context-depends",
        Refusal::HeldDepends(_, _) => "held-depends",
        Refusal::DoesNotFit(_) => "does-not-fit",
        Refusal::Conflicts(_, _) => "conflicts",
        Refusal::Full => "full",
        Refusal::NoMemory => "no-memory",
    }
}

/// What is refused, and by which word.
pub(crate) fn refused(alloc: Global, word: &str, answer: Answer) -> Result<Object, AllocError>
    ensures { IfOk result (λ o. members_in o ≡ refused word.now answer) }
{
    let mut object = of_verdict(alloc, "refused", answer)?;
    put_word(alloc, &mut object, "why", word)?;
    Ok(object)
}

/// The name of the new patch at a place.
fn new_at<'a>(bundle: &'a Bundle<Global>, n: usize) -> Option<&'a Info<Global>>
    ensures { option_map (λ i. i.now) result ≡ new_at bundle.now n }
{
    new_name(bundle, n)
}

/// The name of the held patch at a place.
fn held_at<'a>(repo: &'a Repo<Global>, h: usize) -> Option<&'a Info<Global>>
    ensures { option_map (λ i. i.now) result ≡ held_at repo.now.patches h }
{
    held_name(repo, h)
}

/// The dependency that a new patch names at a place of its list.
fn dependency_at<'a>(bundle: &'a Bundle<Global>, n: usize, d: usize) -> Option<&'a Info<Global>>
    ensures { option_map (λ i. i.now) result ≡ dependency_at bundle.now n d }
{
    match bundle.new_patches().get(n) {
        Some(patch) => patch.deps().get(d),
        None => None,
    }
}

/// The name at a place of the context.
fn context_at<'a>(bundle: &'a Bundle<Global>, c: usize) -> Option<&'a Info<Global>>
    ensures { option_map (λ i. i.now) result ≡ slice_get bundle.now.context c }
{
    bundle.context().get(c)
}

/// Sets the members of the patches that a refusal is about.
pub(crate) fn put_refusal(
    alloc: Global,
    object: &mut Object,
    repo: &Repo<Global>,
    bundle: &Bundle<Global>,
    refusal: Refusal,
) -> Result<(), AllocError>
    ensures { OnOk result (members_in object.new ≡ with_refusal repo.now.patches bundle.now refusal (members_in object.old)) }
{
    match refusal {
        Refusal::MissingContext(c) => put_patch(alloc, object, "missing", c, context_at(bundle, c)),
        Refusal::MissingDependency(n, d) => {
            put_patch(alloc, object, "new", n, new_at(bundle, n))?;
            put_patch(alloc, object, "missing", d, dependency_at(bundle, n, d))
        }
        Refusal::ContextDepends(h, r) => {
            put_patch(alloc, object, "held", h, held_at(repo, h))?;
            put_patch(alloc, object, "needed", r, held_at(repo, r))
        }
        Refusal::HeldDepends(h, n) => {
            put_patch(alloc, object, "new", h, new_at(bundle, h))?;
            put_patch(alloc, object, "needed", n, new_at(bundle, n))
        }
        Refusal::DoesNotFit(n) => put_patch(alloc, object, "new", n, new_at(bundle, n)),
        Refusal::Conflicts(n, h) => {
            put_patch(alloc, object, "new", n, new_at(bundle, n))?;
            put_patch(alloc, object, "held", h, held_at(repo, h))
        }
        Refusal::Full => Ok(()),
        Refusal::NoMemory => Ok(()),
    }
}
