//! Why new patches of a bundle are skipped, by name.
ghost use Rattle.std.specs.Prelude.{◌≡◌, None, MatchOption, IfOk};
ghost use Rattle.dm_explain.specs.Skips.{NamesEach, NamesSkip, NamesStopper, StandsNowhere, stopper_at};

use crate::account::{held_name, new_name};
use dm_bundle::Bundle;
use dm_info::Info;
use dm_repo::{Repo, Skip, Stopper};
use std::alloc::{AllocError, Global};

/// Why a new patch is skipped, by the name of what stops it.
#[derive(Clone, Copy)]
pub enum Reason<'a> {
    /// It conflicts with this held patch.
    Conflicts(&'a Info<Global>),
    /// It can't do without this skipped patch.
    Needs(&'a Info<Global>),
}

/// A new patch that is skipped, by name, and why.
#[derive(Clone, Copy)]
pub struct NamedSkip<'a> {
    /// The patch.
    pub patch: &'a Info<Global>,
    /// Why it is skipped.
    pub by: Reason<'a>,
}

/// The new patches of a bundle that are skipped, in its order, and why each is. It prints itself in lines for people.
#[derive(Drop)]
pub struct Skips<'a> {
    /// The patches, each with its reason.
    pub list: Vec<NamedSkip<'a>>,
}

/// What stands at the place of a stopper.
fn reason_at<'a>(
    repo: &'a Repo<Global>,
    bundle: &'a Bundle<Global>,
    by: Stopper,
) -> Option<Reason<'a>>
    ensures { MatchOption result (stopper_at repo.now.patches bundle.now by ≡ None) (NamesStopper repo.now.patches bundle.now by) }
{
    match by {
        Stopper::Held(h) => match held_name(repo, h) {
            Some(name) => Some(Reason::Conflicts(name)),
            None => None,
        },
        Stopper::Skipped(n) => match new_name(bundle, n) {
            Some(name) => Some(Reason::Needs(name)),
            None => None,
        },
    }
}

/// The names of the patches at the places of a skip.
fn names_at<'a>(
    repo: &'a Repo<Global>,
    bundle: &'a Bundle<Global>,
    skip: Skip,
) -> Option<NamedSkip<'a>>
    ensures { MatchOption result (StandsNowhere repo.now.patches bundle.now skip) (NamesSkip repo.now.patches bundle.now skip) }
{
    let Some(patch) = new_name(bundle, skip.place) else {
        return None;
    };
    let Some(by) = reason_at(repo, bundle, skip.by) else {
        return None;
    };
    Some(NamedSkip { patch, by })
}

/// The names of the patches at the places of the skips that [`find_skips`](dm_repo::find_skips) answers. The repository is the
/// one from before the bundle was taken, or the one that taking it left: what was held stands at its place in both.
pub fn skips_of<'a>(
    alloc: Global,
    repo: &'a Repo<Global>,
    bundle: &'a Bundle<Global>,
    skips: &[Skip],
) -> Result<Skips<'a>, AllocError>
    ensures { IfOk result (λ named. NamesEach repo.now.patches bundle.now skips.now named.list.items) }
{
    let mut list = Vec::new(alloc);
    for skip in skips {
        match names_at(repo, bundle, *skip) {
            Some(named) => list.push(named)?,
            None => {}
        }
    }
    Ok(Skips { list })
}
