//! A plan: what each poster sends, what each mirror begins with, and its policy.

mod mirrors;
mod posters;
mod starts;

ghost use Rattle.std.specs.Prelude.{◌≡◌, ◌≤◌, ◌<◌, [], length, map, vec_capacity};
ghost use Rattle.std.specs.List.{All};
ghost use Rattle.dm_mirror.specs.Deliveries.{mails_in};
ghost use Rattle.dm_named.specs.Limits.{standard};
ghost use Rattle.dm_mail.specs.Limits.{most_posters, most_waiting};
ghost use Rattle.dm_mirror.specs.Mirrors.{IsReady};
ghost use Rattle.dm_mirror.specs.Limits.{most_mirrors};
ghost use Rattle.dm_mirror.specs.declared.plan.PlanFault.TheVariants.{NoMemory};

use crate::mirror::Mirror;
use crate::plan::mirrors::mirrors_of;
use crate::plan::posters::{are_few, count_mails, posters_of};
use crate::plan::starts::starts_of;
use crate::poster::Poster;
use dm_mail::{MOST_POSTERS, MOST_WAITING};
use dm_named::Limits;
use dm_repo::{Policy, Refusal, Repo};
use dm_scratch::Verdict;
use std::alloc::{AllocError, Global};
use std::collections::VecDeque;
use thiserror::Error;

/// The most mirrors that a plan has.
pub const MOST_MIRRORS: usize = 8;

/// What each poster sends, what each mirror begins with, and its policy. It owns a copy of all texts, which the mirrors share,
/// the repositories that the bases make, and all room that a run needs for its record.
#[derive(Drop)]
pub struct Plan {
    pub(crate) posters: VecDeque<Poster>,
    pub(crate) mirrors: VecDeque<Mirror>,
    pub(crate) policies: Vec<Policy>,
    pub(crate) outcome: Vec<Mirror>,
    pub(crate) expected: usize,
    pub(crate) bound: usize,
    ghost shape: { ((0 < length posters.items) × (length posters.items ≤ most_posters)) × ((0 < length mirrors.items) × (length mirrors.items ≤ most_mirrors)) },
    ghost as_many: { length policies.items ≡ length mirrors.items },
    ghost copied: { All (λ poster. length poster.copies.items ≡ length mirrors.items) posters.items },
    ghost all_expected: { expected ≡ mails_in (map (λ poster. poster.texts.value.items) posters.items) },
    ghost ready: { All (IsReady (length posters.items) expected) mirrors.items },
    ghost empty: { outcome.items ≡ [] },
    ghost room: { length mirrors.items ≤ vec_capacity outcome },
    ghost bound_is: { (0 < bound) × (bound ≤ most_waiting) },
}

impl Plan {
    ghost use Rattle.std.specs.Prelude.{IfOk, IfErr, OnOk};
    ghost use Rattle.dm_mirror.specs.Plans.{AreFew, AreStarts, IsFirstFault, IsPlannable, plan_bound, plan_policies, plan_starts, plan_texts};

    /// A plan for these posters, each with the texts of its bundles, and these mirrors, each with the text of its base and its
    /// policy; an empty text is an empty repository. There are one to eight of each. At most `bound` mails wait at a mirror.
    /// The bases are read within [`Limits::STANDARD`] and taken here, where a conflict refuses them whatever the policy; each text
    /// is copied once, and all memory for the record of the run is taken, so that a run never grows it.
    ///
    /// Errors: see [`PlanFault`]. A base that was refused for memory is [`PlanFault::NoMemory`].
    pub fn build(
        alloc: Global,
        posters: &[&[&[u8]]],
        bases: &[&[u8]],
        policies: &[Policy],
        bound: usize,
    ) -> Result<Plan, PlanFault>
        ensures texts { IfOk result (λ plan. plan_texts plan ≡ map (λ texts. map (λ text. text.now) texts.now) posters.now) }
        ensures starts { IfOk result (λ plan. AreStarts standard (map (λ base. base.now) bases.now) (plan_starts plan)) }
        ensures policies { IfOk result (λ plan. plan_policies plan ≡ policies.now) }
        ensures bound { IfOk result (λ plan. plan_bound plan ≡ bound) }
        ensures valid { OnOk result (IsPlannable (map (λ texts. map (λ text. text.now) texts.now) posters.now) (map (λ base. base.now) bases.now) policies.now bound) }
        ensures fault { IfErr result (IsFirstFault standard (map (λ texts. map (λ text. text.now) texts.now) posters.now) (map (λ base. base.now) bases.now) policies.now bound) }
    {
        Plan::build_within(alloc, posters, bases, policies, bound, Limits::STANDARD)
    }

    /// The same, with bases that are read within these limits.
    pub fn build_within(
        alloc: Global,
        posters: &[&[&[u8]]],
        bases: &[&[u8]],
        policies: &[Policy],
        bound: usize,
        limits: Limits,
    ) -> Result<Plan, PlanFault>
        ensures texts { IfOk result (λ plan. plan_texts plan ≡ map (λ texts. map (λ text. text.now) texts.now) posters.now) }
        ensures starts { IfOk result (λ plan. AreStarts limits (map (λ base. base.now) bases.now) (plan_starts plan)) }
        ensures policies { IfOk result (λ plan. plan_policies plan ≡ policies.now) }
        ensures bound { IfOk result (λ plan. plan_bound plan ≡ bound) }
        ensures valid { OnOk result (IsPlannable (map (λ texts. map (λ text. text.now) texts.now) posters.now) (map (λ base. base.now) bases.now) policies.now bound) }
        ensures fault { IfErr result (IsFirstFault limits (map (λ texts. map (λ text. text.now) texts.now) posters.now) (map (λ base. base.now) bases.now) policies.now bound) }
    {
        if posters.is_empty() || posters.len() > MOST_POSTERS {
            return Err(PlanFault::Posters);
        }
        if bases.is_empty() || bases.len() > MOST_MIRRORS {
            return Err(PlanFault::Mirrors);
        }
        if policies.len() != bases.len() {
            return Err(PlanFault::Mirrors);
        }
        if bound == 0 || bound > MOST_WAITING {
            return Err(PlanFault::Bound);
        }
        if !are_few(posters) {
            return Err(PlanFault::TooManyBundles);
        }
        let repos = starts_of(alloc, bases, limits)?;
        Ok(Plan::of_repos(alloc, posters, repos, policies, bound)?)
    }

    /// The plan of these texts, and of mirrors of these repositories and policies.
    fn of_repos(
        alloc: Global,
        posters: &[&[&[u8]]],
        repos: VecDeque<Repo<Global>>,
        policies: &[Policy],
        bound: usize,
    ) -> Result<Plan, AllocError>
        requires few { AreFew (map (λ texts. map (λ text. text.now) texts.now) posters.now) }
        requires posters { (0 < length posters.now) × (length posters.now ≤ most_posters) }
        requires repos { (0 < length repos.items) × (length repos.items ≤ most_mirrors) }
        requires as_many { length policies.now ≡ length repos.items }
        requires bound { (0 < bound) × (bound ≤ most_waiting) }
        ensures texts { IfOk result (λ plan. plan_texts plan ≡ map (λ texts. map (λ text. text.now) texts.now) posters.now) }
        ensures starts { IfOk result (λ plan. plan_starts plan ≡ map (λ repo. repo.patches) repos.items) }
        ensures policies { IfOk result (λ plan. plan_policies plan ≡ policies.now) }
        ensures bound { IfOk result (λ plan. plan_bound plan ≡ bound) }
    {
        let expected = count_mails(posters);
        let policies = Vec::from_slice(alloc, policies)?;
        let outcome = Vec::with_capacity(alloc, repos.len())?;
        let made = posters_of(alloc, posters, repos.len())?;
        let mirrors = mirrors_of(alloc, repos, posters.len(), expected)?;
        Ok(Plan {
            posters: made,
            mirrors,
            policies,
            outcome,
            expected,
            bound,
        })
    }
}

/// Why there is no plan, in the order in which it is reported. The first four take no memory.
#[derive(Clone, Copy, PartialEq, Eq, Debug, Error)]
pub enum PlanFault {
    /// The count of posters isn't 1 to 8.
    #[error("plan posters")]
    Posters,
    /// The count of mirrors isn't 1 to 8, or there aren't as many policies.
    #[error("plan mirrors")]
    Mirrors,
    /// The bound isn't 1 to 64.
    #[error("plan bound")]
    Bound,
    /// A poster has more than 1,000 bundles.
    #[error("plan too-many-bundles")]
    TooManyBundles,
    /// The base of this mirror, the first such one, isn't taken into an empty repository.
    #[error("base {1}")]
    BadBase(usize, Verdict),
    /// An allocation failed.
    #[error("no memory")]
    NoMemory,
}

impl PlanFault {
    ghost use Rattle.std.specs.Prelude.{◌≢◌, ◌⊎◌};

    /// What a verdict on the base of a mirror says, which isn't accepted: out of memory, or a bad base.
    fn of_base(mirror: usize, verdict: Verdict) -> PlanFault
        ensures { ((verdict ≡ Verdict.Refused Refusal.NoMemory) × (result ≡ PlanFault.NoMemory)) ⊎
            ((verdict ≢ Verdict.Refused Refusal.NoMemory) × (result ≡ PlanFault.BadBase mirror verdict)) }
    {
        if verdict == Verdict::Refused(Refusal::NoMemory) {
            return PlanFault::NoMemory;
        }
        PlanFault::BadBase(mirror, verdict)
    }
}

impl From<AllocError> for PlanFault {
    ghost from_gives = { λ _ fault. fault ≡ NoMemory };

    fn from(_: AllocError) -> PlanFault {
        PlanFault::NoMemory
    }
}
