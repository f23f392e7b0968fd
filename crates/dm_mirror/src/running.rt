//! A run of a plan.
ghost use Rattle.std.specs.Prelude.{◌≡◌, ◌+◌, ◌<◌, ◌≤◌, ◌∷◌, ℕ, true, List, [], length, map, IfOk, IfErr, vec_capacity};
ghost use Rattle.std.specs.List.{All, AllByRecursion};
ghost use Rattle.std.specs.VecDeque.{deque_capacity};
ghost use Rattle.dm_mail.specs.declared.opening.MailFault.{MailFault};
ghost use Rattle.dm_mail.specs.Limits.{most_bundles, most_posters, most_waiting};
ghost use Rattle.dm_mail.specs.Mails.{mails_of};
ghost use Rattle.dm_mail.specs.Ends.{AreNewOutlets, inlet_id, outlet_mails};
ghost use Rattle.dm_mirror.specs.Deliveries.{all_mails};
ghost use Rattle.dm_mirror.specs.Jobs.{IsJobOf, IsKept, IsLine, IsOpened, IsSettled, AreSent, AreRowsSent};
ghost use Rattle.dm_mirror.specs.Lists.{EachFrom, EachWith};
ghost use Rattle.dm_mirror.specs.Mirrors.{IsComplete, IsReady};
ghost use Rattle.dm_mirror.specs.Plans.{plan_bound, plan_texts, plan_starts, plan_policies};
ghost use Rattle.dm_mirror.specs.Runs.{IsRunOf, IsServed, SendsTexts};

use crate::columns::{Column, take_column};
use crate::gate::Gate;
use crate::jobs::{Kept, NewLine, PostJob, TakeJob};
use crate::mirror::Mirror;
use crate::outcome::Outcome;
use crate::plan::Plan;
use crate::poster::Poster;
use crate::threads::{Ended, RunFault, in_threads};
use dm_mail::laws::whole;
use dm_mail::{MailFault, Outlet, Sent, Text, open, settle};
use dm_repo::Policy;
use std::alloc::{AllocError, Global};
use std::collections::VecDeque;
use std::snapshot::Snapshot;
use std::sync::Wait;
use std::thread::Threads;

/// The only fault of mail that is opened for one to eight posters and a bound of 1 to 64.
fn of_mail(fault: MailFault) -> RunFault
    requires { fault ≡ MailFault.NoMemory }
    ensures { result ≡ RunFault.NoMemory }
{
    match fault {
        MailFault::NoMemory => RunFault::NoMemory,
        MailFault::BadPosters => unreachable!(),
        MailFault::BadBound => unreachable!(),
    }
}

// The mail of each mirror, once it is open: the outlets of the posters, mirror by mirror, and the jobs of the mirrors.
#[derive(Drop)]
struct Opened {
    outlets: VecDeque<VecDeque<Outlet>>,
    mirrors: VecDeque<TakeJob>,
}

/// Opens the mail of each mirror, which has its policy, for so many posters. At most `bound` mails wait at each.
fn open_each<R: Wait>(
    rt: &R,
    alloc: Global,
    mirrors: VecDeque<Mirror>,
    policies: &[Policy],
    posters: usize,
    expected: usize,
    bound: usize,
) -> Result<Opened, RunFault>
    requires posters { (0 < posters) × (posters ≤ most_posters) }
    requires bound { (0 < bound) × (bound ≤ most_waiting) }
    requires ready { All (IsReady posters expected) mirrors.items }
    requires as_many { length policies.now ≡ length mirrors.items }
    ensures mirrors { IfOk result (λ r. EachWith (IsOpened posters expected bound) mirrors.items r.mirrors.items) }
    ensures policies { IfOk result (λ r. map (λ job. job.policy) r.mirrors.items ≡ policies.now) }
    ensures fault { IfErr result (λ fault. fault ≡ RunFault.NoMemory) }
    ensures outlets { IfOk result (λ r. EachWith (λ job row. (length row ≡ posters) × AreNewOutlets job.inlet 0 row) r.mirrors.items (map (λ row. row.items) r.outlets.items)) }
{
    let mut mirrors = mirrors;
    let mut jobs = VecDeque::with_capacity(alloc, mirrors.len())?;
    let mut outlets = VecDeque::with_capacity(alloc, mirrors.len())?;
    while let Some(mirror) = mirrors.pop_front() {
        let (row, inlet) = match open(rt, alloc, posters, bound) {
            Ok(ends) => ends,
            Err(fault) => return Err(of_mail(fault)),
        };
        let number = jobs.len();
        jobs.push_back_reserved(TakeJob {
            number,
            inlet,
            mirror,
            policy: policies[number],
            expected,
        });
        outlets.push_back_reserved(VecDeque::from(row));
    }
    Ok(Opened {
        outlets,
        mirrors: jobs,
    })
}

/// The line of a new outlet, for a copy of a poster's texts.
fn line_of(outlet: Outlet, left: VecDeque<Text>) -> NewLine
    requires unsent { outlet_mails outlet ≡ [] }
    requires few { length left.items ≤ most_bundles }
    ensures outlet { result.outlet ≡ outlet }
    ensures texts { result.left.items ≡ left.items }
{
    NewLine { outlet, left }
}

/// The job of a poster with these outlets, one to each mirror.
fn job_of(alloc: Global, poster: Poster, outlets: VecDeque<Outlet>) -> Result<PostJob, AllocError>
    requires unsent { AllByRecursion (λ outlet. outlet_mails outlet ≡ []) outlets.items }
    requires count { length poster.copies.items ≡ length outlets.items }
    ensures { IfOk result (λ job. EachWith (IsLine poster.texts.value.items) outlets.items job.lines.items) }
{
    let Poster {
        mut copies,
        count,
        ..
    } = poster;
    let mut outlets = outlets;
    let mut lines = VecDeque::with_capacity(alloc, outlets.len())?;
    while let Some(outlet) = outlets.pop_front() {
        let Some(copy) = copies.pop_front() else {
            unreachable!()
        };
        lines.push_back_reserved(line_of(outlet, copy));
    }
    Ok(PostJob {
        lines,
        rounds: count,
    })
}

/// The jobs of the posters, over mail that was opened for them, and those of the mirrors.
fn jobs_of(
    alloc: Global,
    posters: VecDeque<Poster>,
    opened: Opened,
) -> Result<(VecDeque<PostJob>, VecDeque<TakeJob>), AllocError>
    requires outlets { EachWith (λ job row. (length row ≡ length posters.items) × AreNewOutlets job.inlet 0 row) opened.mirrors.items (map (λ row. row.items) opened.outlets.items) }
    requires copied { All (λ poster. length poster.copies.items ≡ length opened.mirrors.items) posters.items }
    ensures posters { IfOk result (λ r. EachFrom (IsJobOf opened.mirrors.items) 0 posters.items r.0.items) }
    ensures mirrors { IfOk result (λ r. r.1 ≡ opened.mirrors) }
{
    let Opened { outlets, mirrors } = opened;
    let mut posters = posters;
    let mut rows = outlets;
    let mut jobs = VecDeque::with_capacity(alloc, posters.len())?;
    while let Some(poster) = posters.pop_front() {
        let room = VecDeque::with_capacity(alloc, rows.len())?;
        let heads = VecDeque::with_capacity(alloc, rows.len())?;
        let Column { heads, rests, .. } = take_column(rows, room, heads);
        jobs.push_back(job_of(alloc, poster, heads)?)?;
        rows = rests;
    }
    Ok((jobs, mirrors))
}

/// Settles what each poster sent with what a mirror took: the mirror took all of it. Returns the mirror with the receipts
/// of the posters, and the room that the posters' ends were in.
fn settled<R: Wait>(
    rt: &R,
    plan: &Snapshot<Plan>,
    ends: VecDeque<Sent>,
    kept: Kept,
) -> (Mirror, VecDeque<Sent>)
    requires ends { AreSent (inlet_id kept.inlet) (plan_texts plan.now.value) ends.items }
    requires kept { IsKept (plan_texts plan.now.value) (plan_bound plan.now.value) kept }
    ensures delivered { (p : ℕ) (texts : List (List ℕ)) → SendsTexts (plan_texts plan.now.value) p texts → mails_of p result.0.mails.items ≡ all_mails p texts }
    ensures receipts { result.0.receipts.items ≡ map (λ texts. (length texts, true)) (plan_texts plan.now.value) }
    ensures same { (result.0.mails ≡ kept.mirror.mails) × (result.0.verdicts ≡ kept.mirror.verdicts) × (result.0.repo ≡ kept.mirror.repo) }
    ensures room { (result.1.items ≡ []) × (deque_capacity result.1 ≡ deque_capacity ends) }
{
    let Kept {
        mut inlet,
        mut mirror,
    } = kept;
    let mut ends = ends;
    while let Some(end) = ends.pop_front() {
        mirror.receipts.push_reserved((end.count(), end.closed()));
        settle(rt, end, &mut inlet);
    }
    whole();
    (mirror, ends)
}

/// Settles what the posters sent, poster by poster and mirror by mirror, with what each mirror took.
fn settle_each<R: Wait>(
    rt: &R,
    plan: &Snapshot<Plan>,
    ended: Ended,
    room: VecDeque<VecDeque<Sent>>,
    room_for_ends: VecDeque<Sent>,
    outcome: Vec<Mirror>,
) -> Vec<Mirror>
    requires rows { AreRowsSent (map (λ one. inlet_id one.inlet) ended.kept.items) (plan_texts plan.now.value) (map (λ row. row.items) ended.rows.items) }
    requires kept { AllByRecursion (IsKept (plan_texts plan.now.value) (plan_bound plan.now.value)) ended.kept.items }
    requires empty { (room.items ≡ []) × (room_for_ends.items ≡ []) × (outcome.items ≡ []) }
    requires fits { (length ended.rows.items ≤ deque_capacity ended.rows) × (length ended.rows.items ≤ deque_capacity room) × (length ended.rows.items ≤ deque_capacity room_for_ends) }
    requires fits_outcome { length ended.kept.items ≤ vec_capacity outcome }
    ensures { EachWith (IsSettled (plan_texts plan.now.value)) ended.kept.items result.items }
{
    let Ended { mut rows, mut kept } = ended;
    let mut room = room;
    let mut ends = room_for_ends;
    let mut mirrors = outcome;
    while let Some(one) = kept.pop_front() {
        let Column {
            heads,
            rests,
            room: free,
        } = take_column(rows, room, ends);
        let (mirror, emptied) = settled(rt, plan, heads, one);
        mirrors.push_reserved(mirror);
        rows = rests;
        room = free;
        ends = emptied;
    }
    mirrors
}

/// Runs a plan: a thread for each poster and for each mirror. A poster sends each bundle to every mirror before its next
/// bundle, and then its mark. A mirror takes the mails in the order in which they come, the bundle of each into its own
/// repository under its own policy, over an arena of its own, until it has all that the plan has for it. The gate is called
/// around each taking.
///
/// Returns once all threads have ended. That they end, and in which order the mails of two posters come, is in no
/// contract. A verdict may be that memory ran out; the repository is then as it was, and the run goes on.
///
/// Errors: [`RunFault::NoThread`] where a thread couldn't be started, [`RunFault::NoMemory`] where memory was refused; no mail was
/// sent, and the plan is given up.
pub fn run<R: Threads + Wait + Sync, G: Gate + Sync>(
    rt: &R,
    alloc: Global,
    plan: Plan,
    gate: &G,
) -> Result<Outcome, RunFault>
    ensures { IfOk result (IsRunOf (plan_texts plan) (plan_starts plan) (plan_policies plan) (plan_bound plan)) }
{
    let whole_plan = Snapshot::of(&plan);
    let Plan {
        posters,
        mirrors,
        policies,
        outcome,
        expected,
        bound,
    } = plan;
    let count = posters.len();
    let room = VecDeque::with_capacity(alloc, count)?;
    let room_for_ends = VecDeque::with_capacity(alloc, count)?;
    let opened = open_each(rt, alloc, mirrors, &policies, count, expected, bound)?;
    let (posters, mirrors) = jobs_of(alloc, posters, opened)?;
    let ended = in_threads(rt, alloc, gate, posters, mirrors)?;
    let kept = Snapshot::of(&ended.kept);
    let mirrors = settle_each(rt, &whole_plan, ended, room, room_for_ends, outcome);
    Ok(Outcome {
        posters: count,
        mirrors,
        kept,
    })
}
