//! The threads of a run: one for each poster and one for each mirror.
ghost use Rattle.std.specs.Prelude.{◌≡◌, ◌≤◌, ℕ, [], length, map, IfOk, IfErr};
ghost use Rattle.std.specs.VecDeque.{deque_capacity};
ghost use Rattle.dm_mail.specs.Limits.{most_posters};
ghost use Rattle.dm_mail.specs.Ends.{all_taken, inlet_posters};
ghost use Rattle.dm_mirror.specs.Jobs.{DoesPost, DoesTake, EndsNew, TakesInto};
ghost use Rattle.dm_mirror.specs.Lists.{EachWith};
ghost use Rattle.dm_mirror.specs.Mirrors.{IsReady};
ghost use Rattle.dm_mirror.specs.Limits.{most_mirrors};
ghost use Rattle.dm_mirror.specs.declared.threads.RunFault.TheVariants.{NoThread, NoMemory};

use crate::gate::Gate;
use crate::jobs::{Kept, Line, PostJob, TakeJob};
use crate::mirror::Mirror;
use crate::posting::post;
use crate::start_line::StartLine;
use crate::taking::take_mails;
use bumpalo::Bump;
use dm_mail::{Inlet, Sent};
use std::alloc::{AllocError, Global};
use std::collections::VecDeque;
use std::snapshot::Snapshot;
use std::sync::Wait;
use std::thread;
use std::thread::{Promise, PromisedHandle, Scope, Threads};

/// Why a plan wasn't run. No mail was sent.
#[derive(Clone, Copy, PartialEq, Eq, Debug)]
pub enum RunFault {
    /// A thread could not be started.
    NoThread,
    /// Memory was refused: for the jobs, for the mail, to a poster, or for a mirror's arena.
    NoMemory,
}

impl From<AllocError> for RunFault {
    ghost from_gives = { λ _ fault. fault ≡ NoMemory };

    fn from(_: AllocError) -> RunFault {
        RunFault::NoMemory
    }
}

// What a poster's thread promises of its job.
#[derive(Drop)]
pub(crate) struct WillPost(pub(crate) Snapshot<PostJob>);

impl Promise<Result<VecDeque<Sent>, RunFault>> for WillPost {
    ghost kept_by = { λ promise result. IfOk result (λ ends. DoesPost promise.0.value ends.items) };
}

// What a mirror's thread promises of its job.
#[derive(Drop)]
pub(crate) struct WillTake(pub(crate) Snapshot<TakeJob>);

impl Promise<Result<(Inlet, Mirror), RunFault>> for WillTake {
    ghost kept_by = { λ promise result. IfOk result (TakesInto promise.0.value.policy promise.0.value.inlet promise.0.value.mirror promise.0.value.expected) };
}

type PosterThread = PromisedHandle<Result<VecDeque<Sent>, RunFault>, WillPost>;

type MirrorThread = PromisedHandle<Result<(Inlet, Mirror), RunFault>, WillTake>;

/// A poster's thread, from the start line on. An error is why the run was called off.
fn post_once_open<R: Wait>(
    rt: &R,
    alloc: Global,
    line: &StartLine,
    job: PostJob,
) -> Result<VecDeque<Sent>, RunFault>
    ensures { IfOk result (λ ends. DoesPost job ends.items) }
{
    let (room_for_lines, room, room_for_ends) = match rooms_of(alloc, job.lines.len()) {
        Ok(rooms) => rooms,
        Err(error) => {
            let fault = RunFault::from(error);
            line.call_off(rt, fault);
            return Err(fault);
        }
    };
    line.arrive(rt)?;
    Ok(post(rt, job, room_for_lines, room, room_for_ends))
}

/// Room for so many lines, twice, and for what they end as.
fn rooms_of(
    alloc: Global,
    lines: usize,
) -> Result<(VecDeque<Line>, VecDeque<Line>, VecDeque<Sent>), AllocError>
    ensures empty { IfOk result (λ r. (r.0.items ≡ []) × (r.1.items ≡ []) × (r.2.items ≡ [])) }
    ensures fits { IfOk result (λ r. (lines ≤ deque_capacity r.0) × (lines ≤ deque_capacity r.1) × (lines ≤ deque_capacity r.2)) }
{
    let room_for_lines = VecDeque::with_capacity(alloc, lines)?;
    let room = VecDeque::with_capacity(alloc, lines)?;
    let room_for_ends = VecDeque::with_capacity(alloc, lines)?;
    Ok((room_for_lines, room, room_for_ends))
}

/// A mirror's thread, from the start line on, with an arena of its own. An error is why the run was called off.
fn take_once_open<R: Wait, G: Gate>(
    rt: &R,
    alloc: Global,
    line: &StartLine,
    gate: &G,
    job: TakeJob,
) -> Result<(Inlet, Mirror), RunFault>
    ensures { IfOk result (TakesInto job.policy job.inlet job.mirror job.expected) }
{
    let mut arena = Bump::new(alloc);
    if let Err(error) = arena.try_alloc_slice_copy(&[0u8]) {
        let fault = RunFault::from(error);
        line.call_off(rt, fault);
        return Err(fault);
    }
    line.arrive(rt)?;
    let TakeJob {
        number,
        inlet,
        mirror,
        policy,
        expected,
    } = job;
    let Kept { inlet, mirror } = take_mails(
        rt, &mut arena, gate, number, policy, inlet, mirror, expected,
    );
    Ok((inlet, mirror))
}

/// Starts a poster's thread.
fn start_poster<'s, 'e, R: Threads + Wait + Sync>(
    scope: &'s Scope<'s, &'e ()>,
    rt: &'e R,
    alloc: Global,
    line: &'e StartLine,
    job: PostJob,
) -> Result<PosterThread, RunFault>
    ensures handle { IfOk result (λ handle. handle.promise.0.value ≡ job) }
    ensures fault { IfErr result (λ fault. fault ≡ NoThread) }
{
    let promise = WillPost(Snapshot::of(&job));
    let PostJob { lines, rounds } = job;
    start_one(
        scope,
        promise,
        lines,
        move |lines| -> Result<VecDeque<Sent>, RunFault>
            ensures { IfOk result (λ ends. EachWith EndsNew lines.items ends.items) }
        { post_once_open(rt, alloc, line, PostJob { lines, rounds }) },
    )
}

/// Starts a thread that is given a job. Of its type it knows alone that it may be sent.
fn start_one<
    's,
    'e,
    J: Send + Drop + 'e,
    D: Send + Drop + 'e,
    P: Promise<Result<D, RunFault>> + Drop,
    F: FnOnce(J) -> Result<D, RunFault> + Send + 'e,
>(
    scope: &'s Scope<'s, &'e ()>,
    promise: P,
    job: J,
    body: F,
) -> Result<PromisedHandle<Result<D, RunFault>, P>, RunFault>
    requires runs { F.pre body job }
    requires keeps { (r : _) → F.post body job r → P.kept_by promise r }
    ensures handle { IfOk result (λ handle. handle.promise ≡ promise) }
    ensures fault { IfErr result (λ fault. fault ≡ NoThread) }
{
    let work = move || -> Result<D, RunFault>
        requires { F.pre body job }
        ensures { F.post body job result }
    { body(job) };
    match scope.spawn_with(promise, work) {
        Ok(handle) => Ok(handle),
        Err(_) => Err(RunFault::NoThread),
    }
}

/// Starts a thread that is given two values, and hands back two of the same types. Of the types it knows alone that they
/// may be sent, so that no proof has to look into both at once.
fn start_with<
    's,
    'e,
    I: Send + Drop + 'e,
    M: Send + Drop + 'e,
    P: Promise<Result<(I, M), RunFault>> + Drop,
    F: FnOnce(I, M) -> Result<(I, M), RunFault> + Send + 'e,
>(
    scope: &'s Scope<'s, &'e ()>,
    promise: P,
    inlet: I,
    mirror: M,
    body: F,
) -> Result<PromisedHandle<Result<(I, M), RunFault>, P>, RunFault>
    requires runs { F.pre body inlet mirror }
    requires keeps { (r : _) → F.post body inlet mirror r → P.kept_by promise r }
    ensures handle { IfOk result (λ handle. handle.promise ≡ promise) }
    ensures fault { IfErr result (λ fault. fault ≡ NoThread) }
{
    let work = move || -> Result<(I, M), RunFault>
        requires { F.pre body inlet mirror }
        ensures { F.post body inlet mirror result }
    { body(inlet, mirror) };
    match scope.spawn_with(promise, work) {
        Ok(handle) => Ok(handle),
        Err(_) => Err(RunFault::NoThread),
    }
}

/// Starts the thread of a mirror.
fn start_mirror<'s, 'e, R: Threads + Wait + Sync, G: Gate + Sync>(
    scope: &'s Scope<'s, &'e ()>,
    rt: &'e R,
    alloc: Global,
    line: &'e StartLine,
    gate: &'e G,
    job: TakeJob,
) -> Result<MirrorThread, RunFault>
    ensures handle { IfOk result (λ handle. handle.promise.0.value ≡ job) }
    ensures fault { IfErr result (λ fault. fault ≡ NoThread) }
{
    let promise = WillTake(Snapshot::of(&job));
    let TakeJob {
        number,
        inlet,
        mirror,
        policy,
        expected,
    } = job;
    start_with(
        scope,
        promise,
        inlet,
        mirror,
        move |inlet, mirror| -> Result<(Inlet, Mirror), RunFault>
            requires fresh { all_taken inlet ≡ [] }
            requires ready { IsReady (inlet_posters inlet) expected mirror }
            ensures { IfOk result (TakesInto policy inlet mirror expected) }
        {
            let job = TakeJob {
                number,
                inlet,
                mirror,
                policy,
                expected,
            };
            take_once_open(rt, alloc, line, gate, job)
        },
    )
}

/// Starts a thread for each poster. There is room for the handles.
fn start_posters<'s, 'e, R: Threads + Wait + Sync>(
    scope: &'s Scope<'s, &'e ()>,
    rt: &'e R,
    alloc: Global,
    line: &'e StartLine,
    jobs: VecDeque<PostJob>,
    room: VecDeque<PosterThread>,
) -> Result<VecDeque<PosterThread>, RunFault>
    requires { (room.items ≡ []) × (length jobs.items ≤ deque_capacity room) }
    ensures jobs { IfOk result (λ threads. map (λ thread. thread.promise.0.value) threads.items ≡ jobs.items) }
    ensures count { IfOk result (λ threads. length threads.items ≡ length jobs.items) }
    ensures fault { IfErr result (λ fault. fault ≡ NoThread) }
{
    let mut jobs = jobs;
    let mut threads = room;
    while let Some(job) = jobs.pop_front() {
        let thread = start_poster(scope, rt, alloc, line, job)?;
        threads.push_back_reserved(thread);
    }
    Ok(threads)
}

/// Starts a thread for each mirror. There is room for the handles.
fn start_mirrors<'s, 'e, R: Threads + Wait + Sync, G: Gate + Sync>(
    scope: &'s Scope<'s, &'e ()>,
    rt: &'e R,
    alloc: Global,
    line: &'e StartLine,
    gate: &'e G,
    jobs: VecDeque<TakeJob>,
    room: VecDeque<MirrorThread>,
) -> Result<VecDeque<MirrorThread>, RunFault>
    requires { (room.items ≡ []) × (length jobs.items ≤ deque_capacity room) }
    ensures jobs { IfOk result (λ threads. map (λ thread. thread.promise.0.value) threads.items ≡ jobs.items) }
    ensures count { IfOk result (λ threads. length threads.items ≡ length jobs.items) }
    ensures fault { IfErr result (λ fault. fault ≡ NoThread) }
{
    let mut jobs = jobs;
    let mut threads = room;
    while let Some(job) = jobs.pop_front() {
        let thread = start_mirror(scope, rt, alloc, line, gate, job)?;
        threads.push_back_reserved(thread);
    }
    Ok(threads)
}

/// Joins the threads of the posters, in order. There is room for what they hand back. An error is why one was called off.
fn join_posters<R: Threads + Wait>(
    rt: &R,
    threads: VecDeque<PosterThread>,
    room: VecDeque<VecDeque<Sent>>,
) -> Result<VecDeque<VecDeque<Sent>>, RunFault>
    requires { (room.items ≡ []) × (length threads.items ≤ deque_capacity room) }
    ensures done { IfOk result (λ rows. EachWith (λ thread row. DoesPost thread.promise.0.value row.items) threads.items rows.items) }
    ensures fits { IfOk result (λ rows. length rows.items ≤ deque_capacity rows) }
{
    let mut threads = threads;
    let mut rows = room;
    while let Some(thread) = threads.pop_front() {
        let row = thread.join(rt)?;
        rows.push_back_reserved(row);
    }
    Ok(rows)
}

/// Joins the threads of the mirrors, in order. There is room for what they hand back. An error is why one was called off.
fn join_mirrors<R: Threads + Wait>(
    rt: &R,
    threads: VecDeque<MirrorThread>,
    room: VecDeque<Kept>,
) -> Result<VecDeque<Kept>, RunFault>
    requires { (room.items ≡ []) × (length threads.items ≤ deque_capacity room) }
    ensures { IfOk result (λ kept. EachWith (λ thread one. DoesTake thread.promise.0.value one) threads.items kept.items) }
{
    let mut threads = threads;
    let mut kept = room;
    while let Some(thread) = threads.pop_front() {
        let (inlet, mirror) = thread.join(rt)?;
        kept.push_back_reserved(Kept { inlet, mirror });
    }
    Ok(kept)
}

/// What the threads of a run hand back, poster by poster and mirror by mirror.
#[derive(Drop)]
pub(crate) struct Ended {
    pub(crate) rows: VecDeque<VecDeque<Sent>>,
    pub(crate) kept: VecDeque<Kept>,
}

/// Starts the threads, lets them go once all are there, and joins them.
pub(crate) fn in_threads<R: Threads + Wait + Sync, G: Gate + Sync>(
    rt: &R,
    alloc: Global,
    gate: &G,
    posters: VecDeque<PostJob>,
    mirrors: VecDeque<TakeJob>,
) -> Result<Ended, RunFault>
    requires { (length posters.items ≤ most_posters) × (length mirrors.items ≤ most_mirrors) }
    ensures posters { IfOk result (λ r. EachWith (λ job row. DoesPost job row.items) posters.items r.rows.items) }
    ensures mirrors { IfOk result (λ r. EachWith DoesTake mirrors.items r.kept.items) }
    ensures room { IfOk result (λ r. length r.rows.items ≤ deque_capacity r.rows) }
{
    let count = posters.len() + mirrors.len();
    let poster_threads = VecDeque::with_capacity(alloc, posters.len())?;
    let mirror_threads = VecDeque::with_capacity(alloc, mirrors.len())?;
    let rows = VecDeque::with_capacity(alloc, posters.len())?;
    let kept = VecDeque::with_capacity(alloc, mirrors.len())?;
    let line = StartLine::new();
    let line = &line;
    thread::scope(
        thread::scope_env(),
        rt,
        |scope| -> Result<Ended, RunFault>
            requires empty { (poster_threads.items ≡ []) × (mirror_threads.items ≡ []) × (rows.items ≡ []) × (kept.items ≡ []) }
            requires fits { (length posters.items ≤ deque_capacity poster_threads) × (length mirrors.items ≤ deque_capacity mirror_threads) ×
                (length posters.items ≤ deque_capacity rows) × (length mirrors.items ≤ deque_capacity kept) }
            ensures { IfOk result (λ r. (EachWith (λ job row. DoesPost job row.items) posters.items r.rows.items × EachWith DoesTake mirrors.items r.kept.items) ×
                (length r.rows.items ≤ deque_capacity r.rows)) }
        {
            let Ok(posting) = start_posters(scope, rt, alloc, line, posters, poster_threads) else {
                line.call_off(rt, RunFault::NoThread);
                return Err(RunFault::NoThread);
            };
            let Ok(taking) = start_mirrors(scope, rt, alloc, line, gate, mirrors, mirror_threads)
            else {
                line.call_off(rt, RunFault::NoThread);
                return Err(RunFault::NoThread);
            };
            line.open(rt, count)?;
            let rows = join_posters(rt, posting, rows)?;
            let kept = join_mirrors(rt, taking, kept)?;
            Ok(Ended { rows, kept })
        },
    )
}
