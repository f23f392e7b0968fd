//! A repository behind a handle: begun, ended, filled and counted.
ghost use Rattle.std.specs.Prelude.{◌≡◌, [], None, IfOk, IfErr};
ghost use Rattle.dm_c.specs.Calls.{Begins, Counts, TakesInto, TakesTold};
ghost use Rattle.dm_c.specs.Handles.{held};

use crate::handle::Handle;
use crate::numbers::{LimitNumbers, VerdictNumbers, policy_of};
use crate::status::Status;
use dm_named::Limits;
use dm_repo::{Policy, Repo};
use dm_scratch::take_within;
use std::alloc::Global;

/// An empty repository on the heap.
fn empty(alloc: Global) -> Result<Box<Repo<Global>>, Status>
    ensures ok { IfOk result (λ repo. repo.value.patches ≡ []) }
    ensures err { IfErr result (λ why. why ≡ Status.NoMemory) }
{
    let repo = Box::new(alloc, Repo::new(alloc))?;
    Ok(repo)
}

/// `dm_repo_new`: begins an empty repository, where the handle holds none.
#[unsafe(no_mangle)]
pub extern "C" fn dm_repo_new(alloc: Global, repo: &mut Handle) -> u32
    ensures { Begins (held repo.old) (held repo.new) result }
{
    if let Some(old) = repo.take_out(alloc) {
        repo.put(old);
        return Status::NoRepo.number();
    }
    match empty(alloc) {
        Ok(new) => {
            repo.put(new);
            Status::Done.number()
        }
        Err(why) => why.number(),
    }
}

/// `dm_repo_free`: ends the repository, if the handle holds one.
#[unsafe(no_mangle)]
pub extern "C" fn dm_repo_free(alloc: Global, repo: &mut Handle) -> u32
    ensures none { held repo.new ≡ None }
    ensures done { result ≡ 0 }
{
    drop(repo.take_out(alloc));
    Status::Done.number()
}

/// Takes a text, and tells its verdict unless memory ran out.
fn take_told(
    repo: &mut Repo<Global>,
    alloc: Global,
    text: &[u8],
    limits: Limits,
    policy: Policy,
    verdict: &mut VerdictNumbers,
) -> Status
    ensures { TakesTold limits repo.old.patches text.now policy verdict.old verdict.new repo.new.patches result }
{
    let became = take_within(repo, alloc, text, limits, policy);
    let status = Status::from(became);
    if status != Status::NoMemory {
        *verdict = VerdictNumbers::of(became);
    }
    status
}

/// `dm_repo_take`: takes the bundle of a text.
#[unsafe(no_mangle)]
pub extern "C" fn dm_repo_take(
    alloc: Global,
    repo: &mut Handle,
    text: &[u8],
    limits: &LimitNumbers,
    policy: u32,
    verdict: &mut VerdictNumbers,
) -> u32
    ensures { TakesInto limits.now policy text.now (held repo.old) (held repo.new) verdict.old verdict.new result }
{
    let Some(limits) = limits.limits() else {
        return Status::BadNumber.number();
    };
    let Some(policy) = policy_of(policy) else {
        return Status::BadNumber.number();
    };
    let Some(mut inside) = repo.take_out(alloc) else {
        return Status::NoRepo.number();
    };
    let status = take_told(&mut inside, alloc, text, limits, policy, verdict);
    repo.put(inside);
    status.number()
}

/// `dm_repo_len`: how many patches the repository has.
#[unsafe(no_mangle)]
pub extern "C" fn dm_repo_len(alloc: Global, repo: &mut Handle, count: &mut usize) -> u32
    ensures same { held repo.new ≡ held repo.old }
    ensures count { Counts (held repo.old) count.old count.new result }
{
    let Some(inside) = repo.take_out(alloc) else {
        return Status::NoRepo.number();
    };
    *count = inside.len();
    repo.put(inside);
    Status::Done.number()
}
