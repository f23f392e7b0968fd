//! What a verdict says, for people.
ghost use Rattle.std.specs.Prelude.{◌≡◌, ◌<◌, ◌⊎◌, length, IfOk, IfErr};
ghost use Rattle.dm_c.specs.Explaining.{Explains};
ghost use Rattle.dm_c.specs.Handles.{held};

use crate::buffer::give_text;
use crate::handle::Handle;
use crate::numbers::{LimitNumbers, VerdictNumbers, policy_of};
use crate::status::Status;
use dm_bundle::{Bundle, read_bundle_within};
use dm_explain::{Malformed, Remedy, account_of};
use dm_named::{Kinds, Limits, ReadFault};
use dm_repo::{Policy, Repo};
use dm_scratch::Verdict;
use std::alloc::{AllocError, Global};

/// The bytes of a text; there is nothing to explain where it is empty.
fn bytes_of(alloc: Global, text: &str) -> Result<Vec<u8>, Status>
    ensures ok { IfOk result (λ bytes. 0 < length bytes.items) }
    ensures err { IfErr result (λ why. (why ≡ Status.NoMemory) ⊎ (why ≡ Status.Nothing)) }
{
    if text.is_empty() {
        return Err(Status::Nothing);
    }
    let mut bytes = Vec::new(alloc);
    bytes.extend_from_slice(text.as_bytes())?;
    Ok(bytes)
}

/// The fault of a text that was read with these kinds of primitives.
fn fault_text(
    alloc: Global,
    text: &[u8],
    kinds: Kinds,
    fault: ReadFault,
) -> Result<String, AllocError> {
    let remedy = match kinds {
        Kinds::Six => Remedy::Word,
        Kinds::All => Remedy::Known,
    };
    let malformed = Malformed::new(text, fault, remedy);
    format!(in alloc; "{malformed}")
}

/// Whom a verdict on a bundle is about. The repository is the one that taking it by the policy left.
fn account_text(
    alloc: Global,
    repo: &Repo<Global>,
    bundle: &Bundle<Global>,
    policy: Policy,
    verdict: Verdict,
) -> Result<String, AllocError> {
    let account = account_of(alloc, repo, bundle, policy, verdict)?;
    format!(in alloc; "{account}")
}

/// Why a text that can't be read has nothing to explain: memory ran out, or the verdict isn't of this text.
fn unexplained(fault: ReadFault) -> Status
    ensures { (result ≡ Status.NoMemory) ⊎ (result ≡ Status.Nothing) }
{
    match Verdict::unread(fault) {
        Verdict::Malformed(_) => Status::Nothing,
        verdict => Status::from(verdict),
    }
}

/// What a verdict on a text says.
fn explanation(
    alloc: Global,
    repo: &Repo<Global>,
    text: &[u8],
    limits: Limits,
    policy: Policy,
    verdict: Verdict,
) -> Result<Vec<u8>, Status>
    ensures ok { IfOk result (λ bytes. 0 < length bytes.items) }
    ensures err { IfErr result (λ why. (why ≡ Status.NoMemory) ⊎ (why ≡ Status.Nothing)) }
{
    if let Verdict::Malformed(fault) = verdict {
        let said = fault_text(alloc, text, limits.kinds, fault)?;
        return bytes_of(alloc, &said);
    }
    match read_bundle_within(alloc, text, limits) {
        Ok(bundle) => {
            let said = account_text(alloc, repo, &bundle, policy, verdict)?;
            bytes_of(alloc, &said)
        }
        Err(fault) => Err(unexplained(fault)),
    }
}

/// `dm_repo_explain`: what `--explain` says of a verdict, but why patches were skipped.
#[unsafe(no_mangle)]
pub extern "C" fn dm_repo_explain(
    alloc: Global,
    repo: &mut Handle,
    text: &[u8],
    limits: &LimitNumbers,
    policy: u32,
    verdict: &VerdictNumbers,
    out: &mut [u8],
    needed: &mut usize,
) -> u32
    ensures same { held repo.new ≡ held repo.old }
    ensures text { Explains limits.now policy verdict.now (held repo.old) out.old out.new needed.old needed.new result }
{
    let Some(limits) = limits.limits() else {
        return Status::BadNumber.number();
    };
    let Some(policy) = policy_of(policy) else {
        return Status::BadNumber.number();
    };
    let Some(verdict) = verdict.verdict() else {
        return Status::BadNumber.number();
    };
    let Some(inside) = repo.take_out(alloc) else {
        return Status::NoRepo.number();
    };
    let said = explanation(alloc, &inside, text, limits, policy, verdict);
    repo.put(inside);
    give_text(said, out, needed)
}
