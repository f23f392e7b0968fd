//! A bundle for somebody who holds other patches.
ghost use Rattle.std.specs.Prelude.{◌≡◌, IfOk, IfErr};
ghost use Rattle.dm_c.specs.Handles.{held};
ghost use Rattle.dm_c.specs.Sending.{GivesMade, IsNoBundle, IsNoNames, IsNotSent, IsSent, IsSentTo, SendsFor, SendsFrom};
ghost use Rattle.dm_send.specs.Telling.{TellsNames};

use crate::buffer::give;
use crate::handle::Handle;
use crate::numbers::{LimitNumbers, VerdictNumbers};
use crate::status::Status;
use dm_bundle::Bundle;
use dm_hash::write_hashed;
use dm_info::Info;
use dm_named::Limits;
use dm_repo::{Refusal, Repo};
use dm_scratch::Verdict;
use dm_send::{read_names, send, send_minimal};
use std::alloc::Global;

/// The names that a text tells.
fn names_of(alloc: Global, theirs: &[u8], limits: Limits) -> Result<Vec<Info<Global>>, Verdict>
    ensures ok { IfOk result (λ names. TellsNames limits theirs.now names.items) }
    ensures err { IfErr result (IsNoNames limits theirs.now) }
{
    match read_names(alloc, theirs, limits) {
        Ok(names) => Ok(names),
        Err(fault) => Err(Verdict::unread(fault)),
    }
}

/// The bundle for somebody who holds patches of these names.
fn bundle_for(
    alloc: Global,
    repo: &Repo<Global>,
    names: &[Info<Global>],
    is_minimal: bool,
) -> Result<Bundle<Global>, Verdict>
    ensures ok { IfOk result (SendsFor is_minimal repo.now.patches names.now) }
    ensures err { IfErr result (IsNoBundle is_minimal repo.now.patches names.now) }
{
    let made = if is_minimal {
        send_minimal(alloc, repo, 0, names, usize::MAX)
    } else {
        send(alloc, repo, names, usize::MAX)
    };
    match made {
        Ok(bundle) => Ok(bundle),
        Err(refusal) => Err(Verdict::Refused(refusal)),
    }
}

/// The text of a bundle with the hash of its patches; nothing where it has none.
fn text_of(alloc: Global, bundle: &Bundle<Global>) -> Result<Option<Vec<u8>>, Refusal>
    ensures ok { IfOk result (IsSent bundle.now) }
    ensures err { IfErr result (λ refusal. refusal ≡ Refusal.NoMemory) }
{
    if bundle.new_patches().is_empty() {
        return Ok(None);
    }
    let text = write_hashed(alloc, bundle)?;
    Ok(Some(text))
}

/// The text of the bundle for somebody of whom a text tells what they hold; nothing where they have all.
fn sent_text(
    alloc: Global,
    repo: &Repo<Global>,
    theirs: &[u8],
    limits: Limits,
    is_minimal: bool,
) -> Result<Option<Vec<u8>>, Verdict>
    ensures ok { IfOk result (IsSentTo limits is_minimal repo.now.patches theirs.now) }
    ensures err { IfErr result (IsNotSent limits is_minimal repo.now.patches theirs.now) }
{
    let names = names_of(alloc, theirs, limits)?;
    let bundle = bundle_for(alloc, repo, &names, is_minimal)?;
    match text_of(alloc, &bundle) {
        Ok(text) => Ok(text),
        Err(refusal) => Err(Verdict::Refused(refusal)),
    }
}

/// Gives what was made to send, or tells why there is nothing.
fn give_sent(
    made: Result<Option<Vec<u8>>, Verdict>,
    out: &mut [u8],
    needed: &mut usize,
    verdict: &mut VerdictNumbers,
) -> Status
    ensures { GivesMade made out.old out.new needed.old needed.new verdict.old verdict.new result }
{
    match made {
        Ok(Some(text)) => give(&text, Status::Done, out, needed),
        Ok(None) => Status::Nothing,
        Err(why) => {
            let status = Status::from(why);
            if status != Status::NoMemory {
                *verdict = VerdictNumbers::of(why);
            }
            status
        }
    }
}

/// `dm_repo_send`: the bundle for somebody of whom a text tells what they hold, with the hash of its patches.
#[unsafe(no_mangle)]
pub extern "C" fn dm_repo_send(
    alloc: Global,
    repo: &mut Handle,
    theirs: &[u8],
    limits: &LimitNumbers,
    minimal: bool,
    out: &mut [u8],
    needed: &mut usize,
    verdict: &mut VerdictNumbers,
) -> u32
    ensures same { held repo.new ≡ held repo.old }
    ensures sent { SendsFrom limits.now minimal (held repo.old) theirs.now out.old out.new needed.old needed.new verdict.old verdict.new result }
{
    let Some(limits) = limits.limits() else {
        return Status::BadNumber.number();
    };
    let Some(inside) = repo.take_out(alloc) else {
        return Status::NoRepo.number();
    };
    let made = sent_text(alloc, &inside, theirs, limits, minimal);
    repo.put(inside);
    give_sent(made, out, needed, verdict).number()
}
