//! Checking a text, and the line of a verdict.
ghost use Rattle.std.specs.Prelude.{◌≡◌, IfOk, IfErr};
ghost use Rattle.dm_scratch.specs.Printing.{line_of};
ghost use Rattle.dm_scratch.specs.Words.{verdict_text};
ghost use Rattle.dm_c.specs.Buffers.{GivesOr};
ghost use Rattle.dm_c.specs.Calls.{Checks, ChecksWithin};
ghost use Rattle.dm_c.specs.Checking.{GivesChecked, IsChecked, IsNoVerdictLine, IsUnreadAs, IsVerdictLine};
ghost use Rattle.dm_c.specs.Numbers.{status_number};

use crate::buffer::{give, give_text};
use crate::numbers::{LimitNumbers, VerdictNumbers};
use crate::status::Status;
use dm_bundle::{read_bundle_within, write_bundle};
use dm_named::{Limits, ReadFault};
use dm_scratch::{Verdict, push_verdict};
use std::alloc::Global;

/// What is given for a text that is checked.
#[derive(Drop)]
struct Checked {
    /// The canonical text of its bundle, or the line of its fault.
    text: Vec<u8>,
    /// Its fault.
    fault: Option<ReadFault>,
}

/// The line of a verdict.
fn verdict_line(alloc: Global, verdict: Verdict) -> Result<Vec<u8>, Status>
    ensures ok { IfOk result (λ line. line.items ≡ line_of (verdict_text verdict)) }
    ensures err { IfErr result (λ why. why ≡ Status.NoMemory) }
{
    let mut line = Vec::new(alloc);
    push_verdict(verdict, &mut line)?;
    Ok(line)
}

/// The line of the fault of a text that couldn't be read.
fn unread(alloc: Global, fault: ReadFault) -> Result<Checked, Status>
    ensures ok { IfOk result (λ checked. IsUnreadAs fault checked) }
    ensures err { IfErr result (λ why. why ≡ Status.NoMemory) }
{
    match Verdict::unread(fault) {
        Verdict::Malformed(fault) => {
            let text = verdict_line(alloc, Verdict::Malformed(fault))?;
            Ok(Checked {
                text,
                fault: Some(fault),
            })
        }
        verdict => Err(Status::from(verdict)),
    }
}

/// What is given for a text that is read within these limits.
fn check(alloc: Global, text: &[u8], limits: Limits) -> Result<Checked, Status>
    ensures ok { IfOk result (IsChecked limits text.now) }
    ensures err { IfErr result (λ why. why ≡ Status.NoMemory) }
{
    match read_bundle_within(alloc, text, limits) {
        Ok(bundle) => {
            let text = write_bundle(alloc, &bundle)?;
            Ok(Checked { text, fault: None })
        }
        Err(fault) => unread(alloc, fault),
    }
}

/// Gives what was checked, and tells the fault where the line of one is given.
fn give_checked(
    checked: &Checked,
    out: &mut [u8],
    needed: &mut usize,
    verdict: &mut VerdictNumbers,
) -> Status
    ensures { GivesChecked checked.now out.old out.new needed.new verdict.old verdict.new (status_number result) }
{
    match checked.fault {
        None => give(&checked.text, Status::Done, out, needed),
        Some(fault) => {
            let status = give(&checked.text, Status::No, out, needed);
            if status == Status::No {
                *verdict = VerdictNumbers::of(Verdict::Malformed(fault));
            }
            status
        }
    }
}

/// Checks a text within these limits.
fn check_within(
    alloc: Global,
    text: &[u8],
    limits: Limits,
    out: &mut [u8],
    needed: &mut usize,
    verdict: &mut VerdictNumbers,
) -> Status
    ensures { ChecksWithin limits text.now out.old out.new needed.old needed.new verdict.old verdict.new (status_number result) }
{
    match check(alloc, text, limits) {
        Ok(checked) => give_checked(&checked, out, needed, verdict),
        Err(why) => why,
    }
}

/// `dm_check`: what `dm check` prints of a text.
#[unsafe(no_mangle)]
pub extern "C" fn dm_check(
    alloc: Global,
    text: &[u8],
    limits: &LimitNumbers,
    out: &mut [u8],
    needed: &mut usize,
    verdict: &mut VerdictNumbers,
) -> u32
    ensures { Checks limits.now text.now out.old out.new needed.old needed.new verdict.old verdict.new result }
{
    let Some(limits) = limits.limits() else {
        return Status::BadNumber.number();
    };
    check_within(alloc, text, limits, out, needed, verdict).number()
}

/// The line of the verdict that these numbers are of.
fn line_of_numbers(alloc: Global, numbers: &VerdictNumbers) -> Result<Vec<u8>, Status>
    ensures ok { IfOk result (λ line. IsVerdictLine numbers.now line.items) }
    ensures err { IfErr result (IsNoVerdictLine numbers.now) }
{
    let Some(verdict) = numbers.verdict() else {
        return Err(Status::BadNumber);
    };
    verdict_line(alloc, verdict)
}

/// `dm_verdict_line`: the line that `dm` prints for a verdict.
#[unsafe(no_mangle)]
pub extern "C" fn dm_verdict_line(
    alloc: Global,
    verdict: &VerdictNumbers,
    out: &mut [u8],
    needed: &mut usize,
) -> u32
    ensures { GivesOr (IsVerdictLine verdict.now) (IsNoVerdictLine verdict.now) out.old out.new needed.old needed.new result }
{
    give_text(line_of_numbers(alloc, verdict), out, needed)
}
