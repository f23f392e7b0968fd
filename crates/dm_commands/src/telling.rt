//! The commands `dm check` and `dm send` for programs.
ghost use Rattle.std.specs.Prelude.{◌≡◌, ◌≢◌, ◌⊎◌, codes, IfOk, IfErr};
ghost use Rattle.std.specs.Io.KnownBytes.{Keeps};
ghost use Rattle.dm_commands.specs.Streams.{Writes, WritesPrefix};
ghost use Rattle.dm_commands.specs.Telling.{TellsBundle, TellsByRule, TellsInputByRule, TellsSent, TellsWithin, shown_if};
ghost use Rattle.dm_told.specs.Told.{IsMadeLine};

use crate::check::{Checked, Unread};
use crate::fault::ToolFault;
use crate::send::Sent;
use crate::status::status_of;
use crate::streams::{read_within, write_text};
use dm_bundle::{Bundle, read_bundle_within};
use dm_deliver::{Answer, HashRule, hash_fault_within};
use dm_named::{FaultKind, Kinds, Limits};
use dm_repo::Repo;
use dm_scratch::Verdict;
use dm_told::{made_line, own_line, sound_line, text_line};
use std::alloc::{AllocError, Global};
use std::io::{Read, Write};

/// What is told of a text, and the exit status.
fn tell_text(alloc: Global, limits: Limits, text: Vec<u8>) -> Result<(Vec<u8>, Checked), AllocError>
    ensures { IfOk result (λ x. TellsWithin limits text.items x.0.items x.1.status) }
{
    match read_bundle_within(alloc, &text, limits) {
        Ok(bundle) => {
            let line = sound_line(alloc, &bundle)?;
            Ok((
                line,
                Checked {
                    status: 0,
                    unread: None,
                },
            ))
        }
        Err(fault) => {
            let verdict = Verdict::unread(fault);
            let line = text_line(alloc, &text, Answer::Verdict(verdict))?;
            let unread = Some(Unread { text, fault });
            Ok((
                line,
                Checked {
                    status: status_of(verdict),
                    unread,
                },
            ))
        }
    }
}

/// What is told of a text by a rule for its hash, and the exit status.
fn tell_by_rule(
    alloc: Global,
    limits: Limits,
    rule: HashRule,
    text: Vec<u8>,
) -> Result<(Vec<u8>, Checked), AllocError>
    ensures { IfOk result (λ x. TellsByRule limits rule text.items x.0.items x.1.status) }
{
    match hash_fault_within(alloc, &text, limits, rule)? {
        Some(fault) => {
            let line = text_line(alloc, &text, Answer::Hash(fault))?;
            Ok((
                line,
                Checked {
                    status: 1,
                    unread: None,
                },
            ))
        }
        None => {
            let (out, checked) = tell_text(alloc, limits, text)?;
            Ok((out, checked))
        }
    }
}

/// Reads a bundle within these limits and writes a line of JSON: that nothing is wrong with it, or what is, also with its hash by this
/// rule. Returns the exit status, 0 where nothing is wrong and 1 else, and why there is no bundle.
///
/// Errors: as of `check_over`.
pub fn tell_within<R: Read, W: Write>(
    alloc: Global,
    limits: Limits,
    rule: HashRule,
    reader: &mut R,
    writer: &mut W,
) -> Result<Checked, ToolFault>
    ensures ok { IfOk result (λ checked. Writes (TellsInputByRule limits rule (R.remaining reader.old) (R.remaining reader.new)) (W.contents writer.old) (W.contents writer.new) checked.status) }
    ensures silent { IfErr result (λ e. (e ≢ ToolFault.Write) → Keeps (W.contents writer.old) (W.contents writer.new)) }
    ensures prefix { IfErr result (λ e. (e ≡ ToolFault.Write) →
        WritesPrefix (TellsInputByRule limits rule (R.remaining reader.old) (R.remaining reader.new)) (W.contents writer.old) (W.contents writer.new)) }
    ensures fault { IfErr result (λ e. (e ≡ ToolFault.Read) ⊎ ((e ≡ ToolFault.NoMemory) ⊎ (e ≡ ToolFault.Write))) }
{
    let text = read_within(alloc, limits, reader)?;
    let (answer, checked) = tell_by_rule(alloc, limits, rule, text)?;
    write_text(&answer, writer)?;
    Ok(checked)
}

/// The line of a bundle that is sent, with its text if it is to be shown.
fn shown_line(
    alloc: Global,
    bundle: &Bundle<Global>,
    text: &[u8],
    shows: bool,
) -> Result<Vec<u8>, AllocError>
    ensures { IfOk result (λ line. IsMadeLine (codes "sent") bundle.now (shown_if shows text.now) line.items) }
{
    if shows {
        return made_line(alloc, "sent", bundle, Some(text));
    }
    made_line(alloc, "sent", bundle, None)
}

/// The line of the bundle of these kinds that a text stands for, which is sent.
fn bundle_line(alloc: Global, kinds: Kinds, text: &[u8], shows: bool) -> Result<Vec<u8>, AllocError>
    ensures { IfOk result (λ line. TellsBundle kinds text.now shows line.items) }
{
    match read_bundle_within(alloc, text, Limits::STANDARD.with_kinds(kinds)) {
        Ok(bundle) => {
            let line = shown_line(alloc, &bundle, text, shows)?;
            Ok(line)
        }
        Err(fault) => {
            if fault.kind == FaultKind::NoMemory {
                return Err(AllocError);
            }
            let line = text_line(alloc, text, Answer::Verdict(Verdict::Malformed(fault)))?;
            Ok(line)
        }
    }
}

/// The line of JSON of what `send_over` answered, which wrote this text: its bundle, with the text if it is to be shown, or why there is
/// none.
pub fn sent_line(
    alloc: Global,
    kinds: Kinds,
    repo: &Repo<Global>,
    sent: &Sent,
    text: &[u8],
    shows: bool,
) -> Result<Vec<u8>, AllocError>
    ensures { IfOk result (λ line. TellsSent kinds repo.now.patches sent.now.new sent.now.why text.now shows line.items) }
{
    match (sent.new, sent.why) {
        (Some(_), _) => bundle_line(alloc, kinds, text, shows),
        (None, Some(why)) => own_line(alloc, repo, Answer::Verdict(Verdict::Refused(why))),
        (None, None) => own_line(alloc, repo, Answer::BeforeBase),
    }
}
