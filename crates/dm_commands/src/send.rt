//! The command `dm send`.
ghost use Rattle.std.specs.Prelude.{◌≡◌, ◌≢◌, ◌⊎◌, ℕ, take, IfOk, IfErr, OnErr, OnOk};
ghost use Rattle.dm_named.specs.Laws.{with_kinds};
ghost use Rattle.dm_named.specs.Limits.{standard};
ghost use Rattle.dm_scratch.specs.declared.verdict.Verdict.TheVariants.{Refused};
ghost use Rattle.dm_scratch.specs.Printing.{line_of};
ghost use Rattle.dm_scratch.specs.Taking.{ReadsWithin};
ghost use Rattle.dm_scratch.specs.Words.{verdict_text};
ghost use Rattle.dm_begin.specs.Bases.{KnowsBase};
ghost use Rattle.dm_send.specs.Telling.{TellsNames};
ghost use Rattle.dm_commands.specs.Streams.{AppendsApart, WritesApart, WritesPrefixApart};
ghost use Rattle.dm_commands.specs.Sending.{AnswersNames, AnswersTexts, CountsUnheld, hashed_text, IsPastLimits, IsWithinLimits, RefusesNames, RefusesTexts, RefusesTheirs, TheirNames};
ghost use Rattle.dm_commands.specs.Sending.{RefusesToSendFor, SendsFor, TellsNumbers, TellsTexts};

use crate::base::Base;
use crate::fault::ToolFault;
use crate::status::status_of;
use crate::streams::write_text;
use crate::tag::{before_base_line, is_lawful};
use dm_begin::{cut_base, knows_base};
use dm_bundle::{Bundle, are_within};
use dm_hash::write_hashed;
use dm_info::Info;
use dm_named::{Kinds, Limits};
use dm_repo::{Refusal, Repo};
use dm_scratch::{Verdict, push_verdict};
use dm_send::{read_names, send, send_minimal};
use dm_store::are_of;
use std::alloc::Global;
use std::io::Write;

/// What `dm send` answered.
#[derive(Drop)]
pub struct Sent {
    /// The exit status.
    pub status: u8,
    /// How many new patches are sent; `None` where there is no bundle.
    pub new: Option<usize>,
    /// How many names of theirs aren't held here.
    pub unheld: usize,
    /// Why there is no bundle, where they have the base.
    pub why: Option<Refusal>,
}

/// The names that a text tells.
fn names_of(alloc: Global, theirs: &[u8], limits: Limits) -> Result<Vec<Info<Global>>, ToolFault>
    ensures ok { IfOk result (λ names. TellsNames limits theirs.now names.items) }
    ensures err { IfErr result (RefusesNames limits theirs.now) }
{
    match read_names(alloc, theirs, limits) {
        Ok(names) => Ok(names),
        Err(fault) => Err(ToolFault::of_names(fault)),
    }
}

/// How many of these names aren't held.
fn count_unheld(repo: &Repo<Global>, names: &[Info<Global>]) -> usize
    ensures { CountsUnheld repo.now.patches names.now result }
{
    let mut unheld = 0;
    for name in names {
        match repo.position(name) {
            Some(_) => {}
            None => unheld += 1,
        }
    }
    unheld
}

/// The bundle for somebody who holds patches of these names.
fn bundle_for(
    alloc: Global,
    repo: &Repo<Global>,
    base: usize,
    names: &[Info<Global>],
    most: usize,
    is_minimal: bool,
) -> Result<Bundle<Global>, Refusal>
    ensures sent { IfOk result (SendsFor is_minimal repo.now.patches base names.now most) }
    ensures refusal { IfErr result (RefusesToSendFor is_minimal repo.now.patches base names.now most) }
{
    if is_minimal {
        return send_minimal(alloc, repo, base, names, most);
    }
    send(alloc, repo, names, most)
}

/// The text of a bundle of primitives of these kinds with the hash of its patches, where both are within the limits of what is
/// read.
pub fn text_of(alloc: Global, kinds: Kinds, bundle: &Bundle<Global>) -> Result<Vec<u8>, ToolFault>
    ensures text { IfOk result (λ text. text.items ≡ hashed_text bundle.now) }
    ensures reads { IfOk result (λ text. ReadsWithin (with_kinds standard kinds) text.items bundle.now) }
    ensures err { IfErr result (λ e. (e ≡ ToolFault.NoMemory) ⊎ ((e ≡ ToolFault.TooManyToSend) × (IsWithinLimits kinds bundle.now → ⊥))) }
{
    let limits = Limits::STANDARD.with_kinds(kinds);
    if !are_within(limits, bundle.new_patches()) {
        return Err(ToolFault::TooManyToSend);
    }
    if !are_of(kinds, bundle.new_patches()) {
        return Err(ToolFault::TooManyToSend);
    }
    let text = write_hashed(alloc, bundle)?;
    if text.len() > Limits::STANDARD.bytes {
        return Err(ToolFault::TooManyToSend);
    }
    Ok(text)
}

/// The line that says why there is no bundle. That memory ran out is no answer.
pub fn refusal_line(alloc: Global, why: Refusal) -> Result<Vec<u8>, ToolFault>
    ensures line { IfOk result (λ line. line.items ≡ line_of (verdict_text (Refused why))) }
    ensures answers { IfOk result (λ _. why ≢ Refusal.NoMemory) }
    ensures err { IfErr result (λ e. e ≡ ToolFault.NoMemory) }
{
    if why == Refusal::NoMemory {
        return Err(ToolFault::NoMemory);
    }
    let mut line = Vec::new(alloc);
    push_verdict(Verdict::Refused(why), &mut line)?;
    Ok(line)
}

/// What is printed for somebody who holds patches of these names, and has the whole base of the repository, and
/// what is told of it, where so many of the names aren't held.
fn answer_knower(
    alloc: Global,
    kinds: Kinds,
    repo: &Repo<Global>,
    base: usize,
    names: &[Info<Global>],
    most: usize,
    is_minimal: bool,
    unheld: usize,
) -> Result<(Vec<u8>, Sent), ToolFault>
    requires knows { KnowsBase repo.now.patches base names.now }
    requires unheld { CountsUnheld repo.now.patches names.now unheld }
    ensures ok { IfOk result (λ x. AnswersNames kinds is_minimal repo.now.patches base names.now most x.0.items x.1.status) }
    ensures told { IfOk result (λ x. TellsNumbers is_minimal repo.now.patches base names.now most x.1) }
    ensures err { IfErr result (λ e. (e ≡ ToolFault.NoMemory) ⊎
        ((e ≡ ToolFault.TooManyToSend) × IsPastLimits kinds is_minimal repo.now.patches base names.now most)) }
{
    match bundle_for(alloc, repo, base, names, most, is_minimal) {
        Ok(bundle) => {
            is_lawful(repo);
            let cut = cut_base(alloc, alloc, repo, base, bundle)?;
            let text = text_of(alloc, kinds, &cut)?;
            let sent = Sent {
                status: 0,
                new: Some(cut.new_patches().len()),
                unheld,
                why: None,
            };
            Ok((text, sent))
        }
        Err(why) => {
            let line = refusal_line(alloc, why)?;
            let sent = Sent {
                status: status_of(Verdict::Refused(why)),
                new: None,
                unheld,
                why: Some(why),
            };
            Ok((line, sent))
        }
    }
}

/// What is printed for somebody who holds patches of these names, and what is told of it.
fn answer_for(
    alloc: Global,
    kinds: Kinds,
    repo: &Repo<Global>,
    base: usize,
    names: &[Info<Global>],
    most: usize,
    is_minimal: bool,
) -> Result<(Vec<u8>, Sent), ToolFault>
    ensures ok { IfOk result (λ x. AnswersNames kinds is_minimal repo.now.patches base names.now most x.0.items x.1.status) }
    ensures told { IfOk result (λ x. TellsNumbers is_minimal repo.now.patches base names.now most x.1) }
    ensures err { IfErr result (λ e. (e ≡ ToolFault.NoMemory) ⊎
        ((e ≡ ToolFault.TooManyToSend) × IsPastLimits kinds is_minimal repo.now.patches base names.now most)) }
{
    let unheld = count_unheld(repo, names);
    if !knows_base(alloc, repo, base, names)? {
        let line = before_base_line(alloc)?;
        let sent = Sent {
            status: 1,
            new: None,
            unheld,
            why: None,
        };
        return Ok((line, sent));
    }
    answer_knower(alloc, kinds, repo, base, names, most, is_minimal, unheld)
}

/// The names of what somebody holds: those that their text tells, and none without a text.
fn their_names(alloc: Global, theirs: Option<Base<'_>>) -> Result<Vec<Info<Global>>, ToolFault>
    ensures ok { IfOk result (λ names. TheirNames theirs.entry names.items) }
    ensures err { IfErr result (RefusesTheirs theirs.entry) }
{
    match theirs {
        None => Ok(Vec::new(alloc)),
        Some(theirs) => names_of(alloc, theirs.text, theirs.limits),
    }
}

/// What is printed for somebody of whom a text tells what they hold, or who holds nothing, and what is told of it.
fn answer_to(
    alloc: Global,
    kinds: Kinds,
    repo: &Repo<Global>,
    base: usize,
    theirs: Option<Base<'_>>,
    most: usize,
    is_minimal: bool,
) -> Result<(Vec<u8>, Sent), ToolFault>
    ensures ok { IfOk result (λ x. AnswersTexts kinds is_minimal repo.now.patches base theirs.entry most x.0.items x.1.status) }
    ensures told { IfOk result (λ x. TellsTexts is_minimal repo.now.patches base theirs.entry most x.1) }
    ensures err { IfErr result (RefusesTexts kinds is_minimal repo.now.patches base theirs.entry most) }
{
    let names = their_names(alloc, theirs)?;
    let answer = answer_for(alloc, kinds, repo, base, &names, most, is_minimal)?;
    Ok(answer)
}

/// Writes an answer with the status 0 to the first writer, and any other to the second.
fn write_apart<W: Write, E: Write>(
    out: &[u8],
    status: u8,
    writer: &mut W,
    errors: &mut E,
) -> Result<(), ToolFault>
    ensures ok { OnOk result (AppendsApart (W.contents writer.old) (W.contents writer.new) (E.contents errors.old) (E.contents errors.new) status out.now) }
    ensures prefix { OnErr result ((count : ℕ) ×
        AppendsApart (W.contents writer.old) (W.contents writer.new) (E.contents errors.old) (E.contents errors.new) status (take count out.now)) }
    ensures fault { IfErr result (λ e. e ≡ ToolFault.Write) }
{
    if status == 0 {
        return write_text(out, writer);
    }
    write_text(out, errors)
}

/// Writes the canonical bundle of the patches that somebody lacks, as they stand behind what both hold: the first `most` of
/// those of a repository, whose primitives are of these kinds. Another text tells what they hold; without one they hold nothing. A minimal bundle names in its context
/// only what its patches rest on. Behind the context stands the hash of the patches. Where a patch that they hold rests on one
/// that they don't, or a repository of what both hold would refuse the bundle, it writes the line of the refusal instead, to `errors`:
/// who awaits a bundle gets nothing. Returns the exit status, 0 with a bundle and 1 with a refusal, and what it tells.
///
/// The first patches of the repository, so many of them, are its base. Where they don't have all of it, that line is `refused
/// before-base`. Of a base that they have the context names the last patch, and no other.
///
/// Errors: [`ToolFault::BadNames`] where the other text tells no names; [`ToolFault::TooManyToSend`] where the bundle is past a
/// limit of what `dm` reads; [`ToolFault::NoMemory`]; [`ToolFault::Write`]. Only after the last has anything been written, which
/// is a prefix of the output.
pub fn send_over<W: Write, E: Write>(
    alloc: Global,
    kinds: Kinds,
    repo: &Repo<Global>,
    base: usize,
    theirs: Option<Base<'_>>,
    most: usize,
    is_minimal: bool,
    writer: &mut W,
    errors: &mut E,
) -> Result<Sent, ToolFault>
    ensures ok { IfOk result (λ sent. WritesApart (AnswersTexts kinds is_minimal repo.now.patches base theirs.entry most)
        (W.contents writer.old) (W.contents writer.new) (E.contents errors.old) (E.contents errors.new) sent.status) }
    ensures told { IfOk result (TellsTexts is_minimal repo.now.patches base theirs.entry most) }
    ensures fault { IfErr result (λ e. (e ≢ ToolFault.Write) → RefusesTexts kinds is_minimal repo.now.patches base theirs.entry most e) }
    ensures silent { IfErr result (λ e. (e ≢ ToolFault.Write) →
        (W.contents writer.new ≡ W.contents writer.old) × (E.contents errors.new ≡ E.contents errors.old)) }
    ensures prefix { IfErr result (λ e. (e ≡ ToolFault.Write) →
        WritesPrefixApart (AnswersTexts kinds is_minimal repo.now.patches base theirs.entry most)
        (W.contents writer.old) (W.contents writer.new) (E.contents errors.old) (E.contents errors.new)) }
{
    let (out, sent) = answer_to(alloc, kinds, repo, base, theirs, most, is_minimal)?;
    write_apart(&out, sent.status, writer, errors)?;
    Ok(sent)
}
