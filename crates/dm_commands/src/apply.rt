//! The command `dm apply`.
ghost use Rattle.std.specs.Prelude.{◌≡◌, ◌≢◌, ◌⊎◌, List, IfOk, IfErr};
ghost use Rattle.std.specs.Io.KnownBytes.{Keeps};
ghost use Rattle.dm_named.specs.Patches.{Patch};
ghost use Rattle.dm_scratch.specs.declared.verdict.Verdict.{Verdict};
ghost use Rattle.dm_commands.specs.Streams.{Writes, WritesPrefix};
ghost use Rattle.dm_commands.specs.Applying.{AnswersInput, AnswersInputIn, IsApplied, IsAppliedIn, IsStart, RefusesStart};

use crate::base::{Base, repo_of};
use crate::fault::ToolFault;
use crate::print::answer_text;
use crate::status::status_of;
use crate::streams::{read_text, write_text};
use bumpalo::Bump;
use dm_named::Kinds;
use dm_repo::{Policy, Repo};
use dm_scratch::{Verdict, take_in};
use std::alloc::Global;
use std::io::{Read, Write};

/// What `dm apply` answered.
#[derive(Drop)]
pub struct Applied {
    /// The exit status.
    pub status: u8,
    /// The verdict on the text.
    pub verdict: Verdict,
    /// The text that was read.
    pub text: Vec<u8>,
    /// The repository after it.
    pub repo: Repo<Global>,
}

/// Reads a bundle of these kinds of primitives and takes it, as [`apply_over`] does.
///
/// Errors: as there.
pub fn apply_in<R: Read, W: Write>(
    alloc: Global,
    kinds: Kinds,
    base: Option<Base<'_>>,
    as_bundle: bool,
    policy: Policy,
    reader: &mut R,
    writer: &mut W,
) -> Result<Applied, ToolFault>
    ensures ok { IfOk result (λ applied. Writes (AnswersInputIn kinds base.entry as_bundle policy (R.remaining reader.old) (R.remaining reader.new))
        (W.contents writer.old) (W.contents writer.new) applied.status) }
    ensures told { IfOk result (IsAppliedIn kinds base.entry policy (R.remaining reader.old) (R.remaining reader.new)) }
    ensures base_first { IfErr result (λ e. ((e ≢ ToolFault.Read) × (R.remaining reader.new ≡ R.remaining reader.old)) ⊎
        ((start : List Patch) × IsStart base.entry start)) }
    ensures bad_base { IfErr result (λ e. (v : Verdict) → (e ≡ ToolFault.BadBase v) → RefusesStart base.entry e) }
    ensures unread { IfErr result (λ e. (v : Verdict) → (e ≡ ToolFault.BadBase v) → R.remaining reader.new ≡ R.remaining reader.old) }
    ensures silent { IfErr result (λ e. (e ≢ ToolFault.Write) → Keeps (W.contents writer.old) (W.contents writer.new)) }
    ensures prefix { IfErr result (λ e. (e ≡ ToolFault.Write) →
        WritesPrefix (AnswersInputIn kinds base.entry as_bundle policy (R.remaining reader.old) (R.remaining reader.new))
        (W.contents writer.old) (W.contents writer.new)) }
    ensures fault { IfErr result (λ e. RefusesStart base.entry e ⊎ ((e ≡ ToolFault.Read) ⊎ ((e ≡ ToolFault.NoMemory) ⊎ (e ≡ ToolFault.Write)))) }
{
    let mut repo = repo_of(alloc, base)?;
    let mut arena = Bump::new(alloc);
    let text = read_text(alloc, reader)?;
    let verdict = take_in(&mut repo, &mut arena, &text, kinds, policy);
    let answer = answer_text(alloc, verdict, &repo, as_bundle)?;
    write_text(&answer, writer)?;
    Ok(Applied {
        status: status_of(verdict),
        verdict,
        text,
        repo,
    })
}

/// Reads a bundle, takes it under a policy into the repository that a base makes, or into an empty one, and writes the
/// verdict's line with the listing of the repository's tree, or `as_bundle` with the canonical bundle of all its patches.
/// Returns the exit status, 0 where all of the bundle was taken or it brought nothing new, else 1, with what it tells.
///
/// Errors: [`ToolFault::BadBase`] where the base isn't taken, before anything is read; [`ToolFault::Read`];
/// [`ToolFault::NoMemory`] where the base was refused for memory, or where the text or the output could not be kept;
/// [`ToolFault::Write`]. Only after the last has anything been written, which is a prefix of the output.
pub fn apply_over<R: Read, W: Write>(
    alloc: Global,
    base: Option<Base<'_>>,
    as_bundle: bool,
    policy: Policy,
    reader: &mut R,
    writer: &mut W,
) -> Result<Applied, ToolFault>
    ensures ok { IfOk result (λ applied. Writes (AnswersInput base.entry as_bundle policy (R.remaining reader.old) (R.remaining reader.new))
        (W.contents writer.old) (W.contents writer.new) applied.status) }
    ensures told { IfOk result (IsApplied base.entry policy (R.remaining reader.old) (R.remaining reader.new)) }
    ensures base_first { IfErr result (λ e. ((e ≢ ToolFault.Read) × (R.remaining reader.new ≡ R.remaining reader.old)) ⊎
        ((start : List Patch) × IsStart base.entry start)) }
    ensures bad_base { IfErr result (λ e. (v : Verdict) → (e ≡ ToolFault.BadBase v) → RefusesStart base.entry e) }
    ensures unread { IfErr result (λ e. (v : Verdict) → (e ≡ ToolFault.BadBase v) → R.remaining reader.new ≡ R.remaining reader.old) }
    ensures silent { IfErr result (λ e. (e ≢ ToolFault.Write) → Keeps (W.contents writer.old) (W.contents writer.new)) }
    ensures prefix { IfErr result (λ e. (e ≡ ToolFault.Write) →
        WritesPrefix (AnswersInput base.entry as_bundle policy (R.remaining reader.old) (R.remaining reader.new))
        (W.contents writer.old) (W.contents writer.new)) }
    ensures fault { IfErr result (λ e. RefusesStart base.entry e ⊎ ((e ≡ ToolFault.Read) ⊎ ((e ≡ ToolFault.NoMemory) ⊎ (e ≡ ToolFault.Write)))) }
{
    apply_in(alloc, Kinds::Six, base, as_bundle, policy, reader, writer)
}
