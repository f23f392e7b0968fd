//! The command `dm check`.
ghost use Rattle.std.specs.Prelude.{◌≡◌, ◌≢◌, ◌⊎◌, IfOk, IfErr};
ghost use Rattle.std.specs.Io.KnownBytes.{Keeps};
ghost use Rattle.dm_deliver.specs.Answering.{answer_line};
ghost use Rattle.dm_deliver.specs.declared.answers.Answer.TheVariants.{Hash};
ghost use Rattle.dm_commands.specs.Streams.{Writes, WritesPrefix};
ghost use Rattle.dm_commands.specs.Checking.{ChecksHashInputWithin, ChecksHashWithin, ChecksInput, ChecksInputWithin, ChecksWithin, IsOutput, IsTold, TellsInput, TellsInputWithin};
ghost use Rattle.dm_commands.specs.declared.check.CheckOutput.TheVariants.{Paths, Text};

use crate::fault::ToolFault;
use crate::status::status_of;
use crate::streams::{read_within, write_text};
use dm_bundle::{Bundle, read_bundle_within, write_bundle};
use dm_deliver::{Answer, HashFault, HashRule, hash_fault_within, push_answer};
use dm_log::write_paths;
use dm_named::{Limits, ReadFault};
use dm_scratch::{Verdict, push_verdict};
use std::alloc::{AllocError, Global};
use std::io::{Read, Write};

/// What `dm check` prints of a bundle.
#[derive(Clone, Copy, Debug, PartialEq, Eq)]
pub enum CheckOutput {
    /// Its canonical text.
    Text,
    /// The paths that its patches touch.
    Paths,
}

/// What `dm check` answered, and why where the text is no bundle.
#[derive(Drop)]
pub struct Checked {
    /// The exit status.
    pub status: u8,
    /// The text and its fault; `None` where it is a bundle.
    pub unread: Option<Unread>,
}

/// A text that is no bundle, or for which memory ran out.
#[derive(Drop)]
pub struct Unread {
    /// The text.
    pub text: Vec<u8>,
    /// What is wrong with it, and where.
    pub fault: ReadFault,
}

/// What is printed of a bundle.
fn output_text(
    alloc: Global,
    output: CheckOutput,
    bundle: &Bundle<Global>,
) -> Result<Vec<u8>, AllocError>
    ensures { IfOk result (λ out. IsOutput output bundle.now out.items) }
{
    match output {
        CheckOutput::Text => write_bundle(alloc, bundle),
        CheckOutput::Paths => write_paths(alloc, bundle),
    }
}

/// What is printed of a text, and the exit status. The text of a bundle is given up once it has been read: it and what is
/// printed may be large.
fn check_text(
    alloc: Global,
    limits: Limits,
    output: CheckOutput,
    text: Vec<u8>,
) -> Result<(Vec<u8>, Checked), AllocError>
    ensures checks { IfOk result (λ x. ChecksWithin limits output text.items x.0.items x.1.status) }
    ensures told { IfOk result (λ x. IsTold limits text.items x.1) }
{
    match read_bundle_within(alloc, &text, limits) {
        Ok(bundle) => {
            drop(text);
            let out = output_text(alloc, output, &bundle)?;
            Ok((
                out,
                Checked {
                    status: 0,
                    unread: None,
                },
            ))
        }
        Err(fault) => {
            let verdict = Verdict::unread(fault);
            let mut line = Vec::new(alloc);
            push_verdict(verdict, &mut line)?;
            let unread = Some(Unread { text, fault });
            Ok((
                line,
                Checked {
                    status: status_of(verdict),
                    unread,
                },
            ))
        }
    }
}

/// Reads a bundle within these limits and writes what is printed of it, or the line of the verdict, as [`check_over`] does.
///
/// Errors: as there.
pub fn check_within<R: Read, W: Write>(
    alloc: Global,
    limits: Limits,
    output: CheckOutput,
    reader: &mut R,
    writer: &mut W,
) -> Result<Checked, ToolFault>
    ensures ok { IfOk result (λ checked. Writes (ChecksInputWithin limits output (R.remaining reader.old) (R.remaining reader.new)) (W.contents writer.old) (W.contents writer.new) checked.status) }
    ensures told { IfOk result (TellsInputWithin limits (R.remaining reader.old) (R.remaining reader.new)) }
    ensures silent { IfErr result (λ e. (e ≢ ToolFault.Write) → Keeps (W.contents writer.old) (W.contents writer.new)) }
    ensures prefix { IfErr result (λ e. (e ≡ ToolFault.Write) →
        WritesPrefix (ChecksInputWithin limits output (R.remaining reader.old) (R.remaining reader.new)) (W.contents writer.old) (W.contents writer.new)) }
    ensures fault { IfErr result (λ e. (e ≡ ToolFault.Read) ⊎ ((e ≡ ToolFault.NoMemory) ⊎ (e ≡ ToolFault.Write))) }
{
    let text = read_within(alloc, limits, reader)?;
    let (out, checked) = check_text(alloc, limits, output, text)?;
    write_text(&out, writer)?;
    Ok(checked)
}

/// Reads a bundle and writes its canonical text, or the line of the verdict: that the text is
/// malformed, or that memory ran out as it was read. Returns the exit status, 0 with a
/// canonical text and 1 with a verdict, and why there is no bundle.
///
/// Errors: [`ToolFault::Read`], [`ToolFault::NoMemory`] where the text or the output could not be
/// kept, [`ToolFault::Write`]. Only after the last has anything been written, which is a prefix of
/// the output.
pub fn check_over<R: Read, W: Write>(
    alloc: Global,
    reader: &mut R,
    writer: &mut W,
) -> Result<Checked, ToolFault>
    ensures ok { IfOk result (λ checked. Writes (ChecksInput Text (R.remaining reader.old) (R.remaining reader.new)) (W.contents writer.old) (W.contents writer.new) checked.status) }
    ensures told { IfOk result (TellsInput (R.remaining reader.old) (R.remaining reader.new)) }
    ensures silent { IfErr result (λ e. (e ≢ ToolFault.Write) → Keeps (W.contents writer.old) (W.contents writer.new)) }
    ensures prefix { IfErr result (λ e. (e ≡ ToolFault.Write) →
        WritesPrefix (ChecksInput Text (R.remaining reader.old) (R.remaining reader.new)) (W.contents writer.old) (W.contents writer.new)) }
    ensures fault { IfErr result (λ e. (e ≡ ToolFault.Read) ⊎ ((e ≡ ToolFault.NoMemory) ⊎ (e ≡ ToolFault.Write))) }
{
    check_within(alloc, Limits::STANDARD, CheckOutput::Text, reader, writer)
}

/// Reads a bundle and writes the paths that its patches touch, or the line of the verdict, as [`check_over`] does.
///
/// Errors: as there.
pub fn check_paths_over<R: Read, W: Write>(
    alloc: Global,
    reader: &mut R,
    writer: &mut W,
) -> Result<Checked, ToolFault>
    ensures ok { IfOk result (λ checked. Writes (ChecksInput Paths (R.remaining reader.old) (R.remaining reader.new)) (W.contents writer.old) (W.contents writer.new) checked.status) }
    ensures told { IfOk result (TellsInput (R.remaining reader.old) (R.remaining reader.new)) }
    ensures silent { IfErr result (λ e. (e ≢ ToolFault.Write) → Keeps (W.contents writer.old) (W.contents writer.new)) }
    ensures prefix { IfErr result (λ e. (e ≡ ToolFault.Write) →
        WritesPrefix (ChecksInput Paths (R.remaining reader.old) (R.remaining reader.new)) (W.contents writer.old) (W.contents writer.new)) }
    ensures fault { IfErr result (λ e. (e ≡ ToolFault.Read) ⊎ ((e ≡ ToolFault.NoMemory) ⊎ (e ≡ ToolFault.Write))) }
{
    check_within(alloc, Limits::STANDARD, CheckOutput::Paths, reader, writer)
}

/// The line of a hash that is refused.
fn hash_line(alloc: Global, fault: HashFault) -> Result<Vec<u8>, AllocError>
    ensures { IfOk result (λ line. line.items ≡ answer_line (Hash fault)) }
{
    let mut line = Vec::new(alloc);
    push_answer(Answer::Hash(fault), &mut line)?;
    Ok(line)
}

/// What is printed of a text where the hash of its patches has to stand behind it, and the exit status.
fn check_hashed(
    alloc: Global,
    limits: Limits,
    output: CheckOutput,
    text: Vec<u8>,
) -> Result<(Vec<u8>, Checked), AllocError>
    ensures { IfOk result (λ x. ChecksHashWithin limits output text.items x.0.items x.1.status) }
{
    match hash_fault_within(alloc, &text, limits, HashRule::Right)? {
        Some(fault) => {
            let line = hash_line(alloc, fault)?;
            Ok((
                line,
                Checked {
                    status: 1,
                    unread: None,
                },
            ))
        }
        None => {
            let (out, checked) = check_text(alloc, limits, output, text)?;
            Ok((out, checked))
        }
    }
}

/// As [`check_within`]; of a bundle that doesn't end with the right hash of its patches it writes the line that says so, and at
/// which byte the hash stands, or was due. The exit status is 1 then.
///
/// Errors: as there.
pub fn check_hash_within<R: Read, W: Write>(
    alloc: Global,
    limits: Limits,
    output: CheckOutput,
    reader: &mut R,
    writer: &mut W,
) -> Result<Checked, ToolFault>
    ensures ok { IfOk result (λ checked. Writes (ChecksHashInputWithin limits output (R.remaining reader.old) (R.remaining reader.new)) (W.contents writer.old) (W.contents writer.new) checked.status) }
    ensures silent { IfErr result (λ e. (e ≢ ToolFault.Write) → Keeps (W.contents writer.old) (W.contents writer.new)) }
    ensures prefix { IfErr result (λ e. (e ≡ ToolFault.Write) →
        WritesPrefix (ChecksHashInputWithin limits output (R.remaining reader.old) (R.remaining reader.new)) (W.contents writer.old) (W.contents writer.new)) }
    ensures fault { IfErr result (λ e. (e ≡ ToolFault.Read) ⊎ ((e ≡ ToolFault.NoMemory) ⊎ (e ≡ ToolFault.Write))) }
{
    let text = read_within(alloc, limits, reader)?;
    let (answer, checked) = check_hashed(alloc, limits, output, text)?;
    write_text(&answer, writer)?;
    Ok(checked)
}
