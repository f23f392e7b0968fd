//! Reading a text whole, and writing one.
ghost use Rattle.std.specs.Prelude.{◌≡◌, ◌⊎◌, ℕ, take, IfOk, IfErr, OnOk, OnErr};
ghost use Rattle.std.specs.Io.KnownBytes.{Appends};
ghost use Rattle.dm_commands.specs.Streams.{Gives, GivesWithin};

use crate::fault::ToolFault;
use dm_mirror::write_report;
use dm_named::Limits;
use std::alloc::Global;
use std::io::{Read, Write};

/// Reads to the end, or one byte more than a text may have by these limits if there are as many.
///
/// Errors: [`ToolFault::Read`] at any error of the reader, an interruption too;
/// [`ToolFault::NoMemory`].
pub fn read_within<R: Read>(
    alloc: Global,
    limits: Limits,
    reader: &mut R,
) -> Result<Vec<u8>, ToolFault>
    ensures text { IfOk result (λ text. GivesWithin limits (R.remaining reader.old) (R.remaining reader.new) text.items) }
    ensures fault { IfErr result (λ e. (e ≡ ToolFault.Read) ⊎ (e ≡ ToolFault.NoMemory)) }
{
    let mut text = Vec::new(alloc);
    let mut chunk = [0; 65536];
    while text.len() <= limits.bytes {
        let room = (limits.bytes - text.len()).min(65535) + 1;
        let part = &mut chunk[..room];
        let Ok(count) = reader.read(part) else {
            return Err(ToolFault::Read);
        };
        if count == 0 {
            break;
        }
        text.extend_from_slice(&part[..count])?;
    }
    Ok(text)
}

/// Reads to the end within the standard limits, as [`read_within`] does.
pub fn read_text<R: Read>(alloc: Global, reader: &mut R) -> Result<Vec<u8>, ToolFault>
    ensures text { IfOk result (λ text. Gives (R.remaining reader.old) (R.remaining reader.new) text.items) }
    ensures fault { IfErr result (λ e. (e ≡ ToolFault.Read) ⊎ (e ≡ ToolFault.NoMemory)) }
{
    read_within(alloc, Limits::STANDARD, reader)
}

/// Writes all of the text.
///
/// Error: [`ToolFault::Write`] at any error of the writer, an interruption too, and where it takes
/// no byte; a prefix of the text was written.
pub fn write_text<W: Write>(text: &[u8], writer: &mut W) -> Result<(), ToolFault>
    ensures ok { OnOk result (Appends (W.contents writer.old) (W.contents writer.new) text.now) }
    ensures prefix { OnErr result ((count : ℕ) × Appends (W.contents writer.old) (W.contents writer.new) (take count text.now)) }
    ensures fault { IfErr result (λ e. e ≡ ToolFault.Write) }
{
    write_report(text, writer)?;
    Ok(())
}
