//! Writing a line.
ghost use Rattle.std.specs.Prelude.{◌≡◌, ℕ, take, IfErr, OnOk, OnErr};
ghost use Rattle.std.specs.Io.KnownBytes.{Appends};
ghost use Rattle.dm_deliver.specs.Calls.{Flushes, Fails};
ghost use Rattle.dm_deliver.specs.declared.fault.AnswerError.TheVariants.{Write as Unwritten};

use crate::fault::AnswerError;
use crate::watched::Watched;
use std::io::Write;

// Writes all of a line, and waits until it is written. At an error, an interruption too, a part of it was.
pub fn write_line<W: Write>(line: &[u8], writer: &mut Watched<W>) -> Result<(), AnswerError>
    ensures ok { OnOk result (Appends (W.contents writer.old.writer) (W.contents writer.new.writer) line.now) }
    ensures flushes { OnOk result (Flushes writer.old.calls.list writer.new.calls.list line.now) }
    ensures part { OnErr result ((count : ℕ) × Appends (W.contents writer.old.writer) (W.contents writer.new.writer) (take count line.now)
        × Fails writer.old.calls.list writer.new.calls.list (take count line.now)) }
    ensures fault { IfErr result (λ e. e ≡ Unwritten) }
{
    let mut written = 0;
    while written < line.len() {
        written += writer.write(&line[written..])?;
    }
    writer.flush()
}
