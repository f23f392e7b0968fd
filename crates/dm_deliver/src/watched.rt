//! A writer that is watched.
ghost use Rattle.std.specs.Prelude.{◌≡◌, ◌<◌, ◌≤◌, ◌∷◌, [], length, take, IfOk, OnOk, IfErr, OnErr};
ghost use Rattle.std.specs.Io.KnownBytes.{Appends, Keeps};
ghost use Rattle.dm_deliver.specs.Calls.{wrote, flushed, failed};
ghost use Rattle.dm_deliver.specs.declared.fault.AnswerError.TheVariants.{Write as Unwritten};

use crate::call_log::CallLog;
use crate::fault::AnswerError;
use std::io::Write;

const WROTE: u64 = 0;

const FLUSHED: u64 = 1;

const FAILED: u64 = 2;

/// A writer, and what came of each call of it, which contracts alone see.
#[derive(Drop)]
pub struct Watched<W> {
    pub writer: W,
    calls: CallLog,
}

impl<W: Write> Watched<W> {
    /// A writer of which no call was made.
    pub fn new(writer: W) -> Watched<W>
        ensures same { result.writer ≡ writer }
        ensures none { result.calls.list ≡ [] }
    {
        Watched {
            writer,
            calls: CallLog::new(),
        }
    }

    // Gives it some bytes, and returns how many it took, at least one. No call of the writer is retried.
    pub(crate) fn write(&mut self, bytes: &[u8]) -> Result<usize, AnswerError>
        ensures bound { IfOk result (λ count. (0 < count) × (count ≤ length bytes.now)) }
        ensures bytes { IfOk result (λ count. Appends (W.contents self.old.writer) (W.contents self.new.writer) (take count bytes.now)) }
        ensures noted { IfOk result (λ count. self.new.calls.list ≡ wrote (take count bytes.now) ∷ self.old.calls.list) }
        ensures kept { OnErr result (Keeps (W.contents self.old.writer) (W.contents self.new.writer)) }
        ensures failed { OnErr result (self.new.calls.list ≡ failed ∷ self.old.calls.list) }
        ensures fault { IfErr result (λ e. e ≡ Unwritten) }
    {
        match self.writer.write(bytes) {
            Ok(count) if count > 0 => {
                self.calls.note(&[WROTE], &bytes[..count]);
                Ok(count)
            }
            _ => {
                self.calls.note(&[FAILED], &[]);
                Err(AnswerError::Write)
            }
        }
    }

    // Waits until all of it is written.
    pub(crate) fn flush(&mut self) -> Result<(), AnswerError>
        ensures kept { Keeps (W.contents self.old.writer) (W.contents self.new.writer) }
        ensures noted { OnOk result (self.new.calls.list ≡ flushed ∷ self.old.calls.list) }
        ensures failed { OnErr result (self.new.calls.list ≡ failed ∷ self.old.calls.list) }
        ensures fault { IfErr result (λ e. e ≡ Unwritten) }
    {
        match self.writer.flush() {
            Ok(()) => {
                self.calls.note(&[FLUSHED], &[]);
                Ok(())
            }
            Err(_) => {
                self.calls.note(&[FAILED], &[]);
                Err(AnswerError::Write)
            }
        }
    }
}
