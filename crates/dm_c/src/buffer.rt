//! A text for a caller who has room for some bytes.
ghost use Rattle.std.specs.Prelude.{MatchResult};
ghost use Rattle.dm_c.specs.Buffers.{Gives, GivesNothing};
ghost use Rattle.dm_c.specs.Numbers.{status_number};

use crate::status::Status;

/// Gives a text: where it fits, the status is `done`.
pub(crate) fn give(text: &[u8], done: Status, out: &mut [u8], needed: &mut usize) -> Status
    ensures { Gives done text.now out.old out.new needed.new (status_number result) }
{
    *needed = text.len();
    if text.len() > out.len() {
        return Status::Short;
    }
    out[..text.len()].copy_from_slice(text);
    done
}

/// Gives a text, if there is one, and returns the number of the status.
pub(crate) fn give_text(text: Result<Vec<u8>, Status>, out: &mut [u8], needed: &mut usize) -> u32
    ensures { MatchResult text
        (λ text. Gives Status.Done text.items out.old out.new needed.new result)
        (λ why. GivesNothing why out.old out.new needed.old needed.new result) }
{
    match text {
        Ok(text) => give(&text, Status::Done, out, needed).number(),
        Err(why) => why.number(),
    }
}
