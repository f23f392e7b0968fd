//! Texts in a stream, each after a line with its length in bytes.
ghost use Rattle.std.specs.Prelude.{◌≡◌, ◌<◌, ◌≤◌, ◌-◌, ◌^◌, ◌∷◌, [], IfOk, IfErr, IfSome, IfNone, OnOk, OnErr, option_to_list};
ghost use Rattle.std.specs.Io.KnownBytes.{Consumes, Keeps, IsAtEnd};
ghost use Rattle.dm_deliver.specs.declared.place.Place.TheVariants.{Text};
ghost use Rattle.dm_deliver.specs.declared.frame_fault.FrameFaultKind.TheVariants.{TooMany};
ghost use Rattle.dm_deliver.specs.Framing.{frame, left_in, GaveFrames, IsFaultOf};
ghost use Rattle.dm_deliver.specs.FrameReading.{Grew, IsOutside, none_given, more_given};

use crate::frame_fault::{FrameFault, FrameFaultKind};
use crate::place::{Place, after};
use crate::source::Source;
use std::alloc::Global;
use std::io::Read;
use std::mem;

/// The texts of a stream: each stands in a *frame*, after a line with its length in bytes, in decimal.
///
/// Nothing that was read is lost at an error: what there was of a frame is kept, and the next call goes on from there.
#[derive(Drop)]
pub struct Framed<R> {
    alloc: Global,
    reader: R,
    place: Place,
    // The first bytes of the text, once the place is in it.
    text: Vec<u8>,
    given: u64,
}

// The next byte of a reader. `None` at its end.
fn read_byte<R: Read>(reader: &mut R) -> Result<Option<u8>, FrameFaultKind>
    ensures byte { IfOk result (λ found. Consumes (R.remaining reader.old) (R.remaining reader.new) (option_to_list found)) }
    ensures end { IfOk result (λ found. IfNone found (IsAtEnd (R.remaining reader.new))) }
    ensures err { OnErr result (Keeps (R.remaining reader.old) (R.remaining reader.new)) }
    ensures fault { IfErr result IsOutside }
{
    let mut one = [0; 1];
    match reader.read(&mut one) {
        Ok(0) => Ok(None),
        Ok(_) => Ok(Some(one[0])),
        Err(_) => Err(FrameFaultKind::Read),
    }
}

// Reads some bytes to the end of a text, at most so many, and returns how many. 0 only at the end of the reader.
fn read_part<R: Read>(
    reader: &mut R,
    text: &mut Vec<u8>,
    most: usize,
) -> Result<usize, FrameFaultKind>
    ensures grew { IfOk result (λ count. Grew (R.remaining reader.old) (R.remaining reader.new) text.old.items text.new.items count) }
    ensures few { IfOk result (λ count. count ≤ most) }
    ensures end { IfOk result (λ count. count ≡ 0 → 0 < most → IsAtEnd (R.remaining reader.new)) }
    ensures err { OnErr result (Keeps (R.remaining reader.old) (R.remaining reader.new)) }
    ensures fault { IfErr result IsOutside }
    ensures same { OnErr result (text.new.items ≡ text.old.items) }
{
    let mut chunk = [0; 65536];
    let room = most.min(65536);
    // Before the read, so that what was read isn't lost where memory runs out.
    text.reserve(room)?;
    let Ok(count) = reader.read(&mut chunk[..room]) else {
        return Err(FrameFaultKind::Read);
    };
    text.extend_from_slice(&chunk[..count])?;
    Ok(count)
}

impl<R: Read> Framed<R> {
    /// The texts of what this reader gives.
    pub fn new(alloc: Global, reader: R) -> Framed<R>
        ensures left { left_in R.remaining result ≡ R.remaining reader }
        ensures given { result.given ≡ 0 }
    {
        Framed {
            alloc,
            reader,
            place: Place::Line(None, None),
            text: Vec::new(alloc),
            given: 0,
        }
    }

    // Reads the line of a frame, unless it was read. Returns how many bytes of its text are left, or `None` at the end of the stream.
    fn read_line(&mut self) -> Result<Option<usize>, FrameFaultKind>
        ensures kept { Keeps (left_in R.remaining self.old) (left_in R.remaining self.new) }
        ensures given { self.new.given ≡ self.old.given }
        ensures some { IfOk result (λ found. IfSome found (λ left. self.new.place ≡ Text left)) }
        ensures none { IfOk result (λ found. IfNone found (IsAtEnd (left_in R.remaining self.new))) }
        ensures fault { IfErr result (λ kind. IsFaultOf kind (left_in R.remaining self.new) (R.remaining self.new.reader)) }
        ensures counted { IfErr result (λ kind. kind ≡ TooMany → ⊥) }
    {
        loop {
            let (number, next) = match self.place {
                Place::Line(number, next) => (number, next),
                Place::Text(left) => return Ok(Some(left)),
            };
            let byte = match next {
                Some(byte) => byte,
                None => match read_byte(&mut self.reader)? {
                    Some(byte) => byte,
                    None if number.is_none() => return Ok(None),
                    None => return Err(FrameFaultKind::Cut),
                },
            };
            self.place = Place::Line(number, Some(byte));
            let Some(place) = after(number, byte) else {
                return Err(FrameFaultKind::BadLength);
            };
            self.text.clear();
            self.place = place;
        }
    }

    // Reads the bytes of a text of which so many are left.
    fn read_rest(&mut self, left: usize) -> Result<(), FrameFaultKind>
        requires { self.old.place ≡ Text left }
        ensures kept { Keeps (left_in R.remaining self.old) (left_in R.remaining self.new) }
        ensures given { self.new.given ≡ self.old.given }
        ensures whole { OnOk result (self.new.place ≡ Text 0) }
        ensures fault { IfErr result (λ kind. IsFaultOf kind (left_in R.remaining self.new) (R.remaining self.new.reader)) }
        ensures counted { IfErr result (λ kind. kind ≡ TooMany → ⊥) }
    {
        let mut left = left;
        while left > 0 {
            let count = read_part(&mut self.reader, &mut self.text, left)?;
            left -= count;
            self.place = Place::Text(left);
            if count == 0 {
                return Err(FrameFaultKind::Cut);
            }
        }
        Ok(())
    }

    // Takes a text that is read whole.
    fn take_text(&mut self) -> Vec<u8>
        requires whole { self.old.place ≡ Text 0 }
        ensures text { result.items ≡ self.old.text.items }
        ensures left { Consumes (left_in R.remaining self.old) (left_in R.remaining self.new) (frame result.items) }
        ensures given { self.new.given ≡ self.old.given }
    {
        self.place = Place::Line(None, None);
        mem::replace(&mut self.text, Vec::new(self.alloc))
    }

    // The next text, or `None` at the end of the stream.
    fn read_frame(&mut self) -> Result<Option<Vec<u8>>, FrameFaultKind>
        ensures some { IfOk result (λ found. IfSome found (λ text. GaveFrames R.remaining self.old (text.items ∷ []) self.new)) }
        ensures none { IfOk result (λ found. IfNone found (GaveFrames R.remaining self.old [] self.new)) }
        ensures done { IfOk result (λ found. IfNone found (IsAtEnd (left_in R.remaining self.new))) }
        ensures counted { IfOk result (λ found. IfSome found (λ _. self.old.given < 2 ^ 64 - 1)) }
        ensures err { OnErr result (GaveFrames R.remaining self.old [] self.new) }
        ensures fault { IfErr result (λ kind. IsFaultOf kind (left_in R.remaining self.new) (R.remaining self.new.reader)) }
        ensures too_many { IfErr result (λ kind. kind ≡ TooMany → self.new.given ≡ 2 ^ 64 - 1) }
    {
        if self.given == u64::MAX {
            return Err(FrameFaultKind::TooMany);
        }
        let Some(left) = self.read_line()? else {
            return Ok(None);
        };
        self.read_rest(left)?;
        self.given += 1;
        Ok(Some(self.take_text()))
    }
}

impl<R: Read> Source for Framed<R> {
    type Error = FrameFault;

    ghost gave = { λ old texts new. GaveFrames R.remaining old texts new };

    ghost is_done = { λ stream. IsAtEnd (left_in R.remaining stream) };

    // A reader that doesn't tell its bytes has no bound, so texts are counted.
    ghost most = { λ stream. 2 ^ 64 - 1 - stream.given };

    ghost gave_none = { λ stream. none_given R.remaining stream };

    ghost gave_more = { λ a b c xs ys first second. more_given R.remaining a b c xs ys first second };

    fn next_text(&mut self) -> Result<Option<Vec<u8>>, FrameFault>
        ensures some { IfOk result (λ found. IfSome found (λ text. GaveFrames R.remaining self.old (text.items ∷ []) self.new)) }
        ensures none { IfOk result (λ found. IfNone found (GaveFrames R.remaining self.old [] self.new)) }
        ensures done { IfOk result (λ found. IfNone found (IsAtEnd (left_in R.remaining self.new))) }
        ensures fewer { IfOk result (λ found. IfSome found (λ _. 2 ^ 64 - 1 - self.new.given < 2 ^ 64 - 1 - self.old.given)) }
        ensures err { OnErr result (GaveFrames R.remaining self.old [] self.new) }

        // Where the fault is of the bytes, no frame begins what is left.
        ensures fault { IfErr result (λ e. IsFaultOf e.kind (left_in R.remaining self.new) (R.remaining self.new.reader)) }
        ensures frame { IfErr result (λ e. e.frame ≡ self.new.given) }
        ensures too_many { IfErr result (λ e. e.kind ≡ TooMany → self.new.given ≡ 2 ^ 64 - 1) }
    {
        match self.read_frame() {
            Ok(found) => Ok(found),
            Err(kind) => {
                let frame = self.given;
                Err(FrameFault { kind, frame })
            }
        }
    }
}
