//! A journal on a device: opened, appended to, made, and put in another's place.
ghost use Rattle.std.specs.Prelude.{◌≡◌, ◌≢◌, ◌+◌, ◌<◌, ◌≤◌, ◌^◌, ◌++◌, [], ◌∷◌, ◌⊎◌, List, ℕ, length, drop, map, Any, IfOk, IfErr, OnOk, IsErrOf};
ghost use Rattle.dm_journal.specs.declared.device.DeviceError.TheVariants.{Failed};
ghost use Rattle.dm_journal.specs.declared.fault.OpenError.TheVariants.{Device as OpeningDevice, File as OpeningFile};
ghost use Rattle.dm_journal.specs.declared.fault.WriteError.TheVariants.{Device as WritingDevice, TooLong, Full};
ghost use Rattle.dm_journal.specs.declared.fault.Fault.{Fault as FileFault};
ghost use Rattle.dm_journal.specs.declared.format.Format.{Format as FileFormat};
ghost use Rattle.dm_journal.specs.Device.{IsDurable, LeavesOnly, IsSameBefore};
ghost use Rattle.dm_journal.specs.Faults.{HasFault};
ghost use Rattle.dm_journal.specs.Format.{renewed};
ghost use Rattle.dm_journal.specs.Hidden.{TellsHidden};
ghost use Rattle.dm_journal.specs.Journal.{StandsIn, IsZeros, link_bytes};
ghost use Rattle.dm_journal.specs.Reading.{EndsSo, IsWholeFile};
ghost use Rattle.dm_journal.specs.Ready.{HasTexts, IsTooLong, IsBeside, IsFailure, StandsWithOrWithout, StandsForEither, IsUntouched};

use crate::device::Device;
use crate::fault::{OpenError, WriteError};
use crate::format::{Format, Link};
use crate::reading::{FRONT, read_blocks};
use crate::texts::Texts;
use crate::writing::{MOST_BYTES, OPEN, replace_file, stage, whole, whole_of, write_synced};
use std::alloc::Global;

// The last place of a latch behind which a text is appended.
const LAST_LATCH: usize = 1 << 62;

/// What a journal knows of the end of its file.
#[derive(Clone, Copy)]
pub struct End {
    format: Format,
    // What the next block follows on.
    link: Link,
    // The place of the closed latch behind the last block.
    latch: usize,
    // The bytes of the file.
    size: usize,
}

/// A journal of texts on one file. After an error of the device, open the file again.
#[derive(Drop)]
pub struct Journal<D: Device> {
    pub device: D,
    end: End,
    hidden: Option<usize>,
}

impl<D: Device> Journal<D> {
    /// Opens a file that a crash may have left, and reads its texts. It writes nothing. At an error the device comes back.
    pub fn open(alloc: Global, mut device: D) -> Result<(Journal<D>, Texts), (OpenError, D)>
        // After a restart, what is read is what is on the disk.
        requires { IsDurable D.seen D.may_leave D.file_may_leave device }
        ensures texts { IfOk result (λ r. StandsIn r.0.end.format (D.seen device) r.1) }
        ensures ready { IfOk result (λ r. HasTexts D.seen D.may_leave D.file_may_leave r.0 r.1) }
        ensures untouched { IfOk result (λ r. IsUntouched D.seen D.may_leave D.file_may_leave D.moment D.left_since device r.0.device) }
        ensures untouched_err { IfErr result (λ e. IsUntouched D.seen D.may_leave D.file_may_leave D.moment D.left_since device e.1) }
        ensures fault { IfErr result (λ e. (fault : FileFault) → e.0 ≡ OpeningFile fault → HasFault (D.seen device) fault) }
        ensures failed { IfErr result (λ e. e.0 ≡ OpeningDevice Failed → D.faults device < D.faults e.1) }
        ensures hidden { IfOk result (λ r. TellsHidden (D.seen device) r.0.hidden) }
    {
        match read_journal(alloc, &mut device) {
            Ok((end, hidden, texts)) => {
                let journal = Journal {
                    device,
                    end,
                    hidden,
                };
                Ok((journal, texts))
            }
            Err(error) => Err((error, device)),
        }
    }

    /// The place of the closed latch, if it hid blocks when the file was opened. No crash leaves such a file: somebody has closed a
    /// latch in front of what was acknowledged.
    pub fn hidden(&self) -> Option<usize>
        ensures { result ≡ self.now.hidden }
    {
        self.hidden
    }

    /// The format of the file.
    pub fn format(&self) -> Format
        ensures { result ≡ self.now.end.format }
    {
        self.end.format
    }

    /// Appends a text. At `Ok` it is acknowledged: from then on each crash leaves a file that has it.
    pub fn append(&mut self, alloc: Global, text: &[u8]) -> Result<(), WriteError>
        requires { (texts : List (List ℕ)) × HasTexts D.seen D.may_leave D.file_may_leave self.old texts }

        ensures acknowledged { (texts : List (List ℕ)) → HasTexts D.seen D.may_leave D.file_may_leave self.old texts
            → OnOk result (HasTexts D.seen D.may_leave D.file_may_leave self.new (texts ++ text.now ∷ [])) }

        // A crash at any moment of the call leaves the texts from before it, with the new one or without.
        ensures any_moment { (texts : List (List ℕ)) → HasTexts D.seen D.may_leave D.file_may_leave self.old texts
            → LeavesOnly D.moment D.left_since self.old.device self.new.device (StandsWithOrWithout self.old.end.format texts text.now) }

        // Nor does it change a byte in front of the latch, which begins a unit: no write touches a unit with a block in it.
        ensures front { (texts : List (List ℕ)) → HasTexts D.seen D.may_leave D.file_may_leave self.old texts
            → LeavesOnly D.moment D.left_since self.old.device self.new.device (IsSameBefore self.old.end.latch (D.seen self.old.device)) }

        // Nothing of what a failed call has left behind the latch is there any more.
        ensures cleared { (texts : List (List ℕ)) → HasTexts D.seen D.may_leave D.file_may_leave self.old texts
            → OnOk result (IsZeros (drop self.new.end.latch (D.seen self.new.device))) }
        ensures format { self.new.end.format ≡ self.old.end.format }

        // It doesn't give up by itself.
        ensures failed { IsErrOf result (WritingDevice Failed) → D.faults self.old.device < D.faults self.new.device }
        ensures too_long { IsErrOf result TooLong → IsTooLong text.now }
        ensures fits { OnOk result (¬ IsTooLong text.now) }
        ensures full { IsErrOf result Full → 2 ^ 62 < length (D.seen self.old.device) }

        ensures unchanged { IsErrOf result TooLong → self.new ≡ self.old }
        ensures unchanged_full { IsErrOf result Full → self.new ≡ self.old }
    {
        if text.len() > MOST_BYTES {
            return Err(WriteError::TooLong);
        }
        let End {
            format,
            link,
            latch,
            size,
        } = self.end;
        if latch > LAST_LATCH {
            return Err(WriteError::Full);
        }
        let checksum = format.checksum(link, text);
        let behind = latch + format.unit();
        // What a write that failed has left behind the latch is no more.
        let room = size.saturating_sub(behind);
        let staged = stage(alloc, format, &checksum, text, room)?;
        // The block stands on the disk before its latch is opened.
        write_synced(&mut self.device, behind, &staged)?;
        write_synced(&mut self.device, latch, &[OPEN])?;
        self.end = End {
            format,
            link: format.next_link(checksum),
            latch: behind + format.filled(FRONT + text.len()),
            size: behind + staged.len(),
        };
        Ok(())
    }

    /// Puts a journal of these texts, in this format, in the place of the file, whatever is there, or nothing. At an error the
    /// device comes back.
    pub fn create(
        alloc: Global,
        mut device: D,
        format: Format,
        texts: &[&[u8]],
    ) -> Result<Journal<D>, (WriteError, D)>
        requires { IsDurable D.seen D.may_leave D.file_may_leave device }
        ensures ok { IfOk result (λ journal. HasTexts D.seen D.may_leave D.file_may_leave journal (map (λ text. text.now) texts.now)) }
        ensures format { IfOk result (λ journal. journal.end.format ≡ format) }

        // A crash at any moment of the call leaves the file from before it, or a journal of the texts.
        ensures any_moment { IfOk result (λ journal. LeavesOnly D.moment D.left_since device journal.device
            (λ c. (c ≡ D.seen device) ⊎ StandsIn format c (map (λ text. text.now) texts.now))) }
        ensures any_moment_err { IfErr result (λ e. LeavesOnly D.moment D.left_since device e.1
            (λ c. (c ≡ D.seen device) ⊎ StandsIn format c (map (λ text. text.now) texts.now))) }
        ensures failed { IfErr result (λ e. IsFailure e.0 → D.faults device < D.faults e.1) }
        ensures too_long { IfErr result (λ e. e.0 ≡ TooLong → Any IsTooLong (map (λ text. text.now) texts.now)) }
        ensures not_full { IfErr result (λ e. e.0 ≡ Full → ⊥) }
    {
        match put_journal(alloc, &mut device, format, texts) {
            Ok(end) => Ok(Journal {
                device,
                end,
                hidden: None,
            }),
            Err(error) => Err((error, device)),
        }
    }

    /// As [`Journal::create`] with one text, which becomes the file in its own memory: a long one isn't there twice.
    pub fn create_of(
        alloc: Global,
        mut device: D,
        format: Format,
        text: Vec<u8>,
    ) -> Result<Journal<D>, (WriteError, D)>
        requires { IsDurable D.seen D.may_leave D.file_may_leave device }
        ensures ok { IfOk result (λ journal. HasTexts D.seen D.may_leave D.file_may_leave journal (text.items ∷ [])) }
        ensures format { IfOk result (λ journal. journal.end.format ≡ format) }

        // A crash at any moment of the call leaves the file from before it, or a journal of the text.
        ensures any_moment { IfOk result (λ journal. LeavesOnly D.moment D.left_since device journal.device
            (λ c. (c ≡ D.seen device) ⊎ StandsIn format c (text.items ∷ []))) }
        ensures any_moment_err { IfErr result (λ e. LeavesOnly D.moment D.left_since device e.1
            (λ c. (c ≡ D.seen device) ⊎ StandsIn format c (text.items ∷ []))) }
        ensures failed { IfErr result (λ e. IsFailure e.0 → D.faults device < D.faults e.1) }
        ensures too_long { IfErr result (λ e. e.0 ≡ TooLong → IsTooLong text.items) }
        ensures not_full { IfErr result (λ e. e.0 ≡ Full → ⊥) }
    {
        match put_text(alloc, &mut device, format, text) {
            Ok(end) => Ok(Journal {
                device,
                end,
                hidden: None,
            }),
            Err(error) => Err((error, device)),
        }
    }

    /// Puts these texts in the place of those that the journal has. At `Ok` they are acknowledged: from then on each crash
    /// leaves a file that has just these. At [`WriteError::Beside`] the journal can go on as it was. The new file has a header of
    /// named fields.
    pub fn replace(&mut self, alloc: Global, texts: &[&[u8]]) -> Result<(), WriteError>
        requires { IsDurable D.seen D.may_leave D.file_may_leave self.old.device }
        ensures acknowledged { OnOk result (HasTexts D.seen D.may_leave D.file_may_leave self.new (map (λ text. text.now) texts.now)) }
        ensures format { OnOk result (self.new.end.format ≡ renewed self.old.end.format) }
        ensures format_err { IfErr result (λ _. self.new.end.format ≡ self.old.end.format) }

        // A crash at any moment of the call leaves the old texts or the new ones.
        ensures any_moment { (format : FileFormat) (old : List (List ℕ)) → StandsIn format (D.seen self.old.device) old
            → LeavesOnly D.moment D.left_since self.old.device self.new.device
            (StandsForEither format old (renewed self.old.end.format) (map (λ text. text.now) texts.now)) }
        ensures untouched { IfErr result (λ e. IsBeside e → (old : List (List ℕ)) → HasTexts D.seen D.may_leave D.file_may_leave self.old old
            → HasTexts D.seen D.may_leave D.file_may_leave self.new old) }
        ensures failed { IfErr result (λ e. IsFailure e → D.faults self.old.device < D.faults self.new.device) }
        ensures too_long { IsErrOf result TooLong → Any IsTooLong (map (λ text. text.now) texts.now) }
        ensures not_full { IsErrOf result Full → ⊥ }
    {
        let format = self.end.format.renewed();
        self.end = put_journal(alloc, &mut self.device, format, texts)?;
        self.hidden = None;
        Ok(())
    }

    /// As [`Journal::replace`] by one text, which becomes the file in its own memory: a long one isn't there twice.
    pub fn replace_by(&mut self, alloc: Global, text: Vec<u8>) -> Result<(), WriteError>
        requires { IsDurable D.seen D.may_leave D.file_may_leave self.old.device }
        ensures acknowledged { OnOk result (HasTexts D.seen D.may_leave D.file_may_leave self.new (text.items ∷ [])) }
        ensures format { OnOk result (self.new.end.format ≡ renewed self.old.end.format) }
        ensures format_err { IfErr result (λ _. self.new.end.format ≡ self.old.end.format) }

        // A crash at any moment of the call leaves the old texts or the new one.
        ensures any_moment { (format : FileFormat) (old : List (List ℕ)) → StandsIn format (D.seen self.old.device) old
            → LeavesOnly D.moment D.left_since self.old.device self.new.device
            (StandsForEither format old (renewed self.old.end.format) (text.items ∷ [])) }
        ensures untouched { IfErr result (λ e. IsBeside e → (old : List (List ℕ)) → HasTexts D.seen D.may_leave D.file_may_leave self.old old
            → HasTexts D.seen D.may_leave D.file_may_leave self.new old) }
        ensures failed { IfErr result (λ e. IsFailure e → D.faults self.old.device < D.faults self.new.device) }
        ensures too_long { IsErrOf result TooLong → IsTooLong text.items }
        ensures not_full { IsErrOf result Full → ⊥ }
    {
        let format = self.end.format.renewed();
        self.end = put_text(alloc, &mut self.device, format, text)?;
        self.hidden = None;
        Ok(())
    }
}

// Puts a journal of these texts in the place of the file.
fn put_journal<D: Device>(
    alloc: Global,
    device: &mut D,
    format: Format,
    texts: &[&[u8]],
) -> Result<End, WriteError>
    requires { IsDurable D.seen D.may_leave D.file_may_leave device.old }
    ensures texts { IfOk result (λ end. EndsSo (D.seen device.new) (map (λ text. text.now) texts.now) end) }
    ensures format { IfOk result (λ end. end.format ≡ format) }
    ensures durable { OnOk result (IsDurable D.seen D.may_leave D.file_may_leave device.new) }
    ensures any_moment { LeavesOnly D.moment D.left_since device.old device.new
        (λ c. (c ≡ D.seen device.old) ⊎ StandsIn format c (map (λ text. text.now) texts.now)) }
    ensures untouched { IfErr result (λ e. IsBeside e → IsUntouched D.seen D.may_leave D.file_may_leave D.moment D.left_since device.old device.new) }
    ensures failed { IfErr result (λ e. IsFailure e → D.faults device.old < D.faults device.new) }
    ensures too_long { IsErrOf result TooLong → Any IsTooLong (map (λ text. text.now) texts.now) }
    ensures not_full { IsErrOf result Full → ⊥ }
{
    let (bytes, link) = whole(alloc, format, texts)?;
    put_file(device, format, &bytes, link)
}

// Puts a journal of this one text in the place of the file.
fn put_text<D: Device>(
    alloc: Global,
    device: &mut D,
    format: Format,
    text: Vec<u8>,
) -> Result<End, WriteError>
    requires { IsDurable D.seen D.may_leave D.file_may_leave device.old }
    ensures texts { IfOk result (λ end. EndsSo (D.seen device.new) (text.items ∷ []) end) }
    ensures format { IfOk result (λ end. end.format ≡ format) }
    ensures durable { OnOk result (IsDurable D.seen D.may_leave D.file_may_leave device.new) }
    ensures any_moment { LeavesOnly D.moment D.left_since device.old device.new
        (λ c. (c ≡ D.seen device.old) ⊎ StandsIn format c (text.items ∷ [])) }
    ensures untouched { IfErr result (λ e. IsBeside e → IsUntouched D.seen D.may_leave D.file_may_leave D.moment D.left_since device.old device.new) }
    ensures failed { IfErr result (λ e. IsFailure e → D.faults device.old < D.faults device.new) }
    ensures too_long { IsErrOf result TooLong → IsTooLong text.items }
    ensures not_full { IsErrOf result Full → ⊥ }
{
    let (bytes, link) = whole_of(alloc, format, text)?;
    put_file(device, format, &bytes, link)
}

// Puts a file of these bytes, which are a whole journal, in the place of the file.
fn put_file<D: Device>(
    device: &mut D,
    format: Format,
    bytes: &[u8],
    link: Link,
) -> Result<End, WriteError>
    requires durable { IsDurable D.seen D.may_leave D.file_may_leave device.old }
    requires whole { (texts : List (List ℕ)) × IsWholeFile format bytes.now texts (link_bytes link) }
    ensures texts { IfOk result (λ end. (texts : List (List ℕ)) → IsWholeFile format bytes.now texts (link_bytes link) → EndsSo (D.seen device.new) texts end) }
    ensures format { IfOk result (λ end. end.format ≡ format) }
    ensures durable { OnOk result (IsDurable D.seen D.may_leave D.file_may_leave device.new) }
    ensures any_moment { LeavesOnly D.moment D.left_since device.old device.new (λ c. (c ≡ D.seen device.old) ⊎ (c ≡ bytes.now)) }
    ensures untouched { IfErr result (λ e. IsBeside e → IsUntouched D.seen D.may_leave D.file_may_leave D.moment D.left_since device.old device.new) }
    ensures failed { IfErr result (λ e. IsFailure e → D.faults device.old < D.faults device.new) }
    ensures kind { IfErr result (λ e. (e ≢ TooLong) × (e ≢ Full)) }
{
    replace_file(device, bytes)?;
    Ok(End {
        format,
        link,
        latch: bytes.len() - format.unit(),
        size: bytes.len(),
    })
}

// How the file ends, the place of a latch that hides blocks, and the texts.
fn read_journal<D: Device>(
    alloc: Global,
    device: &mut D,
) -> Result<(End, Option<usize>, Texts), OpenError>
    requires { IsDurable D.seen D.may_leave D.file_may_leave device.old }
    ensures texts { IfOk result (λ r. EndsSo (D.seen device.old) r.2 r.0) }
    ensures hidden { IfOk result (λ r. TellsHidden (D.seen device.old) r.1) }
    ensures fault { IfErr result (λ e. (fault : FileFault) → e ≡ OpeningFile fault → HasFault (D.seen device.old) fault) }
    ensures untouched { IsUntouched D.seen D.may_leave D.file_may_leave D.moment D.left_since device.old device.new }
    ensures failed { IsErrOf result (OpeningDevice Failed) → D.faults device.old < D.faults device.new }
{
    let bytes = device.read(alloc)?;
    match read_blocks(alloc, &bytes) {
        Ok(reading) => {
            let end = End {
                format: reading.format,
                link: reading.link,
                latch: reading.latch,
                size: bytes.len(),
            };
            Ok((end, reading.hidden, Texts::new(bytes, reading.ranges)))
        }
        Err(error) => Err(error),
    }
}
