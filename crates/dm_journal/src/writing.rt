//! What is written, and how it comes on the disk.
ghost use Rattle.std.specs.Prelude.{◌≡◌, ◌≢◌, ◌⊎◌, ◌<◌, ◌≤◌, ◌^◌, ◌++◌, [], ◌∷◌, List, ℕ, length, map, Any, IfOk, IfErr, OnOk, IsErrOf};
ghost use Rattle.dm_journal.specs.declared.device.DeviceError.TheVariants.{Failed, Memory};
ghost use Rattle.dm_journal.specs.declared.fault.WriteError.TheVariants.{Device as WritingDevice, Beside, TooLong, Full};
ghost use Rattle.dm_journal.specs.Ready.{IsTooLong, IsUntouched, IsBeside, IsFailure};
ghost use Rattle.dm_journal.specs.Device.{IsDurable, IsWrittenAt, Torn, LeavesOnly, Only};
ghost use Rattle.dm_journal.specs.Format.{filling};
ghost use Rattle.dm_journal.specs.Journal.{block, checksum_of, next_link, link_bytes, IsLatch};
ghost use Rattle.dm_journal.specs.Reading.{staged, IsWholeFile, IsPushed, IsFront};
ghost use Rattle.std.proofs.Math.ListN.{replicate};

use crate::device::{Device, DeviceError};
use crate::fault::WriteError;
use crate::format::{Format, Link};
use crate::reading::FRONT;
use std::alloc::Global;

/// The most bytes of a text that is written.
pub const MOST_BYTES: usize = 1 << 40;

// An open latch. Any byte but 0 is one, so no single bit that turns closes it.
pub const OPEN: u8 = 255;

// The block of a text, and zeros: they fill it up, are a closed latch, and reach as far as `room` bytes.
pub fn stage(
    alloc: Global,
    format: Format,
    checksum: &[u8; 32],
    text: &[u8],
    room: usize,
) -> Result<Vec<u8>, DeviceError>
    requires { length text.now ≤ 2 ^ 40 }
    ensures bytes { IfOk result (λ bytes. bytes.items ≡ staged format checksum.now text.now room) }
    ensures err { IfErr result (λ e. e ≡ Memory) }
{
    let needed = format.filled(FRONT + text.len()) + format.unit();
    let size = needed.max(room);
    let mut bytes = Vec::with_capacity(alloc, size)?;
    push_block(&mut bytes, checksum, text)?;
    bytes.resize(size, 0)?;
    Ok(bytes)
}

// A whole journal of these texts, and what the next block follows on.
pub fn whole(alloc: Global, format: Format, texts: &[&[u8]]) -> Result<(Vec<u8>, Link), WriteError>
    ensures texts { IfOk result (λ r. IsWholeFile format r.0.items (map (λ text. text.now) texts.now) (link_bytes r.1)) }
    ensures err { IfErr result (λ e. (e ≡ Beside Memory) ⊎ (e ≡ TooLong)) }
    ensures too_long { IsErrOf result TooLong → Any IsTooLong (map (λ text. text.now) texts.now) }
{
    match write_whole(alloc, format, texts) {
        Ok(made) => Ok(made),
        Err(WriteError::Device(error)) => Err(WriteError::Beside(error)),
        Err(error) => Err(error),
    }
}

fn write_whole(
    alloc: Global,
    format: Format,
    texts: &[&[u8]],
) -> Result<(Vec<u8>, Link), WriteError>
    ensures texts { IfOk result (λ r. IsWholeFile format r.0.items (map (λ text. text.now) texts.now) (link_bytes r.1)) }
    ensures err { IfErr result (λ e. (e ≡ WritingDevice Memory) ⊎ (e ≡ TooLong)) }
    ensures too_long { IsErrOf result TooLong → Any IsTooLong (map (λ text. text.now) texts.now) }
{
    let line = format.line();
    let mut bytes = line.to_vec(alloc)?;
    fill_up(&mut bytes, format, line.len())?;
    let mut link = None;
    for text in texts {
        if text.len() > MOST_BYTES {
            return Err(WriteError::TooLong);
        }
        link = push_text(&mut bytes, format, link, text)?;
    }
    push_latch(&mut bytes, format, 0)?;
    Ok((bytes, link))
}

// A whole journal of this one text, in the text's own memory, and what the next block follows on.
pub fn whole_of(alloc: Global, format: Format, text: Vec<u8>) -> Result<(Vec<u8>, Link), WriteError>
    ensures text { IfOk result (λ r. IsWholeFile format r.0.items (text.items ∷ []) (link_bytes r.1)) }
    ensures err { IfErr result (λ e. (e ≡ Beside Memory) ⊎ (e ≡ TooLong)) }
    ensures too_long { IsErrOf result TooLong → IsTooLong text.items }
{
    if text.len() > MOST_BYTES {
        return Err(WriteError::TooLong);
    }
    match wrap(alloc, format, text) {
        Ok(made) => Ok(made),
        Err(error) => Err(WriteError::Beside(error)),
    }
}

fn wrap(alloc: Global, format: Format, text: Vec<u8>) -> Result<(Vec<u8>, Link), DeviceError>
    requires { length text.items ≤ 2 ^ 40 }
    ensures text { IfOk result (λ r. IsWholeFile format r.0.items (text.items ∷ []) (link_bytes r.1)) }
    ensures err { IfErr result (λ e. e ≡ Memory) }
{
    let len = text.len();
    let checksum = format.checksum(None, &text);
    let front = front(alloc, format, len, &checksum)?;
    let mut bytes = text;
    push_front(&mut bytes, &front)?;
    fill_up(&mut bytes, format, FRONT + len)?;
    push_latch(&mut bytes, format, 0)?;
    Ok((bytes, format.next_link(checksum)))
}

// What a file has in front of its first text.
fn front(
    alloc: Global,
    format: Format,
    len: usize,
    checksum: &[u8; 32],
) -> Result<Vec<u8>, DeviceError>
    ensures bytes { IfOk result (λ front. IsFront format len checksum.now front.items) }
    ensures err { IfErr result (λ e. e ≡ Memory) }
{
    let line = format.line();
    let mut front = line.to_vec(alloc)?;
    fill_up(&mut front, format, line.len())?;
    push_latch(&mut front, format, OPEN)?;
    front.extend_from_slice(&(len as u64).to_le_bytes())?;
    front.extend_from_slice(checksum)?;
    Ok(front)
}

// These bytes in front of the others, which move.
fn push_front(bytes: &mut Vec<u8>, front: &[u8]) -> Result<(), DeviceError>
    ensures bytes { OnOk result (bytes.new.items ≡ front.now ++ bytes.old.items) }
    ensures err { IfErr result (λ e. e ≡ Memory) }
{
    bytes.extend_from_slice(front)?;
    bytes.rotate_right(front.len());
    Ok(())
}

// An open latch and the block of a text that follows on the link. What the next block follows on.
fn push_text(
    bytes: &mut Vec<u8>,
    format: Format,
    link: Link,
    text: &[u8],
) -> Result<Link, DeviceError>
    requires { length text.now ≤ 2 ^ 40 }
    ensures bytes { OnOk result (IsPushed format (link_bytes link) text.now bytes.old.items bytes.new.items) }
    ensures link { IfOk result (λ next. link_bytes next ≡ next_link format (checksum_of format (link_bytes link) text.now)) }
    ensures err { IfErr result (λ e. e ≡ Memory) }
{
    push_latch(bytes, format, OPEN)?;
    let checksum = format.checksum(link, text);
    push_block(bytes, &checksum, text)?;
    fill_up(bytes, format, FRONT + text.len())?;
    Ok(format.next_link(checksum))
}

// A latch, in a unit of its own.
fn push_latch(bytes: &mut Vec<u8>, format: Format, latch: u8) -> Result<(), DeviceError>
    ensures bytes { OnOk result ((more : List ℕ) × (bytes.new.items ≡ bytes.old.items ++ more) × IsLatch format latch [] more) }
    ensures err { IfErr result (λ e. e ≡ Memory) }
{
    bytes.push(latch)?;
    push_zeros(bytes, format.unit() - 1)
}

// What fills so many bytes up to whole units.
fn fill_up(bytes: &mut Vec<u8>, format: Format, len: usize) -> Result<(), DeviceError>
    requires { len ≤ 2 ^ 63 }
    ensures bytes { OnOk result (bytes.new.items ≡ bytes.old.items ++ replicate (filling format len) 0) }
    ensures err { IfErr result (λ e. e ≡ Memory) }
{
    push_zeros(bytes, format.filled(len) - len)
}

fn push_zeros(bytes: &mut Vec<u8>, count: usize) -> Result<(), DeviceError>
    requires { count ≤ 2 ^ 12 }
    ensures bytes { OnOk result (bytes.new.items ≡ bytes.old.items ++ replicate count 0) }
    ensures err { IfErr result (λ e. e ≡ Memory) }
{
    let size = bytes.len() + count;
    bytes.resize(size, 0)?;
    Ok(())
}

fn push_block(bytes: &mut Vec<u8>, checksum: &[u8; 32], text: &[u8]) -> Result<(), DeviceError>
    ensures bytes { OnOk result (bytes.new.items ≡ bytes.old.items ++ block checksum.now text.now) }
    ensures fits { length text.now < 2 ^ 64 }
    ensures err { IfErr result (λ e. e ≡ Memory) }
{
    bytes.extend_from_slice(&(text.len() as u64).to_le_bytes())?;
    bytes.extend_from_slice(checksum)?;
    bytes.extend_from_slice(text)?;
    Ok(())
}

// Writes bytes, and waits until they are on the disk.
pub fn write_synced<D: Device>(device: &mut D, at: usize, bytes: &[u8]) -> Result<(), DeviceError>
    requires place { at ≤ length (D.seen device.old) }
    requires durable { IsDurable D.seen D.may_leave D.file_may_leave device.old }
    ensures written { OnOk result (IsWrittenAt (D.seen device.old) at bytes.now (D.seen device.new)) }
    ensures durable { OnOk result (IsDurable D.seen D.may_leave D.file_may_leave device.new) }
    ensures any_moment { LeavesOnly D.moment D.left_since device.old device.new (Torn at (length bytes.now) (D.seen device.old)) }
    ensures later { D.faults device.old ≤ D.faults device.new }
    ensures failed { IsErrOf result DeviceError.Failed → D.faults device.old < D.faults device.new }
{
    device.write_at(at, bytes)?;
    device.sync()
}

/// Puts a file of these bytes in the place of the device's file, whatever is there, or nothing. At `Ok` they are on the disk,
/// under the file's name. At [`WriteError::Beside`] the old file is as it was; after another error it is the old one or the
/// new one: open it again.
pub fn replace_file<D: Device>(device: &mut D, bytes: &[u8]) -> Result<(), WriteError>
    requires { IsDurable D.seen D.may_leave D.file_may_leave device.old }
    ensures taken { OnOk result (D.seen device.new ≡ bytes.now) }
    ensures durable { OnOk result (IsDurable D.seen D.may_leave D.file_may_leave device.new) }
    ensures any_moment { LeavesOnly D.moment D.left_since device.old device.new (λ c. (c ≡ D.seen device.old) ⊎ (c ≡ bytes.now)) }
    ensures untouched { IfErr result (λ e. IsBeside e → IsUntouched D.seen D.may_leave D.file_may_leave D.moment D.left_since device.old device.new) }
    ensures failed { IfErr result (λ e. IsFailure e → D.faults device.old < D.faults device.new) }
    ensures kind { IfErr result (λ e. (e ≢ TooLong) × (e ≢ Full)) }
{
    if let Err(error) = write_beside_synced(device, bytes) {
        return Err(WriteError::Beside(error));
    }
    device.rename()?;
    device.sync_folder()?;
    Ok(())
}

// Writes the new file, and waits until it is on the disk: it is there before it takes the name.
fn write_beside_synced<D: Device>(device: &mut D, bytes: &[u8]) -> Result<(), DeviceError>
    requires { IsDurable D.seen D.may_leave D.file_may_leave device.old }
    ensures beside { OnOk result (D.beside device.new ≡ bytes.now) }
    ensures synced { OnOk result (Only bytes.now (D.beside_may_leave device.new)) }
    ensures untouched { IsUntouched D.seen D.may_leave D.file_may_leave D.moment D.left_since device.old device.new }
    ensures later { D.faults device.old ≤ D.faults device.new }
    ensures failed { IsErrOf result DeviceError.Failed → D.faults device.old < D.faults device.new }
{
    device.write_beside(bytes)?;
    device.sync_beside()
}
