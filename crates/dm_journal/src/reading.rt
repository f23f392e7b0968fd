//! How a file is read: block by block, up to a closed latch or a fault.
ghost use Rattle.std.specs.Prelude.{◌≡◌, ◌<◌, ◌≤◌, ◌++◌, true, false, drop, length, IfSome, IfNone, IfOk, IfErr};
ghost use Rattle.std.specs.Int.{w64, to_le_bytes};
ghost use Rattle.dm_journal.specs.declared.format.Format.{Format as JournalFormat};
ghost use Rattle.dm_journal.specs.Faults.{BeginsWith, HasFault};
ghost use Rattle.dm_journal.specs.Format.{line, unit};
ghost use Rattle.dm_journal.specs.Hidden.{AreTwoBlocks};
ghost use Rattle.dm_journal.specs.Journal.{link_bytes};
ghost use Rattle.dm_journal.specs.Reading.{IsHeaded, IsReading, IsFaultOf, StandsAt, StandsBehind};

use crate::fault::{Fault, OpenError};
use crate::format::{ChecksumField, Format, KindsField, Link};
use crate::texts::Range;
use std::alloc::Global;

// What a file of any version begins with.
const FAMILY: [u8; 11] = *b"dm journal ";

/// The bytes of a length and a checksum.
pub const FRONT: usize = 40;

/// The blocks of a file up to a closed latch.
#[derive(Drop)]
pub struct Reading {
    pub format: Format,
    pub ranges: Vec<Range>,
    // What a block behind them follows on.
    pub link: Link,
    // The place of the closed latch.
    pub latch: usize,
    // Its place, if it hides blocks.
    pub hidden: Option<usize>,
}

// What stands where a latch is due, or behind an open one.
#[derive(Clone, Copy)]
pub enum Step {
    // A closed latch.
    End,
    // A block of a text of this length, of so many bytes with what fills it up, and its checksum.
    Whole {
        len: usize,
        size: usize,
        checksum: [u8; 32],
    },
    // Less than a block.
    Cut,
    // A block with another text's checksum.
    Damaged,
}

/// Reads the blocks up to a closed latch.
pub fn read_blocks(alloc: Global, bytes: &[u8]) -> Result<Reading, OpenError>
    ensures ok { IfOk result (IsReading bytes.now) }
    ensures fault { IfErr result (IsFaultOf bytes.now) }
{
    let mut ranges = Vec::new(alloc);
    let (format, mut at) = read_header(bytes)?;
    let mut link = None;
    'walk: loop {
        match read_block(format, link, &bytes[at..]) {
            Step::End => {
                let hidden = if hides(format, link, &bytes[at..]) {
                    Some(at)
                } else {
                    None
                };
                return Ok(Reading {
                    format,
                    ranges,
                    link,
                    latch: at,
                    hidden,
                });
            }
            Step::Whole {
                len,
                size,
                checksum,
            } => {
                let behind = at + format.unit();
                ranges.push(Range {
                    start: behind + FRONT,
                    len,
                })?;
                at = behind + size;
                link = format.next_link(checksum);
            }
            Step::Cut => return Err(OpenError::File(Fault::Cut(at))),
            Step::Damaged => return Err(OpenError::File(Fault::Damaged(at))),
        }
    }
}

// The format of a file, and the place where its first latch is due.
fn read_header(bytes: &[u8]) -> Result<(Format, usize), Fault>
    ensures ok { IfOk result (λ r. IsHeaded bytes.now r.0 r.1) }
    ensures fault { IfErr result (HasFault bytes.now) }
{
    let Some(format) = known_format(bytes) else {
        return Err(if bytes.starts_with(&FAMILY) {
            Fault::Unknown
        } else {
            Fault::NotAJournal
        });
    };
    let at = format.filled(format.line().len());
    if bytes.len() < at {
        return Err(Fault::Cut(at));
    }
    Ok((format, at))
}

// The format whose header the file begins with.
fn known_format(bytes: &[u8]) -> Option<Format>
    ensures some { IfSome result (λ format. BeginsWith (line format) bytes.now) }
    ensures none { IfNone result ((format : JournalFormat) → ¬ BeginsWith (line format) bytes.now) }
{
    if begins_with(bytes, Format::First) {
        return Some(Format::First);
    }
    if begins_with(bytes, Format::Second) {
        return Some(Format::Second);
    }
    if begins_with(bytes, Format::Third) {
        return Some(Format::Third);
    }
    if begins_with(
        bytes,
        Format::Fields(KindsField::Six, ChecksumField::Sha256),
    ) {
        return Some(Format::Fields(KindsField::Six, ChecksumField::Sha256));
    }
    if begins_with(
        bytes,
        Format::Fields(KindsField::All, ChecksumField::Sha256),
    ) {
        return Some(Format::Fields(KindsField::All, ChecksumField::Sha256));
    }
    if begins_with(bytes, Format::Fields(KindsField::Six, ChecksumField::Lanes)) {
        return Some(Format::Fields(KindsField::Six, ChecksumField::Lanes));
    }
    if begins_with(bytes, Format::Fields(KindsField::All, ChecksumField::Lanes)) {
        return Some(Format::Fields(KindsField::All, ChecksumField::Lanes));
    }
    None
}

fn begins_with(bytes: &[u8], format: Format) -> bool
    ensures yes { result ≡ true → BeginsWith (line format) bytes.now }
    ensures no { result ≡ false → ¬ BeginsWith (line format) bytes.now }
{
    bytes.starts_with(format.line())
}

fn read_block(format: Format, link: Link, bytes: &[u8]) -> Step
    ensures { StandsAt format (link_bytes link) bytes.now result }
{
    let unit = format.unit();
    if bytes.len() < unit {
        return Step::Cut;
    }
    if bytes[0] == 0 {
        return Step::End;
    }
    read_behind(format, link, &bytes[unit..])
}

// What stands behind a latch that is open.
fn read_behind(format: Format, link: Link, bytes: &[u8]) -> Step
    ensures { StandsBehind format (link_bytes link) bytes.now result }
{
    let Some((len, rest)) = read_length(bytes) else {
        return Step::Cut;
    };
    if rest.len() < 32 {
        return Step::Cut;
    }
    let (told, rest) = rest.split_at(32);
    if len > rest.len() as u64 {
        return Step::Cut;
    }
    let len = len as usize;
    let size = format.filled(FRONT + len);
    if bytes.len() < size {
        return Step::Cut;
    }
    let checksum = format.checksum(link, &rest[..len]);
    if checksum.as_slice() != told {
        return Step::Damaged;
    }
    Step::Whole {
        len,
        size,
        checksum,
    }
}

// Whether behind this closed latch stand two blocks that follow on the link.
fn hides(format: Format, link: Link, bytes: &[u8]) -> bool
    requires { unit format ≤ length bytes.now }
    ensures yes { result ≡ true → AreTwoBlocks format (link_bytes link) (drop (unit format) bytes.now) }
    ensures no { result ≡ false → ¬ AreTwoBlocks format (link_bytes link) (drop (unit format) bytes.now) }
{
    let behind = &bytes[format.unit()..];
    let Step::Whole { size, checksum, .. } = read_behind(format, link, behind) else {
        return false;
    };
    match read_block(format, format.next_link(checksum), &behind[size..]) {
        Step::Whole { .. } => true,
        _ => false,
    }
}

/// A number of 8 bytes, the lowest first, and what stands behind it; `None` where there are fewer bytes.
pub fn read_length(bytes: &[u8]) -> Option<(u64, &[u8])>
    ensures some { IfSome result (λ r. bytes.now ≡ to_le_bytes w64 r.0 ++ r.1.now) }
    ensures none { IfNone result (length bytes.now < 8) }
{
    let [a, b, c, d, e, f, g, h, rest @ ..] = bytes else {
        return None;
    };
    let number = u64::from_le_bytes([*a, *b, *c, *d, *e, *f, *g, *h]);
    Some((number, rest))
}
