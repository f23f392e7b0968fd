//! What is asked of the dates of a bundle's new patches.
ghost use Rattle.std.specs.Prelude.{◌≡◌, ◌⊎◌, ◌++◌, IfOk, IfSome, IfNone, OnOk};
ghost use Rattle.dm_deliver.specs.Dates.{AllReadable, HasDateFaultWithin, HasReadableDates, HasUnreadDate, IsFirstUnread, PassesDatesWithin, TellsDate, before_date};
ghost use Rattle.dm_deliver.specs.Hashes.{IsNoBundle};

use dm_bundle::read_bundle_within;
use dm_date::is_readable;
use dm_info::Info;
use dm_named::{FaultKind, Limits, Named};
use memchr::memmem;
use std::alloc::{AllocError, Global};

/// What is asked of the dates of a bundle's new patches.
#[derive(Clone, Copy, Debug, PartialEq, Eq)]
pub enum DateRule {
    /// Nothing.
    Any,
    /// Darcs can read each ([`dm_date::is_readable`]).
    Readable,
}

// Appends what stands before the date in the text of a patch info.
fn push_before_date(info: &Info<Global>, out: &mut Vec<u8>) -> Result<(), AllocError>
    ensures { OnOk result (out.new.items ≡ out.old.items ++ before_date info.now) }
{
    out.push(b'[')?;
    out.extend_from_slice(info.name())?;
    out.push(b'\n')?;
    out.extend_from_slice(info.author())?;
    out.extend_from_slice(b"**")?;
    Ok(())
}

// Where a text tells the date of a patch for the first time.
fn place_of_date(alloc: Global, text: &[u8], info: &Info<Global>) -> Result<usize, AllocError>
    ensures { IfOk result (TellsDate text.now info.now) }
{
    let mut told = Vec::new(alloc);
    push_before_date(info, &mut told)?;
    let before = told.len();
    told.extend_from_slice(info.date())?;
    match memmem::find(text, &told) {
        Some(at) => Ok(at + before),
        None => Ok(text.len()),
    }
}

// The first of these patches whose date Darcs can't read.
fn first_unread(patches: &[Named<Global>]) -> Option<&Named<Global>>
    ensures some { IfSome result (λ patch. IsFirstUnread patches.now patch.now) }
    ensures none { IfNone result (AllReadable patches.now) }
{
    for patch in patches {
        if !is_readable(patch.info().date()) {
            return Some(patch);
        }
    }
    None
}

// Where the text of a bundle within these limits tells the first date of its new patches that Darcs can't read. `None` also for a
// text that is none.
fn unread_date(alloc: Global, text: &[u8], limits: Limits) -> Result<Option<usize>, AllocError>
    ensures some { IfOk result (λ found. IfSome found (HasUnreadDate limits text.now)) }
    ensures none { IfOk result (λ found. IfNone found (IsNoBundle limits text.now ⊎ HasReadableDates limits text.now)) }
{
    let bundle = match read_bundle_within(alloc, text, limits) {
        Ok(bundle) => bundle,
        Err(fault) => {
            if fault.kind == FaultKind::NoMemory {
                return Err(AllocError);
            }
            return Ok(None);
        }
    };
    match first_unread(bundle.new_patches()) {
        Some(patch) => {
            let at = place_of_date(alloc, text, patch.info())?;
            Ok(Some(at))
        }
        None => Ok(None),
    }
}

/// Where the text of a bundle within these limits tells the first date of its new patches that a rule refuses. `None` also for a text
/// that is none.
pub fn date_fault_within(
    alloc: Global,
    text: &[u8],
    limits: Limits,
    rule: DateRule,
) -> Result<Option<usize>, AllocError>
    ensures some { IfOk result (λ found. IfSome found (HasDateFaultWithin limits rule text.now)) }
    ensures none { IfOk result (λ found. IfNone found (PassesDatesWithin limits rule text.now)) }
{
    match rule {
        DateRule::Any => Ok(None),
        DateRule::Readable => unread_date(alloc, text, limits),
    }
}
