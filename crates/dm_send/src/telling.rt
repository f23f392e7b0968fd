//! Reading what somebody holds.
ghost use Rattle.std.specs.Prelude.{◌≡◌, ◌≢◌, ℕ, ◌-◌, [], IfErr, IfOk, IsTrue, MatchOption};
ghost use Rattle.dm_bundle.specs.Bundles.{BundleTextIn, Contents};
ghost use Rattle.dm_bundle.specs.Faults.{FaultWithin};
ghost use Rattle.dm_send.specs.Telling.{IsNamesFault, TellsNames, headed, named_in};

use dm_bundle::{Bundle, read_bundle_within};
use dm_info::Info;
use dm_named::{FaultKind, Limits, ReadFault};
use dm_repo::copy_names;
use std::alloc::{AllocError, Allocator};

/// The heading of a bundle.
const HEADING: &[u8] = b"New patches:\n";

/// The names of a bundle's new patches, and of its context.
fn names_in<A: Allocator + Copy>(
    alloc: A,
    bundle: &Bundle<A>,
) -> Result<Vec<Info<A>, A>, AllocError>
    ensures { IfOk result (λ names. names.items ≡ named_in bundle.now) }
{
    let mut names = copy_names(alloc, bundle.new_patches())?;
    for name in bundle.context() {
        names.push(name.copy_into(alloc)?)?;
    }
    Ok(names)
}

/// The text after the heading of a bundle.
fn with_heading<A: Allocator + Copy>(alloc: A, text: &[u8]) -> Result<Vec<u8, A>, AllocError>
    ensures { IfOk result (λ whole. whole.items ≡ headed text.now) }
{
    let mut whole = Vec::new(alloc);
    whole.extend_from_slice(HEADING)?;
    whole.extend_from_slice(text)?;
    Ok(whole)
}

/// The names of a text that is a context alone; none where it has new patches behind no heading.
fn names_of_context<A: Allocator + Copy>(
    alloc: A,
    text: &[u8],
    limits: Limits,
) -> Result<Option<Vec<Info<A>, A>>, ReadFault>
    ensures found { IfOk result (λ found. MatchOption found
        ((b : Contents) × BundleTextIn limits.kinds (headed text.now) b × (b.patches ≢ []))
        (λ names. BundleTextIn limits.kinds (headed text.now) (record { patches = []; context = names.items }))) }
    ensures fault { IfErr result (λ e. e.kind ≢ FaultKind.NoMemory → (at : ℕ) × (e.at ≡ at - 13) × FaultWithin limits (headed text.now) e.kind at) }
{
    let whole = match with_heading(alloc, text) {
        Ok(whole) => whole,
        Err(error) => return Err(ReadFault::no_memory(error, 0)),
    };
    let bundle = match read_bundle_within(alloc, &whole, limits) {
        Ok(bundle) => bundle,
        Err(fault) => {
            return Err(ReadFault {
                kind: fault.kind,
                at: fault.at.saturating_sub(HEADING.len()),
            });
        }
    };
    if !bundle.new_patches().is_empty() {
        return Ok(None);
    }
    match names_in(alloc, &bundle) {
        Ok(names) => Ok(Some(names)),
        Err(error) => Err(ReadFault::no_memory(error, text.len())),
    }
}

/// Whether a text is no bundle for want of a heading.
fn is_heading_due(kind: FaultKind) -> bool
    ensures due { IsTrue result → kind ≡ FaultKind.NoNewPatches }
    ensures all { kind ≡ FaultKind.NoNewPatches → IsTrue result }
{
    match kind {
        FaultKind::NoNewPatches => true,
        _ => false,
    }
}

/// The names that a text tells, read within these limits: those of a bundle's new patches and of its context, or those of a
/// context alone, as `darcs log --context` writes it.
///
/// The fault is that of the text as a bundle; where only its heading is missing, as a context. `NoMemory` is returned if an
/// allocation failed.
pub fn read_names<A: Allocator + Copy>(
    alloc: A,
    text: &[u8],
    limits: Limits,
) -> Result<Vec<Info<A>, A>, ReadFault>
    ensures names { IfOk result (λ names. TellsNames limits text.now names.items) }
    ensures fault { IfErr result (λ e. e.kind ≢ FaultKind.NoMemory → IsNamesFault limits text.now e) }
{
    match read_bundle_within(alloc, text, limits) {
        Ok(bundle) => match names_in(alloc, &bundle) {
            Ok(names) => Ok(names),
            Err(error) => Err(ReadFault::no_memory(error, text.len())),
        },
        Err(fault) => {
            if !is_heading_due(fault.kind) {
                return Err(fault);
            }
            match names_of_context(alloc, text, limits)? {
                Some(names) => Ok(names),
                None => Err(fault),
            }
        }
    }
}
