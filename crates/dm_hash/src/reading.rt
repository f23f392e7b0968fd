//! Reading a bundle and its trailer.

ghost use Rattle.std.specs.Prelude.{◌≡◌, ◌≢◌, ◌≤◌, ◌<◌, ◌++◌, ℕ, List, length, drop, MatchBool, MatchResult, IfOk, IfErr, IfSome, IfNone, IsErrOf};
ghost use Rattle.hex.specs.Hex.{encode_lower};
ghost use Rattle.dm_bundle.specs.Patches.{AreFewWithin};
ghost use Rattle.dm_bundle.specs.Bundles.{Contents, BundleTextIn, EndsAtIn};
ghost use Rattle.dm_bundle.specs.Faults.{IsWithinSizeOf, HasNoHeading, FaultWithin, ExcludesBundle};
ghost use Rattle.dm_hash.specs.Trailers.{trailer_mark, TrailerSays};

use crate::kept::hashes_of;
use crate::trailer::Trailer;
use dm_bundle::{Bundle, read_bundle_to};
use dm_named::text::{skip, word_at};
use dm_named::{FaultKind, Limits, Named, ReadFault};
use std::alloc::{AllocError, Allocator};

/// A bundle, what its trailer says, and the place past the white space behind the context: there the trailer stands, or was due.
#[derive(Drop)]
pub struct Hashed<A: Allocator> {
    pub bundle: Bundle<A>,
    pub trailer: Trailer,
    pub at: usize,
}

/// What is behind the mark of a trailer.
fn after_mark(rest: &[u8]) -> Option<&[u8]>
    ensures some { IfSome result (λ after. rest.now ≡ trailer_mark ++ after.now) }
    ensures none { IfNone result ((after : List ℕ) → rest.now ≡ trailer_mark ++ after → ⊥) }
{
    rest.strip_prefix(b"Patch bundle hash:".as_slice())
}

/// Whether a word is this hash in lower-case hex digits.
fn is_hash<A: Allocator>(alloc: A, word: &[u8], hash: &[u8]) -> Result<bool, AllocError>
    ensures { IfOk result (λ same. MatchBool same (word.now ≡ encode_lower hash.now) (word.now ≢ encode_lower hash.now)) }
{
    let digits = hex::encode(alloc, hash)?;
    Ok(word == digits.as_bytes())
}

/// What the text behind a context says of the new patches.
fn trailer_of<A: Allocator, B: Allocator + Copy>(
    alloc: B,
    patches: &[Named<A>],
    rest: &[u8],
) -> Result<Trailer, AllocError>
    ensures { IfOk result (λ trailer. TrailerSays patches.now rest.now trailer) }
{
    let Some(after) = after_mark(rest) else {
        return Ok(Trailer::NoHash);
    };
    let (word, _) = word_at(after, skip(after, 0));
    let hashes = hashes_of(alloc, patches)?;
    if is_hash(alloc, word, &hashes.darcs1)? {
        return Ok(Trailer::Right);
    }
    if is_hash(alloc, word, &hashes.darcs2)? {
        return Ok(Trailer::Right);
    }
    Ok(Trailer::Wrong)
}

/// The bundle that a text stands for, and what its trailer says of it. What follows the trailer is not read.
///
/// The fault is the first from left to right, with its place. Replaces are counted after a patch without any other fault, and one too
/// many is told where that patch ends. `NoMemory` is returned if an allocation failed, and never for a text that is too large or has
/// no heading.
pub fn read_hashed<A: Allocator + Copy>(
    alloc: A,
    text: &[u8],
    limits: Limits,
) -> Result<Hashed<A>, ReadFault>
    // The text stands for the bundle that is returned, and for no other; the bundle ends at the place.
    ensures ok { IfOk result (λ h. EndsAtIn limits.kinds text.now h.bundle (drop h.at text.now)) }
    ensures only { IfOk result (λ h. (c : Contents) → BundleTextIn limits.kinds text.now c → h.bundle ≡ c) }
    ensures place { IfOk result (λ h. h.at ≤ length text.now) }
    // What stands at the place says this of the new patches.
    ensures trailer { IfOk result (λ h. TrailerSays h.bundle.patches (drop h.at text.now) h.trailer) }
    // It has no more new patches than the limits allow, each of no more primitives, and no more replaces in all.
    ensures few { IfOk result (λ h. AreFewWithin limits h.bundle.patches) }
    // A bundle is read if it and its text are within the limits, whatever its trailer says, unless memory runs out.
    ensures within_limits { (b : Contents) → BundleTextIn limits.kinds text.now b → IsWithinSizeOf limits text.now → AreFewWithin limits b.patches
        → MatchResult result (λ found. found.bundle ≡ b) (λ e. e.kind ≡ FaultKind.NoMemory) }
    // What is wrong, and where.
    ensures err { IfErr result (λ e. e.kind ≢ FaultKind.NoMemory → FaultWithin limits text.now e.kind e.at) }
    // A text with a fault stands for no bundle, unless it is too large, has too many parts, or memory ran out.
    ensures none { IfErr result (λ e. ExcludesBundle e.kind → (b : Contents) → BundleTextIn limits.kinds text.now b → ⊥) }
    // To find these two faults takes no memory.
    ensures too_large { limits.bytes < length text.now → IsErrOf result (record { kind = FaultKind.TooLarge; at = limits.bytes }) }
    ensures no_heading { IsWithinSizeOf limits text.now → HasNoHeading text.now
        → IsErrOf result (record { kind = FaultKind.NoNewPatches; at = length text.now }) }
{
    let (bundle, at) = match read_bundle_to(alloc, text, limits) {
        Ok((bundle, at)) => (bundle, at),
        Err(e) => return Err(e),
    };
    match trailer_of(alloc, bundle.new_patches(), &text[at..]) {
        Ok(trailer) => Ok(Hashed {
            bundle,
            trailer,
            at,
        }),
        Err(e) => Err(ReadFault::no_memory(e, at)),
    }
}
