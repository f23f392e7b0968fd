//! Reading a bundle.

ghost use Rattle.std.specs.Prelude.{◌≡◌, ◌≢◌, ◌≤◌, ◌<◌, length, drop, MatchResult, IfOk, IfErr, IsErrOf};
ghost use Rattle.dm_bundle.specs.Patches.{AreFew, AreFewWithin, AreAllWritable};
ghost use Rattle.dm_bundle.specs.Bundles.{Contents, IsValidBundle, SectionsEndAt, BundleText, BundleTextIn, EndsAtIn};
ghost use Rattle.dm_bundle.specs.Canonical.{bundle_text};
ghost use Rattle.dm_bundle.specs.Faults.{most_bytes, IsWithinSize, IsWithinSizeOf, HasNoHeading, AfterHeadingFaultWithin, FaultAt, FaultWithin, ExcludesBundle};

use crate::bundle::Bundle;
use crate::context::{context_at, is_context_word};
use crate::heading::heading_at;
use crate::patches::{Start, patches_at};
use dm_named::text::{skip, word_at};
use dm_named::{FaultKind, Limits, ReadFault};
use std::alloc::Allocator;

/// The bundle of the text after the heading, and the place past the white space behind its context.
fn sections_at<A: Allocator + Copy>(
    alloc: A,
    text: &[u8],
    new: usize,
    limits: Limits,
) -> Result<(Bundle<A>, usize), ReadFault>
    requires { new ≤ length text.now }
    ensures ok { IfOk result (λ x. SectionsEndAt limits.kinds (drop new text.now) x.0 (drop x.1 text.now)) }
    ensures within { IfOk result (λ x. x.1 ≤ length text.now) }
    ensures few { IfOk result (λ x. AreFewWithin limits x.0.patches) }
    ensures err { IfErr result (λ e. AfterHeadingFaultWithin limits e.kind (drop new text.now) (drop e.at text.now)) }
    ensures place { IfErr result (λ e. e.at ≤ length text.now) }
{
    let Start {
        patches,
        known,
        end,
    } = patches_at(alloc, text, new, limits)?;
    let here = skip(text, end);
    let (word, after_word) = word_at(text, here);
    if !is_context_word(word) {
        return Err(ReadFault {
            kind: FaultKind::NoContext,
            at: here,
        });
    }
    let (context, behind) = context_at(alloc, &known, text, after_word)?;
    Ok((Bundle::without_doubles(patches, context), behind))
}

/// The bundle of a text and the place past the white space behind its context, or the text's fault.
fn bundle_of<A: Allocator + Copy>(
    alloc: A,
    text: &[u8],
    limits: Limits,
) -> Result<(Bundle<A>, usize), ReadFault>
    ensures ok { IfOk result (λ x. EndsAtIn limits.kinds text.now x.0 (drop x.1 text.now)) }
    ensures within { IfOk result (λ x. x.1 ≤ length text.now) }
    ensures few { IfOk result (λ x. AreFewWithin limits x.0.patches) }
    ensures err { IfErr result (λ e. e.kind ≢ FaultKind.NoMemory → FaultWithin limits text.now e.kind e.at) }
    ensures too_large { limits.bytes < length text.now → IsErrOf result (record { kind = FaultKind.TooLarge; at = limits.bytes }) }
    ensures no_heading { IsWithinSizeOf limits text.now → HasNoHeading text.now
        → IsErrOf result (record { kind = FaultKind.NoNewPatches; at = length text.now }) }
{
    if text.len() > limits.bytes {
        return Err(ReadFault {
            kind: FaultKind::TooLarge,
            at: limits.bytes,
        });
    }
    let Some(new) = heading_at(text) else {
        return Err(ReadFault {
            kind: FaultKind::NoNewPatches,
            at: text.len(),
        });
    };
    let (bundle, behind) = sections_at(alloc, text, new, limits)?;
    Ok((bundle, behind))
}

/// The bundle that a text stands for, and the place where what is behind its context begins, past white space. That rest is
/// not read.
///
/// The fault is the first from left to right, with its place. Replaces are counted after a patch without any other fault, and one too
/// many is told where that patch ends. `NoMemory` is returned if an allocation failed, and never for a text that is too large or has
/// no heading.
pub fn read_bundle_to<A: Allocator + Copy>(
    alloc: A,
    text: &[u8],
    limits: Limits,
) -> Result<(Bundle<A>, usize), ReadFault>
    // The text stands for the bundle that is returned, and for no other.
    ensures ok { IfOk result (λ x. BundleTextIn limits.kinds text.now x.0) }
    ensures only { IfOk result (λ x. (c : Contents) → BundleTextIn limits.kinds text.now c → x.0 ≡ c) }
    // Past the white space behind the context stands what begins at the place.
    ensures end { IfOk result (λ x. EndsAtIn limits.kinds text.now x.0 (drop x.1 text.now)) }
    ensures within { IfOk result (λ x. x.1 ≤ length text.now) }
    // It has no more new patches than the limits allow, each of no more primitives, and no more replaces in all.
    ensures few { IfOk result (λ x. AreFewWithin limits x.0.patches) }
    // A bundle is read if it and its text are within the limits, unless memory runs out.
    ensures within_limits { (b : Contents) → BundleTextIn limits.kinds text.now b → IsWithinSizeOf limits text.now → AreFewWithin limits b.patches
        → MatchResult result (λ found. found.0 ≡ b) (λ e. e.kind ≡ FaultKind.NoMemory) }
    // So is a valid bundle from its canonical text, if its primitives are of the kinds that are read and can be written.
    ensures canonical { (b : Contents) → IsValidBundle b → AreAllWritable limits.kinds b.patches → text.now ≡ bundle_text b → IsWithinSizeOf limits text.now → AreFewWithin limits b.patches
        → MatchResult result (λ found. found.0 ≡ b) (λ e. e.kind ≡ FaultKind.NoMemory) }
    // What is wrong, and where.
    ensures err { IfErr result (λ e. e.kind ≢ FaultKind.NoMemory → FaultWithin limits text.now e.kind e.at) }
    // A text with a fault stands for no bundle, unless it is too large, has too many parts, or memory ran out.
    ensures none { IfErr result (λ e. ExcludesBundle e.kind → (b : Contents) → BundleTextIn limits.kinds text.now b → ⊥) }
    // To find these two faults takes no memory.
    ensures too_large { limits.bytes < length text.now → IsErrOf result (record { kind = FaultKind.TooLarge; at = limits.bytes }) }
    ensures no_heading { IsWithinSizeOf limits text.now → HasNoHeading text.now
        → IsErrOf result (record { kind = FaultKind.NoNewPatches; at = length text.now }) }
{
    match bundle_of(alloc, text, limits) {
        Ok((bundle, behind)) => Ok((bundle, behind)),
        Err(e) => Err(e),
    }
}

/// The bundle that a text stands for. What follows the context is not read.
///
/// The fault is the first from left to right, with its place. Replaces are counted after a patch without any other fault, and one too
/// many is told where that patch ends. `NoMemory` is returned if an allocation failed, and never for a text that is too large or has
/// no heading.
pub fn read_bundle_within<A: Allocator + Copy>(
    alloc: A,
    text: &[u8],
    limits: Limits,
) -> Result<Bundle<A>, ReadFault>
    // The text stands for the bundle that is returned, and for no other.
    ensures ok { IfOk result (λ b. BundleTextIn limits.kinds text.now b) }
    ensures only { IfOk result (λ b. (c : Contents) → BundleTextIn limits.kinds text.now c → b ≡ c) }
    // It has no more new patches than the limits allow, each of no more primitives, and no more replaces in all.
    ensures few { IfOk result (λ b. AreFewWithin limits b.patches) }
    // A bundle is read if it and its text are within the limits, unless memory runs out.
    ensures within_limits { (b : Contents) → BundleTextIn limits.kinds text.now b → IsWithinSizeOf limits text.now → AreFewWithin limits b.patches
        → MatchResult result (λ found. found ≡ b) (λ e. e.kind ≡ FaultKind.NoMemory) }
    // So is a valid bundle from its canonical text, if its primitives are of the kinds that are read and can be written.
    ensures canonical { (b : Contents) → IsValidBundle b → AreAllWritable limits.kinds b.patches → text.now ≡ bundle_text b → IsWithinSizeOf limits text.now → AreFewWithin limits b.patches
        → MatchResult result (λ found. found ≡ b) (λ e. e.kind ≡ FaultKind.NoMemory) }
    // What is wrong, and where.
    ensures err { IfErr result (λ e. e.kind ≢ FaultKind.NoMemory → FaultWithin limits text.now e.kind e.at) }
    // A text with a fault stands for no bundle, unless it is too large, has too many parts, or memory ran out.
    ensures none { IfErr result (λ e. ExcludesBundle e.kind → (b : Contents) → BundleTextIn limits.kinds text.now b → ⊥) }
    // To find these two faults takes no memory.
    ensures too_large { limits.bytes < length text.now → IsErrOf result (record { kind = FaultKind.TooLarge; at = limits.bytes }) }
    ensures no_heading { IsWithinSizeOf limits text.now → HasNoHeading text.now
        → IsErrOf result (record { kind = FaultKind.NoNewPatches; at = length text.now }) }
{
    match read_bundle_to(alloc, text, limits) {
        Ok((bundle, _)) => Ok(bundle),
        Err(e) => Err(e),
    }
}

/// The bundle that a text stands for, read within [`Limits::STANDARD`]. What follows the context is not read.
///
/// The fault is the first from left to right, with its place. `NoMemory` is returned if an allocation
/// failed, and never for a text that is too large or has no heading.
pub fn read_bundle<A: Allocator + Copy>(alloc: A, text: &[u8]) -> Result<Bundle<A>, ReadFault>
    // The text stands for the bundle that is returned, and for no other.
    ensures ok { IfOk result (λ b. BundleText text.now b) }
    ensures only { IfOk result (λ b. (c : Contents) → BundleText text.now c → b ≡ c) }
    // It has no more new patches than the standard limits allow, each of no more primitives.
    ensures few { IfOk result (λ b. AreFew b.patches) }
    // A bundle is read if it and its text are within the limits, unless memory runs out.
    ensures within_limits { (b : Contents) → BundleText text.now b → IsWithinSize text.now → AreFew b.patches
        → MatchResult result (λ found. found ≡ b) (λ e. e.kind ≡ FaultKind.NoMemory) }
    // What is wrong, and where.
    ensures err { IfErr result (λ e. e.kind ≢ FaultKind.NoMemory → FaultAt text.now e.kind e.at) }
    // A text with a fault stands for no bundle, unless it is too large, has too many parts, or memory ran out.
    ensures none { IfErr result (λ e. ExcludesBundle e.kind → (b : Contents) → BundleText text.now b → ⊥) }
    // To find these two faults takes no memory.
    ensures too_large { most_bytes < length text.now → IsErrOf result (record { kind = FaultKind.TooLarge; at = most_bytes }) }
    ensures no_heading { length text.now ≤ most_bytes → HasNoHeading text.now
        → IsErrOf result (record { kind = FaultKind.NoNewPatches; at = length text.now }) }
{
    read_bundle_within(alloc, text, Limits::STANDARD)
}
