//! Writing a bundle.

ghost use Rattle.std.specs.Prelude.{◌≡◌, ◌++◌, IfOk, OnOk};
ghost use Rattle.std.specs.List.{AllByRecursion, flat_map};
ghost use Rattle.dm_info.specs.PatchInfo.{IsInfo};
ghost use Rattle.dm_named.specs.Patches.{IsValidPatch};
ghost use Rattle.dm_named.specs.Canonical.{info_line, patch_text};
ghost use Rattle.dm_bundle.specs.Patches.{AreAllOf, AreAllWritable};
ghost use Rattle.dm_bundle.specs.Bundles.{HasNoDoubles, IsValidBundle, BundleTextIn};
ghost use Rattle.dm_bundle.specs.Canonical.{bundle_text};

use crate::bundle::Bundle;
use dm_info::{Info, push_info};
use dm_named::{Kinds, Named, push_named};
use std::alloc::{AllocError, Allocator};

fn push_patches<A: Allocator, B: Allocator + Copy>(
    patches: &[Named<A>],
    out: &mut Vec<u8, B>,
) -> Result<(), AllocError>
    ensures text { OnOk result (out.new.items ≡ out.old.items ++ flat_map patch_text patches.now) }
    ensures valid { OnOk result (AllByRecursion IsValidPatch patches.now) }
    ensures bytes { OnOk result (AreAllWritable Kinds.All patches.now) }
{
    for patch in patches {
        push_named(patch, out)?;
    }
    Ok(())
}

fn push_context<A: Allocator, B: Allocator + Copy>(
    context: &[Info<A>],
    out: &mut Vec<u8, B>,
) -> Result<(), AllocError>
    ensures text { OnOk result (out.new.items ≡ out.old.items ++ flat_map info_line context.now) }
    ensures valid { OnOk result (AllByRecursion IsInfo context.now) }
{
    for info in context {
        push_info(info, out)?;
        out.push(b'\n')?;
    }
    Ok(())
}

/// Appends the canonical text of the bundle of these new patches, oldest first, and this context, which keeps its order. It needs
/// no [`Bundle`], so nothing is copied to make one. Parts with doubles are written too, but `read_bundle` refuses their text.
pub fn push_bundle<A: Allocator, B: Allocator + Copy>(
    patches: &[Named<A>],
    context: &[Info<A>],
    out: &mut Vec<u8, B>,
) -> Result<(), AllocError>
    ensures text { OnOk result (out.new.items ≡ out.old.items ++ bundle_text (record { patches = patches.now; context = context.now })) }
    ensures valid { OnOk result (AllByRecursion IsValidPatch patches.now × AllByRecursion IsInfo context.now) }
    ensures bytes { OnOk result (AreAllWritable Kinds.All patches.now) }
    // Where the parts have no doubles, the text stands for their bundle.
    ensures stands { OnOk result (HasNoDoubles patches.now context.now → (kinds : Kinds) → AreAllOf kinds patches.now
        → BundleTextIn kinds (bundle_text (record { patches = patches.now; context = context.now }))
        (record { patches = patches.now; context = context.now })) }
{
    out.extend_from_slice(b"New patches:\n\n")?;
    push_patches(patches, out)?;
    out.extend_from_slice(b"\nContext:\n\n")?;
    push_context(context, out)?;
    Ok(())
}

/// The canonical text of a bundle. The context keeps its order (`darcs send` lists the newest first). A
/// bundle past the limits of `read_bundle` is written too.
pub fn write_bundle<A: Allocator, B: Allocator + Copy>(
    alloc: B,
    bundle: &Bundle<A>,
) -> Result<Vec<u8, B>, AllocError>
    ensures text { IfOk result (λ text. text.items ≡ bundle_text bundle.now) }
    ensures valid { OnOk result (IsValidBundle bundle.now) }
    ensures bytes { OnOk result (AreAllWritable Kinds.All bundle.now.patches) }
    // The text stands for the bundle, so it is read back as the same if it and its primitives are within the limits.
    ensures stands { IfOk result (λ text. (kinds : Kinds) → AreAllOf kinds bundle.now.patches → BundleTextIn kinds text.items bundle.now) }
{
    let mut text = Vec::new(alloc);
    push_bundle(bundle.new_patches(), bundle.context(), &mut text)?;
    Ok(text)
}
