//! Writing a bundle and its trailer.

ghost use Rattle.std.specs.Prelude.{◌≡◌, ◌++◌, IfOk, OnOk};
ghost use Rattle.dm_bundle.specs.Patches.{AreAllOf};
ghost use Rattle.dm_bundle.specs.Bundles.{IsValidBundle, BundleTextIn, EndsAtIn};
ghost use Rattle.dm_bundle.specs.Canonical.{bundle_text};
ghost use Rattle.dm_hash.specs.Trailers.{trailer_text, TrailerSays};
ghost use Rattle.dm_hash.specs.declared.trailer.Trailer.TheVariants.{Right};

use crate::kept::hashes_of;
use dm_bundle::{Bundle, write_bundle};
use dm_named::{Kinds, Named};
use std::alloc::{AllocError, Allocator};

fn push_trailer<A: Allocator, B: Allocator + Copy>(
    alloc: B,
    patches: &[Named<A>],
    out: &mut Vec<u8, B>,
) -> Result<(), AllocError>
    ensures { OnOk result (out.new.items ≡ out.old.items ++ trailer_text patches.now) }
{
    let hashes = hashes_of(alloc, patches)?;
    let digits = hex::encode(alloc, hashes.darcs1.as_slice())?;
    out.extend_from_slice(b"Patch bundle hash:\n")?;
    out.extend_from_slice(digits.as_bytes())?;
    out.push(b'\n')?;
    Ok(())
}

/// The canonical text of a bundle, and behind it the trailer with the hash of its new patches as darcs-1 keeps them. `darcs apply`
/// takes it in repositories of both formats. A bundle past the limits of `read_hashed` is written too.
pub fn write_hashed<A: Allocator, B: Allocator + Copy>(
    alloc: B,
    bundle: &Bundle<A>,
) -> Result<Vec<u8, B>, AllocError>
    ensures text { IfOk result (λ text. text.items ≡ bundle_text bundle.now ++ trailer_text bundle.now.patches) }
    ensures valid { OnOk result (IsValidBundle bundle.now) }
    // The text stands for the bundle, so it is read back as the same if it and its primitives are within the limits.
    ensures stands { IfOk result (λ text. (kinds : Kinds) → AreAllOf kinds bundle.now.patches → BundleTextIn kinds text.items bundle.now) }
    // The bundle ends at the trailer, and the trailer is right.
    ensures ends { IfOk result (λ text. (kinds : Kinds) → AreAllOf kinds bundle.now.patches
        → EndsAtIn kinds text.items bundle.now (trailer_text bundle.now.patches)) }
    ensures right { OnOk result (TrailerSays bundle.now.patches (trailer_text bundle.now.patches) Right) }
{
    let mut text = write_bundle(alloc, bundle)?;
    push_trailer(alloc, bundle.new_patches(), &mut text)?;
    Ok(text)
}
